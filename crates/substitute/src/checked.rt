//! The checked circuit of a cell from nothing but its files and what is known of the cells below it.

ghost use Rattle.std.specs.Prelude.{◌<◌, List, length, IfOk};
ghost use Rattle.checked_cells.specs.Given.{AreTrueFacts};
ghost use Rattle.net_places.specs.Whole.{whole_of};
ghost use Rattle.prepared_tables.specs.Prepared.{ArePrepared};
ghost use Rattle.vrt_model.specs.declared.pairing.PortRole.{PortRole as RoleValue};
ghost use Rattle.whole_cells.specs.Own.{AreFiles, AreItsPlaces};
ghost use Rattle.substitute.specs.Whole.{IsCellGround, WholeAnswers, WholeGives};

use crate::checked_circuit::CheckedCircuit;
use crate::with_tables::whole_with;
use flatten::{FlatFault, structure_with, unroll_cell, unrolled_circuit};
use net_places::Unrolled;
use prepared_tables::{Prepared, prepare};
use std::alloc::Global;
use vrt_model::{Blif, CellFacts, Circuit, Design, NoMemory, Pairing, Rules, Seq};
use whole_cells::KeptCells;
use whole_circuits::are_acyclic;

/// The checked circuit of a cell with these places and this flat circuit, none where it is the flat one, as where its arcs lead around.
fn checked_of(
    alloc: Global,
    prepared: &Prepared,
    design: &Design,
    blif: &Blif,
    rules: &Rules,
    cell: u32,
    unrolled: &Unrolled,
    flat: &Circuit,
    facts: &[CellFacts],
) -> Result<Option<CheckedCircuit>, NoMemory>
    requires prepared { ArePrepared design.now blif.now rules.now prepared.now }
    requires files { AreFiles design.now blif.now rules.now }
    requires there { cell < length design.now.cells }
    requires places { AreItsPlaces design.now rules.now cell unrolled.now }
    requires ground { (roles : List RoleValue) × IsCellGround (whole_of design.now rules.now cell roles) blif.now facts.now flat.now }
    ensures { IfOk result (λ whole. (roles : List RoleValue) → IsCellGround (whole_of design.now rules.now cell roles) blif.now facts.now flat.now → WholeGives (whole_of design.now rules.now cell roles) blif.now facts.now flat.now whole) }
{
    let free = are_acyclic(alloc, flat, rules.phases.as_slice())?;
    if !free {
        return Ok(None);
    }
    let mut kept = KeptCells::none(alloc, design.cells.len())?;
    let whole = whole_with(
        alloc, prepared, design, blif, rules, cell, unrolled, flat, facts, &mut kept,
    )?;
    Ok(whole)
}

/// The checked circuit of a cell whose ports pair so, by what is known of the cells below it: its flat circuit with those instances left
/// whole that may be, tried one by one, each before those inside it. Where the arcs of the flat circuit lead around, no instance is left whole. The
/// refusals are those of the flat circuit.
pub fn whole(
    alloc: Global,
    design: &Design,
    blif: &Blif,
    rules: &Rules,
    cell: u32,
    pairing: &Pairing,
    facts: &Seq<CellFacts>,
) -> Result<Circuit, FlatFault>
    requires files { AreFiles design.now blif.now rules.now }
    requires there { cell < length design.now.cells }
    requires told { AreTrueFacts design.now blif.now rules.now facts.now }
    ensures { WholeAnswers design.now blif.now rules.now cell pairing.now facts.now result }
{
    let prepared = prepare(alloc, design, blif, rules)?;
    let index = &prepared.index;
    let nets = &prepared.nets;
    structure_with(alloc, index, design, rules, cell)?;
    let unrolled = unroll_cell(alloc, nets, design, rules, cell)?;
    let flat = unrolled_circuit(alloc, index, nets, design, rules, &unrolled, cell, pairing)?;
    let found = checked_of(
        alloc,
        &prepared,
        design,
        blif,
        rules,
        cell,
        &unrolled,
        &flat,
        facts.as_slice(),
    )?;
    match found {
        Some(checked) => Ok(checked.into_circuit()),
        None => Ok(flat),
    }
}
