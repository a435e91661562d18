//! The checked circuit of a cell, by what is known of the cells below it.

ghost use Rattle.std.specs.Prelude.{◌≡◌, ◌<◌, Bool, false, List, All, length, IfOk, OnOk};
ghost use Rattle.std.specs.List.{list_any};
ghost use Rattle.known_nets.specs.Wired.{IsWired};
ghost use Rattle.net_places.specs.Instances.{AreSmall};
ghost use Rattle.net_places.specs.Whole.{whole_of};
ghost use Rattle.prepared_tables.specs.Prepared.{ArePrepared};
ghost use Rattle.vrt_model.specs.Checked.{IsCircuitWith};
ghost use Rattle.vrt_model.specs.Circuits.{IsHold};
ghost use Rattle.vrt_model.specs.Unrolled.{Top};
ghost use Rattle.vrt_model.specs.declared.blif.Blif.{Blif as BlifValue};
ghost use Rattle.vrt_model.specs.declared.pairing.PortRole.{PortRole as RoleValue};
ghost use Rattle.vrt_model.specs.declared.whole.CellFacts.{CellFacts as FactsValue};
ghost use Rattle.whole_cells.specs.Kept.{AreKept};
ghost use Rattle.whole_cells.specs.Own.{AreFiles, AreItsPlaces};
ghost use Rattle.substitute.specs.Chosen.{cut_of};
ghost use Rattle.substitute.specs.Clocked.{is_clocked_at};
ghost use Rattle.substitute.specs.Underway.{AreChosenBelow, AreTables};
ghost use Rattle.substitute.specs.Whole.{AreEntriesOf, IsWholeGround, WholeGives};

use crate::bare_parts::all_bare_parts;
use crate::checked_circuit::CheckedCircuit;
use crate::choice::{Chosen, choose_all};
use crate::clocked::has_clocked_cell;
use crate::cycles::circuit_by;
use crate::tables::Tables;
use crate::trial::marks_with;
use net_places::Unrolled;
use prepared_tables::Prepared;
use std::alloc::Global;
use vrt_model::{Blif, CellFacts, Circuit, Design, NoMemory, Rules};
use whole_cells::{KeptCells, make_used};
use whole_circuits::device_places;

/// Whether some mark is set.
fn has_mark(marks: &[bool]) -> bool
    ensures { result ≡ list_any (λ (mark : Bool). mark) marks.now }
{
    let mut rest = marks;
    'marks: while let Some((mark, behind)) = rest.split_first() {
        if *mark {
            return true;
        }
        rest = behind;
    }
    false
}

/// The circuit in which the chosen instances are whole.
fn circuit_of(alloc: Global, tables: Tables<'_>, chosen: &Chosen) -> Result<Circuit, NoMemory>
    requires holds { All (IsHold tables.flat.now) tables.flat.now.holds }
    requires small { AreSmall tables.unrolled.now.places }
    ensures { IfOk result (λ circuit. (asked : Bool) (t : Top) (blif : BlifValue) (facts : List FactsValue) → AreTables t blif facts tables.entry → AreChosenBelow asked t blif facts tables.entry (length tables.entry.unrolled.now.places) chosen.now → IsCircuitWith (cut_of t chosen.now.whole.items) blif facts circuit) }
{
    let marks = marks_with(alloc, tables.unrolled, chosen.whole.as_slice())?;
    circuit_by(alloc, tables, &marks)
}

/// The checked circuit where cycles are asked for at each instance, none where no instance is chosen. It takes time in proportion to the flat circuit
/// for each instance.
fn one_by_one(alloc: Global, tables: Tables<'_>) -> Result<Option<CheckedCircuit>, NoMemory>
    requires holds { All (IsHold tables.flat.now) tables.flat.now.holds }
    requires wired { IsWired tables.flat.now }
    requires small { AreSmall tables.unrolled.now.places }
    requires tables { (t : Top) × (blif : BlifValue) × (facts : List FactsValue) × AreTables t blif facts tables }
    ensures { IfOk result (λ whole. (t : Top) (blif : BlifValue) (facts : List FactsValue) → AreTables t blif facts tables.entry → WholeGives t blif facts tables.entry.flat.now whole) }
{
    let chosen = choose_all(alloc, true, tables)?;
    if !has_mark(chosen.whole.as_slice()) {
        return Ok(None);
    }
    let circuit = circuit_of(alloc, tables, &chosen)?;
    Ok(Some(CheckedCircuit {
        circuit,
        parts: None,
    }))
}

/// The checked circuit of instances that are chosen without a look at cycles, if then no arc leads around: so no arc leads around
/// with fewer of them whole either. None where no instance is chosen.
fn all_at_once(alloc: Global, tables: Tables<'_>) -> Result<Option<CheckedCircuit>, NoMemory>
    requires holds { All (IsHold tables.flat.now) tables.flat.now.holds }
    requires wired { IsWired tables.flat.now }
    requires small { AreSmall tables.unrolled.now.places }
    requires tables { (t : Top) × (blif : BlifValue) × (facts : List FactsValue) × AreTables t blif facts tables }
    requires clocks { list_any (is_clocked_at tables.cells.now) tables.unrolled.now.places ≡ false }
    ensures { IfOk result (λ whole. (t : Top) (blif : BlifValue) (facts : List FactsValue) → AreTables t blif facts tables.entry → WholeGives t blif facts tables.entry.flat.now whole) }
{
    let tried = choose_all(alloc, false, tables)?;
    if !has_mark(tried.whole.as_slice()) {
        return Ok(None);
    }
    let circuit = circuit_of(alloc, tables, &tried)?;
    let bare = all_bare_parts(alloc, &circuit, tables.phases)?;
    match bare {
        Some(parts) => Ok(Some(CheckedCircuit {
            circuit,
            parts: Some(parts),
        })),
        None => one_by_one(alloc, tables),
    }
}

/// The checked circuit, none where no instance is chosen. A port that carries a clock has its bit in a cell alone, and so may
/// be known there and not around an instance: with such ports cycles are asked for at each instance.
fn checked_by(alloc: Global, tables: Tables<'_>) -> Result<Option<CheckedCircuit>, NoMemory>
    requires holds { All (IsHold tables.flat.now) tables.flat.now.holds }
    requires wired { IsWired tables.flat.now }
    requires small { AreSmall tables.unrolled.now.places }
    requires tables { (t : Top) × (blif : BlifValue) × (facts : List FactsValue) × AreTables t blif facts tables }
    ensures { IfOk result (λ whole. (t : Top) (blif : BlifValue) (facts : List FactsValue) → AreTables t blif facts tables.entry → WholeGives t blif facts tables.entry.flat.now whole) }
{
    if has_clocked_cell(tables.unrolled.places.as_slice(), tables.cells) {
        one_by_one(alloc, tables)
    } else {
        all_at_once(alloc, tables)
    }
}

/// Makes what the instances of each cell of an unrolled one have in common, where it is not made yet.
fn make_entries(
    alloc: Global,
    prepared: &Prepared,
    design: &Design,
    blif: &Blif,
    rules: &Rules,
    facts: &[CellFacts],
    unrolled: &Unrolled,
    kept: &mut KeptCells,
) -> Result<(), NoMemory>
    requires prepared { ArePrepared design.now blif.now rules.now prepared.now }
    requires files { AreFiles design.now blif.now rules.now }
    requires kept { AreKept design.now blif.now rules.now facts.now kept.old }
    ensures kept { OnOk result (AreKept design.now blif.now rules.now facts.now kept.new) }
    ensures entries { OnOk result (AreEntriesOf design.now blif.now rules.now facts.now unrolled.now.places kept.new.cells.items) }
{
    let places = unrolled.places.as_slice();
    make_used(alloc, prepared, design, blif, rules, facts, places, kept)?;
    Ok(())
}

/// The checked circuit of a supported cell with these places and this flat circuit, by what is known of the cells below it: its instances are
/// tried one by one, each before those inside it. None where no instance is left whole, so that the flat circuit is the checked one. What the
/// instances of a cell have in common is made where it is not kept, and kept.
pub fn whole_with(
    alloc: Global,
    prepared: &Prepared,
    design: &Design,
    blif: &Blif,
    rules: &Rules,
    cell: u32,
    unrolled: &Unrolled,
    flat: &Circuit,
    facts: &[CellFacts],
    kept: &mut KeptCells,
) -> Result<Option<CheckedCircuit>, NoMemory>
    requires prepared { ArePrepared design.now blif.now rules.now prepared.now }
    requires files { AreFiles design.now blif.now rules.now }
    requires there { cell < length design.now.cells }
    requires places { AreItsPlaces design.now rules.now cell unrolled.now }
    requires kept { AreKept design.now blif.now rules.now facts.now kept.old }
    requires ground { (roles : List RoleValue) × IsWholeGround design.now blif.now rules.now cell roles facts.now flat.now }
    ensures whole { IfOk result (λ whole. (roles : List RoleValue) → IsWholeGround design.now blif.now rules.now cell roles facts.now flat.now → WholeGives (whole_of design.now rules.now cell roles) blif.now facts.now flat.now whole) }
    ensures kept { IfOk result (λ _. AreKept design.now blif.now rules.now facts.now kept.new) }
{
    // the cell stands in its places
    let _unread = cell;
    let owners = device_places(alloc, design, unrolled)?;
    make_entries(alloc, prepared, design, blif, rules, facts, unrolled, kept)?;
    let tables = Tables {
        phases: rules.phases.as_slice(),
        flat,
        unrolled,
        owners: owners.as_slice(),
        cells: kept.cells.as_slice(),
    };
    checked_by(alloc, tables)
}
