//! A cell and its model flattened, or the first cause that stands in the way before the phases.

ghost use Rattle.std.specs.Prelude.{◌≡◌, ◌<◌, find, is_none, length, IfOk};
ghost use Rattle.std.specs.Option.{option_copied};
ghost use Rattle.blif_flat.specs.Counts.{AreModelTables};
ghost use Rattle.cell_room.specs.Compared.{AreInputs};
ghost use Rattle.cell_room.specs.Steps.{CircuitGrouped, CircuitTells, ClockTells, GroupsTell, ModelTells, PairingTells, PlacedTells, PlacedWith};
ghost use Rattle.flatten.specs.Structures.{IsStructured};
ghost use Rattle.latch_match.specs.Paired.{PairGives};
ghost use Rattle.prepared_tables.specs.Prepared.{ArePrepared};
ghost use Rattle.rule_index.specs.Tables.{AreIndexed};
ghost use Rattle.vrt_model.specs.Circuits.{IsCircuit};
ghost use Rattle.vrt_model.specs.Comparison.{cell_at};
ghost use Rattle.vrt_model.specs.Elements.{signal_name};
ghost use Rattle.vrt_model.specs.Inputs.{AreRules, IsBlif, IsDesign};
ghost use Rattle.vrt_model.specs.Models.{AreModels};
ghost use Rattle.vrt_model.specs.PairedPorts.{Model, paired_model};
ghost use Rattle.vrt_model.specs.Unsupported.{top_before};
ghost use Rattle.whole_cells.specs.Own.{AreItsPlaces};
ghost use Rattle.vrt_model.specs.declared.flat_model.FlatLatch.{FlatLatch as LatchValue};

use crate::flattened::Flattened;
use crate::hindrance::Hindrance;
use blif_flat::{FlatModelFault, ModelTables, flat_model_with};
use flatten::{FlatFault, structure_with, unroll_cell, unrolled_circuit};
use hold_groups::{MatchFault, groups};
use latch_match::{PairFault, pair_ports_with};
use net_places::Unrolled;
use prepared_tables::Prepared;
use rule_index::RuleIndex;
use std::alloc::Global;
use vrt_model::{
    Blif, Cell, Circuit, Design, FlatLatch, FlatModel, NoMemory, Pairing, Rules, Text, Why,
};

/// What stands in the way of the circuit of a cell. Its counts stop at once; a device or a tie is told after the counts
/// of the model.
fn circuit_cause(
    alloc: Global,
    index: &RuleIndex,
    design: &Design,
    rules: &Rules,
    cell: u32,
) -> Result<Option<Why>, Hindrance>
    requires netlist { IsDesign design.now }
    requires indexed { AreIndexed design.now rules.now index.now }
    requires there { cell < length design.now.cells }
    ensures { CircuitTells (top_before design.now rules.now cell) result }
{
    match structure_with(alloc, index, design, rules, cell) {
        Ok(()) => Ok(None),
        Err(FlatFault::DeviceModel { model }) => Ok(Some(Why::DeviceModel { model })),
        Err(FlatFault::SupplyTie { path }) => Ok(Some(Why::SupplyTie { path })),
        Err(FlatFault::Limit { count }) => Err(Hindrance::Because(Why::TooLarge { count })),
        Err(FlatFault::NoMemory) => Err(Hindrance::NoMemory),
    }
}

/// The flat model of a number, or the count that is too large.
fn flat_model_of(
    alloc: Global,
    tables: &ModelTables,
    blif: &Blif,
    model: u32,
) -> Result<FlatModel, Hindrance>
    requires tables { AreModelTables blif.now tables.now }
    requires blif { IsBlif blif.now }
    requires models { AreModels blif.now }
    ensures { ModelTells blif.now model result }
{
    match flat_model_with(alloc, tables, blif, model) {
        Ok(flat) => Ok(flat),
        Err(FlatModelFault::Limit { count }) => Err(Hindrance::Because(Why::TooLarge { count })),
        Err(FlatModelFault::NoMemory) => Err(Hindrance::NoMemory),
    }
}

/// A cell by its number.
fn cell_of(design: &Design, cell: u32) -> &Cell
    requires { cell < length design.now.cells }
    ensures { result.now ≡ cell_at design.entry.now cell }
{
    &design.cells.as_slice()[cell as usize]
}

/// The pairing of the ports of a cell by its number.
fn ports_paired(
    alloc: Global,
    index: &RuleIndex,
    design: &Design,
    cell: u32,
    model: u32,
    flat: &FlatModel,
    rules: &Rules,
) -> Result<Pairing, PairFault>
    requires indexed { AreIndexed design.now rules.now index.now }
    requires cell { cell < length design.now.cells }
    requires rules { AreRules rules.now }
    ensures { PairGives design.now cell model flat.now rules.now result }
{
    pair_ports_with(alloc, index, cell_of(design, cell), model, flat, rules)
}

/// The pairing of a cell with its model, or what stands in its way.
fn pairing_of(
    alloc: Global,
    index: &RuleIndex,
    design: &Design,
    cell: u32,
    model: u32,
    flat: &FlatModel,
    rules: &Rules,
) -> Result<Pairing, Hindrance>
    requires indexed { AreIndexed design.now rules.now index.now }
    requires cell { cell < length design.now.cells }
    requires rules { AreRules rules.now }
    ensures { PairingTells design.now cell model flat.now rules.now result }
{
    match ports_paired(alloc, index, design, cell, model, flat, rules) {
        Ok(pairing) => Ok(pairing),
        Err(PairFault::Ports { name }) => Err(Hindrance::Because(Why::Ports { name })),
        Err(PairFault::OutputIsInput { signal }) => {
            Err(Hindrance::Because(Why::OutputIsInput { signal }))
        }
        Err(PairFault::NoMemory) => Err(Hindrance::NoMemory),
    }
}

/// The first latch that names no clock.
fn unclocked(latches: &[FlatLatch]) -> Option<&FlatLatch>
    ensures { option_copied result ≡ find (λ (l : LatchValue). is_none l.control) latches.entry.now }
{
    latches.iter().find(|latch| latch.control.is_none())
}

/// The name of a signal of a model.
fn name_of_signal(alloc: Global, flat: &FlatModel, signal: u32) -> Result<Text, NoMemory>
    ensures { IfOk result (λ name. name ≡ signal_name flat.now signal) }
{
    match flat.signals.get(signal as usize) {
        Some(name) => Text::from_bytes(alloc, name.as_bytes()),
        None => Ok(Text::new(alloc)),
    }
}

/// Each latch has a clock: its own, or the default one; else the first without is the cause.
fn clocked(alloc: Global, flat: &FlatModel, rules: &Rules) -> Result<(), Hindrance>
    ensures { ClockTells flat.now rules.now result }
{
    if rules.defaultclocks.get(0).is_some() {
        return Ok(());
    }
    match unclocked(flat.latches.as_slice()) {
        Some(latch) => {
            let latch = name_of_signal(alloc, flat, latch.output)?;
            Err(Hindrance::Because(Why::NoClock { latch }))
        }
        None => Ok(()),
    }
}

/// A circuit and a model with the groups of the circuit's holds, or the latch element that no hold stands for.
fn grouped(
    alloc: Global,
    design: &Design,
    rules: &Rules,
    cell: u32,
    pairing: Pairing,
    circuit: Circuit,
    model: FlatModel,
) -> Result<Flattened, Hindrance>
    requires { IsCircuit circuit }
    ensures { GroupsTell design.now rules.now cell pairing circuit model result }
{
    match groups(alloc, design, &circuit, &model, rules, cell) {
        Ok(groups) => Ok(Flattened::new(pairing, circuit, model, groups)),
        Err(MatchFault::Unmatched { name }) => Err(Hindrance::Because(Why::Unmatched { name })),
        Err(MatchFault::NoMemory) => Err(Hindrance::NoMemory),
    }
}

/// The flat circuit of a cell with these places that nothing stands in the way of and that pairs with a model by this, with the groups of
/// its holds.
fn with_circuit(
    alloc: Global,
    prepared: &Prepared,
    design: &Design,
    blif: &Blif,
    rules: &Rules,
    cell: u32,
    unrolled: &Unrolled,
    pairing: Pairing,
    model: FlatModel,
) -> Result<Flattened, Hindrance>
    requires prepared { ArePrepared design.now blif.now rules.now prepared.now }
    requires inputs { AreInputs design.now blif.now rules.now cell }
    requires structured { IsStructured (top_before design.now rules.now cell) }
    requires places { AreItsPlaces design.now rules.now cell unrolled.now }
    ensures { CircuitGrouped design.now rules.now cell pairing model result }
{
    // the models are in the tables
    let _unread = blif;
    match unrolled_circuit(
        alloc,
        &prepared.index,
        &prepared.nets,
        design,
        rules,
        unrolled,
        cell,
        &pairing,
    ) {
        Ok(circuit) => grouped(alloc, design, rules, cell, pairing, circuit, model),
        Err(_) => Err(Hindrance::NoMemory),
    }
}

/// A cell with its model, flattened, and the places that it was made of.
#[derive(Drop)]
pub(crate) struct Placed {
    /// The places of the cell and its instances.
    pub(crate) unrolled: Unrolled,
    /// The flat circuit and the flat model, their pairing, and the groups of the holds.
    pub(crate) flattened: Flattened,
}

/// A cell that nothing stands in the way of and that pairs with a model by this, unrolled and flattened.
fn placed_with(
    alloc: Global,
    prepared: &Prepared,
    design: &Design,
    blif: &Blif,
    rules: &Rules,
    cell: u32,
    pairing: Pairing,
    model: FlatModel,
) -> Result<Placed, Hindrance>
    requires prepared { ArePrepared design.now blif.now rules.now prepared.now }
    requires inputs { AreInputs design.now blif.now rules.now cell }
    requires structured { IsStructured (top_before design.now rules.now cell) }
    ensures { PlacedWith design.now rules.now cell pairing model result }
{
    let Ok(unrolled) = unroll_cell(alloc, &prepared.nets, design, rules, cell) else {
        return Err(Hindrance::NoMemory);
    };
    match with_circuit(
        alloc, prepared, design, blif, rules, cell, &unrolled, pairing, model,
    ) {
        Ok(flattened) => Ok(Placed {
            unrolled,
            flattened,
        }),
        Err(stop) => Err(stop),
    }
}

/// A cell and its model flattened, with their pairing, the groups of its holds, and the places of its instances; or the first cause, which is
/// no cycle: a count of the circuit, a count of the model, the model of a device, a tied supply, a port, an output that is an input, a
/// latch without clock, a latch element without hold.
pub(crate) fn flatten_cell(
    alloc: Global,
    prepared: &Prepared,
    design: &Design,
    blif: &Blif,
    rules: &Rules,
    cell: u32,
    model: u32,
) -> Result<Placed, Hindrance>
    requires prepared { ArePrepared design.now blif.now rules.now prepared.now }
    requires inputs { AreInputs design.now blif.now rules.now cell }
    requires paired { paired_model design.now blif.now rules.now cell ≡ Model model }
    ensures { PlacedTells design.now blif.now rules.now cell model result }
{
    let index = &prepared.index;
    let cause = circuit_cause(alloc, index, design, rules, cell)?;
    let flat_model = flat_model_of(alloc, &prepared.models, blif, model)?;
    if let Some(why) = cause {
        return Err(Hindrance::Because(why));
    }
    let pairing = pairing_of(alloc, index, design, cell, model, &flat_model, rules)?;
    clocked(alloc, &flat_model, rules)?;
    placed_with(
        alloc, prepared, design, blif, rules, cell, pairing, flat_model,
    )
}
