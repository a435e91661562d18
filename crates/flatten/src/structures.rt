//! What stands in the way of a flat circuit.

ghost use Rattle.std.specs.Prelude.{◌≡◌, ◌<◌, ◌≤◌, ◌+◌, ◌*◌, ℕ, [], None, length, nat_lt, option_map};
ghost use Rattle.flatten.specs.Structures.{CausesGive, StructureGives, TestGives, large_in};
ghost use Rattle.flatten.specs.Walks.{AreNumbered, card_without_kind, tie_from, top_spot};
ghost use Rattle.rule_index.specs.Tables.{AreIndexed, supply_in};
ghost use Rattle.vrt_model.specs.Comparison.{cell_at};
ghost use Rattle.vrt_model.specs.Inputs.{IsDesign};
ghost use Rattle.vrt_model.specs.Unsupported.{carried, top_before};
ghost use Rattle.vrt_model.specs.declared.design.DeviceCard.{DeviceCard as CardValue};
ghost use Rattle.vrt_model.specs.declared.rules.Rules.{Rules as RulesValue};

use crate::cells::{cell_of, is_leaf};
use crate::devices::without_kind;
use crate::faults::FlatFault;
use crate::kinds::unrolled_without_kind;
use crate::net_names::name_nets;
use crate::ties::tied_apart;
use flat_sizes::{FlatSizes, sizes_with};
use names::Names;
use rule_index::{ModelTable, RuleIndex, index_of};
use std::alloc::Global;
use vrt_model::{Cell, Design, DeviceCard, Rules, Text};

/// How many nets there are: the two supplies, and those of the names.
fn net_count(names: &Names) -> usize
    ensures { result ≡ carried (length names.now + 2) }
{
    names.len().saturating_add(2)
}

/// Whether a count of nets passes its limit.
fn is_too_large(count: usize) -> bool
    ensures { result ≡ nat_lt 20000 count }
{
    count > 20_000
}

/// How many nets there are at most: the two supplies, and one for each port, for each `.global` name, and for each drain,
/// gate and source.
fn most_nets(globals: &[Text], cell: &Cell) -> usize
    ensures { result ≡ carried (length cell.now.devices * 3 + length cell.now.ports + length globals.now + 2) }
{
    cell.devices
        .len()
        .saturating_mul(3)
        .saturating_add(cell.ports.len())
        .saturating_add(globals.len())
        .saturating_add(2)
}

/// Tests the models of devices, where there are few nets.
fn test_kinds(alloc: Global, models: &ModelTable, cards: &[DeviceCard]) -> Result<(), FlatFault>
    ensures { (count : ℕ) → count ≤ 20000 → TestGives count models.now cards.now result }
{
    match without_kind(models, cards) {
        Some(card) => {
            let model = Text::from_bytes(alloc, card.model.as_bytes())?;
            Err(FlatFault::DeviceModel { model })
        }
        None => Ok(()),
    }
}

/// Tests the count of nets, then the models of the devices.
fn test(
    alloc: Global,
    models: &ModelTable,
    names: &Names,
    cards: &[DeviceCard],
) -> Result<(), FlatFault>
    ensures { TestGives (length names.now + 2) models.now cards.now result }
{
    let count = net_count(names);
    if is_too_large(count) {
        return Err(FlatFault::Limit {
            count: count as u64,
        });
    }
    test_kinds(alloc, models, cards)
}

/// Tests a cell without instances: by the names of its nets, which are added first, unless there are so few that their
/// count cannot pass its limit.
fn structure_by(
    alloc: Global,
    index: &RuleIndex,
    design: &Design,
    cell: u32,
    names: &mut Names,
) -> Result<(), FlatFault>
    requires netlist { IsDesign design.now }
    requires there { cell < length design.now.cells }
    requires leaf { (cell_at design.now cell).instances ≡ [] }
    requires fresh { names.old ≡ [] }
    ensures { (rules : RulesValue) → AreIndexed design.now rules index.now → StructureGives (top_before design.now rules cell) result }
{
    let cell = cell_of(design, cell);
    let cards = cell.devices.as_slice();
    let globals = design.globals.as_slice();
    if !is_too_large(most_nets(globals, cell)) {
        return test_kinds(alloc, &index.models, cards);
    }
    name_nets(alloc, names, &index.supplies, design, cell)?;
    test(alloc, &index.models, names, cards)
}

/// The first count that passes its limit.
fn first_large(counts: FlatSizes) -> Option<u64>
    ensures { result ≡ large_in counts.nets counts.devices counts.instances }
{
    if counts.nets > 20_000 {
        return Some(counts.nets);
    }
    if counts.devices > 40_000 {
        return Some(counts.devices);
    }
    if counts.instances > 40_000 {
        return Some(counts.instances);
    }
    None
}

/// Tests whether an instance ties a supply to another net.
fn test_ties(alloc: Global, index: &RuleIndex, design: &Design, cell: u32) -> Result<(), FlatFault>
    requires netlist { IsDesign design.now }
    requires numbered { AreNumbered design.now index.now.cells }
    requires there { cell < length design.now.cells }
    ensures { CausesGive None None (tie_from design.now (supply_in index.now.supplies) (top_spot design.now (supply_in index.now.supplies) cell)) result }
{
    let path = tied_apart(alloc, design, &index.cells, &index.supplies, cell)?;
    match path {
        Some(path) => Err(FlatFault::SupplyTie { path }),
        None => Ok(()),
    }
}

/// Tests the models of all devices, then the ties of all instances.
fn test_unrolled(
    alloc: Global,
    index: &RuleIndex,
    design: &Design,
    cell: u32,
) -> Result<(), FlatFault>
    requires netlist { IsDesign design.now }
    requires numbered { AreNumbered design.now index.now.cells }
    requires there { cell < length design.now.cells }
    ensures { CausesGive None (option_map (λ (d : CardValue). d.model) (card_without_kind index.now.models design.now cell)) (tie_from design.now (supply_in index.now.supplies) (top_spot design.now (supply_in index.now.supplies) cell)) result }
{
    match unrolled_without_kind(&index.models, design, &index.cells, cell as usize) {
        Some(card) => {
            let model = Text::from_bytes(alloc, card.model.as_bytes())?;
            Err(FlatFault::DeviceModel { model })
        }
        None => test_ties(alloc, index, design, cell),
    }
}

/// Tests a cell with its instances. No instance is unrolled where a count passes its limit.
fn test_whole(
    alloc: Global,
    index: &RuleIndex,
    design: &Design,
    rules: &Rules,
    cell: u32,
) -> Result<(), FlatFault>
    requires netlist { IsDesign design.now }
    requires indexed { AreIndexed design.now rules.now index.now }
    requires there { cell < length design.now.cells }
    ensures { StructureGives (top_before design.now rules.now cell) result }
{
    let counts = sizes_with(alloc, design, rules, &index.cells, cell)?;
    if let Some(count) = first_large(counts) {
        return Err(FlatFault::Limit { count });
    }
    test_unrolled(alloc, index, design, cell)
}

/// Tests what stands in the way of the flat circuit of a cell by the tables of its netlist and rules: the same as
/// `structure`.
pub fn structure_with(
    alloc: Global,
    index: &RuleIndex,
    design: &Design,
    rules: &Rules,
    cell: u32,
) -> Result<(), FlatFault>
    requires netlist { IsDesign design.now }
    requires indexed { AreIndexed design.now rules.now index.now }
    requires there { cell < length design.now.cells }
    ensures { StructureGives (top_before design.now rules.now cell) result }
{
    if is_leaf(design, cell) {
        let mut names = Names::new(alloc);
        return structure_by(alloc, index, design, cell, &mut names);
    }
    test_whole(alloc, index, design, rules, cell)
}

/// Tests, before a cell is paired, what stands in the way of its flat circuit, in this order: a count of nets, devices or
/// instances that passes its limit; a device whose model has no kind; an instance that ties a supply to another net.
pub fn structure(alloc: Global, design: &Design, rules: &Rules, cell: u32) -> Result<(), FlatFault>
    requires netlist { IsDesign design.now }
    requires there { cell < length design.now.cells }
    ensures { StructureGives (top_before design.now rules.now cell) result }
{
    let index = index_of(alloc, design, rules)?;
    structure_with(alloc, &index, design, rules, cell)
}
