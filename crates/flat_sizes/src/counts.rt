//! The counts of a flat circuit.

ghost use Rattle.std.specs.Prelude.{◌≡◌, ◌<◌, ◌+◌, ◌*◌, filter, is_none, length, nat_lt};
ghost use Rattle.flat_sizes.specs.Sizes.{AreSizes};
ghost use Rattle.flat_sizes.specs.Totals.{AreInside, global_weight, inside, names_inside, nets_weight, stood, weight_of};
ghost use Rattle.vrt_model.specs.CellRules.{supply_of};
ghost use Rattle.vrt_model.specs.Comparison.{cell_at};
ghost use Rattle.vrt_model.specs.FlatCircuit.{flat_devices, flat_nets};
ghost use Rattle.vrt_model.specs.Inputs.{IsDesign};
ghost use Rattle.vrt_model.specs.Unsupported.{carried, top_before};

use crate::last_mentions::own_count;
use crate::mentions::{names_global, net_count};
use crate::stands::Stand;
use crate::totals::{cells_inside, listed};
use vrt_model::{Design, Rules, Text};

/// How many nets, devices and instances a flat circuit has; a count past the greatest number is that number.
#[derive(Clone, Copy, Debug, PartialEq, Eq)]
pub struct FlatSizes {
    /// The nets, the two supplies among them. With more than 20,000 the cell is not checked.
    pub nets: u64,
    /// The transistors. With more than 40,000 the cell is not checked.
    pub devices: u64,
    /// The instances at all depths. With more than 40,000 the cell is not checked.
    pub instances: u64,
}

/// What is counted of a cell.
#[derive(Clone, Copy)]
pub(crate) enum Counted {
    /// The nets of its own.
    Nets,
    /// Its transistors.
    Devices,
    /// The cell itself.
    Instances,
}

/// How many nets a cell has of its own, none where there is no cell.
fn nets_of(design: &Design, rules: &Rules, cell: usize) -> u64
    ensures { result ≡ carried (nets_weight design.now rules.now cell) }
{
    match design.cells.get(cell) {
        Some(found) => own_count(design, rules, found),
        None => 0,
    }
}

/// How many transistors a cell has, none where there is no cell.
fn devices_of(design: &Design, cell: usize) -> u64
    ensures { result ≡ carried (length (cell_at design.now cell).devices) }
{
    match design.cells.get(cell) {
        Some(found) => found.devices.len() as u64,
        None => 0,
    }
}

/// What a cell counts of its own.
fn own_weight(design: &Design, rules: &Rules, cell: usize, counted: Counted) -> u64
    ensures { result ≡ carried (weight_of counted design.now rules.now cell) }
{
    match counted {
        Counted::Nets => nets_of(design, rules, cell),
        Counted::Devices => devices_of(design, cell),
        Counted::Instances => 1,
    }
}

/// What a cell counts that stands so often. One that stands nowhere is not looked at.
fn weight_at(design: &Design, rules: &Rules, cell: usize, counted: Counted, count: u64) -> u64
    ensures { result ≡ carried (count * weight_of counted design.now rules.now cell) }
{
    if count == 0 {
        return 0;
    }
    own_weight(design, rules, cell, counted).saturating_mul(count)
}

/// What cells count that stand so often.
fn sum_of(design: &Design, rules: &Rules, counted: Counted, stands: &[Stand]) -> u64
    ensures { result ≡ carried (stood (weight_of counted design.now rules.now) stands.now) }
{
    let mut sum = 0u64;
    for stand in stands {
        sum = sum.saturating_add(weight_at(design, rules, stand.cell, counted, stand.count));
    }
    sum
}

/// What the cells in a cell count.
fn inner_count(
    design: &Design,
    rules: &Rules,
    cell: usize,
    counted: Counted,
    stands: &[Stand],
) -> u64
    requires { AreInside design.now cell stands.now }
    ensures { result ≡ carried (inside design.now (weight_of counted design.now rules.now) cell) }
{
    sum_of(design, rules, counted, stands)
}

/// Whether a card of a cell names a global net.
fn is_global_at(design: &Design, rules: &Rules, cell: usize, name: &Text) -> bool
    ensures { result ≡ nat_lt 0 (global_weight design.now rules.now name.now cell) }
{
    match design.cells.get(cell) {
        Some(found) => names_global(design, rules, found, name),
        None => false,
    }
}

/// Whether a card of a cell that stands so often names a global net. One that stands nowhere is not looked at.
fn is_named_at(design: &Design, rules: &Rules, cell: usize, count: u64, name: &Text) -> bool
    ensures { result ≡ nat_lt 0 (count * global_weight design.now rules.now name.now cell) }
{
    if count == 0 {
        return false;
    }
    is_global_at(design, rules, cell, name)
}

/// Whether a card of a cell that stands somewhere names a global net.
fn is_named(design: &Design, rules: &Rules, stands: &[Stand], name: &Text) -> bool
    ensures { result ≡ nat_lt 0 (stood (global_weight design.now rules.now name.now) stands.now) }
{
    for stand in stands {
        if is_named_at(design, rules, stand.cell, stand.count, name) {
            return true;
        }
    }
    false
}

/// Whether a card of a cell, or of a cell in it, names a global net.
fn is_global(design: &Design, rules: &Rules, cell: usize, stands: &[Stand], name: &Text) -> bool
    requires { AreInside design.now cell stands.now }
    ensures { result ≡ names_inside design.now rules.now cell name.now }
{
    is_global_at(design, rules, cell, name) || is_named(design, rules, stands, name)
}

/// How many global nets a cell has.
fn global_count(design: &Design, rules: &Rules, cell: usize, stands: &[Stand]) -> usize
    requires { AreInside design.now cell stands.now }
    ensures { result ≡ length (filter (names_inside design.now rules.now cell) design.now.globals) }
{
    design
        .globals
        .as_slice()
        .iter()
        .filter(|name| is_global(design, rules, cell, stands, name))
        .count()
}

/// How many ports of a cell are no supplies.
fn port_count(design: &Design, rules: &Rules, cell: usize) -> usize
    requires { cell < length design.now.cells }
    ensures { result ≡ length (filter (λ name. is_none (supply_of rules.now name)) (cell_at design.now cell).ports) }
{
    net_count(rules, design.cells.as_slice()[cell].ports.as_slice())
}

/// How many nets a cell has, by the own nets of it and of the cells in it.
fn all_nets(
    design: &Design,
    rules: &Rules,
    cell: usize,
    stands: &[Stand],
    own: u64,
    inner: u64,
) -> u64
    requires there { cell < length design.now.cells }
    requires stands { AreInside design.now cell stands.now }
    requires own { own ≡ carried (nets_weight design.now rules.now cell) }
    requires inner { inner ≡ carried (inside design.now (nets_weight design.now rules.now) cell) }
    ensures { result ≡ carried (length (flat_nets (top_before design.now rules.now cell))) }
{
    let ports = port_count(design, rules, cell) as u64;
    let globals = global_count(design, rules, cell, stands) as u64;
    ports
        .saturating_add(globals)
        .saturating_add(own)
        .saturating_add(inner)
        .saturating_add(2)
}

/// How many devices a cell has.
fn all_devices(design: &Design, rules: &Rules, cell: usize, stands: &[Stand]) -> u64
    requires { AreInside design.now cell stands.now }
    ensures { result ≡ carried (length (flat_devices (top_before design.now rules.now cell))) }
{
    let inner = inner_count(design, rules, cell, Counted::Devices, stands);
    devices_of(design, cell).saturating_add(inner)
}

/// How many nets, devices and instances a cell has, by the own nets of it and of the cells in it.
pub(crate) fn sizes_by(
    design: &Design,
    rules: &Rules,
    cell: usize,
    stands: &[Stand],
    own: u64,
    inner: u64,
) -> FlatSizes
    requires there { cell < length design.now.cells }
    requires stands { AreInside design.now cell stands.now }
    requires own { own ≡ carried (nets_weight design.now rules.now cell) }
    requires inner { inner ≡ carried (inside design.now (nets_weight design.now rules.now) cell) }
    ensures { AreSizes (top_before design.now rules.now cell) result }
{
    FlatSizes {
        nets: all_nets(design, rules, cell, stands, own, inner),
        devices: all_devices(design, rules, cell, stands),
        instances: inner_count(design, rules, cell, Counted::Instances, stands),
    }
}

/// How many nets, devices and instances a cell has, with the own nets of each cell counted without memory.
fn sizes_of(design: &Design, rules: &Rules, cell: usize, stands: &[Stand]) -> FlatSizes
    requires there { cell < length design.now.cells }
    requires stands { AreInside design.now cell stands.now }
    ensures { AreSizes (top_before design.now rules.now cell) result }
{
    let own = nets_of(design, rules, cell);
    let inner = inner_count(design, rules, cell, Counted::Nets, stands);
    sizes_by(design, rules, cell, stands, own, inner)
}

/// How many nets, devices and instances the flat circuit of a cell has. It takes no memory and unrolls no instance; its
/// time grows with the square of what the cards of a cell name, and with the count of cells times that of cards.
pub fn sizes(design: &Design, rules: &Rules, cell: u32) -> FlatSizes
    requires netlist { IsDesign design.now }
    requires there { cell < length design.now.cells }
    ensures { AreSizes (top_before design.now rules.now cell) result }
{
    let cell = cell as usize;
    let stands = listed(&cells_inside(design, cell));
    sizes_of(design, rules, cell, stands.as_slice())
}
