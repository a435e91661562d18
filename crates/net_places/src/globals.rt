//! The global nets of an unrolled cell.

ghost use Rattle.std.specs.Prelude.{◌≡◌, ◌<◌, ◌+◌, ◌^◌, ◌||◌, ℕ, suc, false, cond, flat_map, get_or, length, IfOk};
ghost use Rattle.std.specs.List.{list_any};
ghost use Rattle.net_places.specs.Globals.{HasMarked, all_nets, card_nets, global_nets_from, is_global, marked_count, nets_below, nets_on};
ghost use Rattle.vrt_model.specs.FlatCircuit.{net_id};
ghost use Rattle.net_tables.specs.declared.types.InstanceNets.{InstanceNets as InstanceValue};

use net_tables::{CellNet, CellNets, DeviceNets, InstanceNets, NetTables};
use std::alloc::Global;
use vrt_model::{Net, NoMemory, Seq};

/// For each net on a `.global` card the mark 0.
fn no_marks(alloc: Global, count: usize) -> Result<Vec<bool>, NoMemory>
    ensures len { IfOk result (λ t. length t.items ≡ count) }
    ensures none { IfOk result (λ t. (j : ℕ) → get_or t.items j false ≡ false) }
{
    let mut marks = Vec::new(alloc);
    match marks.resize(count, false) {
        Ok(()) => Ok(marks),
        Err(_) => Err(NoMemory),
    }
}

/// Sets the mark of a net, if it is a global one.
fn mark(marks: &mut Vec<bool>, net: CellNet)
    ensures len { length marks.new.items ≡ length marks.old.items }
    ensures marked { (j : ℕ) → j < length marks.old.items → get_or marks.new.items j false ≡ (get_or marks.old.items j false || is_global j net) }
{
    if let CellNet::Global(place) = net {
        if place < marks.len() {
            marks[place] = true;
        }
    }
}

/// Sets the marks of nets.
fn mark_nets(marks: &mut Vec<bool>, nets: &[CellNet])
    ensures { HasMarked nets.now marks.old.items marks.new.items }
{
    let mut left = nets;
    'nets: while let Some((net, behind)) = left.split_first() {
        mark(marks, *net);
        left = behind;
    }
}

/// Sets the marks of the nets at a transistor.
fn mark_device(marks: &mut Vec<bool>, device: DeviceNets)
    ensures { HasMarked (nets_on device) marks.old.items marks.new.items }
{
    mark(marks, device.drain);
    mark(marks, device.gate);
    mark(marks, device.source);
}

/// Sets the marks of the nets at transistors.
fn mark_devices(marks: &mut Vec<bool>, devices: &[DeviceNets])
    ensures { HasMarked (flat_map nets_on devices.now) marks.old.items marks.new.items }
{
    let mut left = devices;
    'devices: while let Some((device, behind)) = left.split_first() {
        mark_device(marks, *device);
        left = behind;
    }
}

/// Sets the marks of the nets at instances.
fn mark_instances(marks: &mut Vec<bool>, instances: &[InstanceNets])
    ensures { HasMarked (flat_map (λ (i : InstanceValue). i.nets) instances.now) marks.old.items marks.new.items }
{
    let mut left = instances;
    'instances: while let Some((instance, behind)) = left.split_first() {
        mark_nets(marks, instance.nets.as_slice());
        left = behind;
    }
}

/// Sets the marks of the nets on the cards of a cell.
fn mark_cards(marks: &mut Vec<bool>, nets: &CellNets)
    ensures { HasMarked (card_nets nets.now) marks.old.items marks.new.items }
{
    mark_devices(marks, nets.devices.as_slice());
    mark_instances(marks, nets.instances.as_slice());
}

/// Sets the marks of the nets on the cards of a cell and of those in it, at most so deep. It takes time in proportion to
/// the cards that are unrolled.
fn mark_below(marks: &mut Vec<bool>, tables: &NetTables, depth: u32, cell: usize)
    ensures { HasMarked (nets_below tables.now depth cell) marks.old.items marks.new.items }
{
    let Some(nets) = tables.cells.get(cell) else {
        return;
    };
    mark_cards(marks, nets);
    if depth == 0 {
        return;
    }
    let below = depth - 1;
    let mut left = nets.instances.as_slice();
    'instances: while let Some((instance, behind)) = left.split_first() {
        mark_below(marks, tables, below, instance.cell);
        left = behind;
    }
}

/// Sets the marks of the nets on all cards of an unrolled cell.
fn mark_all(marks: &mut Vec<bool>, tables: &NetTables, cell: usize)
    ensures { HasMarked (all_nets tables.now cell) marks.old.items marks.new.items }
{
    mark_below(marks, tables, 32, cell)
}

/// A mark for each of so many nets on `.global` cards: whether a card of the unrolled cell names it.
pub(crate) fn marks_of(
    alloc: Global,
    tables: &NetTables,
    cell: usize,
    count: usize,
) -> Result<Vec<bool>, NoMemory>
    ensures len { IfOk result (λ marks. length marks.items ≡ count) }
    ensures marked { IfOk result (λ marks. (j : ℕ) → j < count → get_or marks.items j false ≡ list_any (is_global j) (all_nets tables.now cell)) }
{
    let mut marks = no_marks(alloc, count)?;
    mark_all(&mut marks, tables, cell);
    Ok(marks)
}

/// Global nets, and the flat net behind them.
#[derive(Drop)]
pub(crate) struct GlobalNets {
    /// For each net on a `.global` card its flat net, 0 where no card names it.
    pub nets: Seq<Net>,
    /// The flat net behind them.
    pub next: u32,
}

/// The flat net of a global net: the next one, if it is marked.
fn global_net(mark: bool, next: u32) -> Net
    ensures { result ≡ cond mark (net_id next) (net_id 0) }
{
    if mark { Net(next) } else { Net(0) }
}

/// The next net behind it.
fn next_net(mark: bool, next: u32) -> u32
    requires { next + cond mark 1 0 < 2 ^ 32 }
    ensures { result ≡ cond mark (suc next) next }
{
    if mark { next + 1 } else { next }
}

/// The flat nets of those that are marked, one behind the other from a net on.
pub(crate) fn global_nets(alloc: Global, marks: &[bool], first: u32) -> Result<GlobalNets, NoMemory>
    requires { first + marked_count marks.now < 2 ^ 32 }
    ensures nets { IfOk result (λ globals. globals.nets ≡ global_nets_from first marks.now) }
    ensures next { IfOk result (λ globals. globals.next ≡ first + marked_count marks.now) }
{
    let mut nets = Seq::new(alloc);
    let mut next = first;
    let mut left = marks;
    'marks: while let Some((mark, behind)) = left.split_first() {
        nets.append(global_net(*mark, next))?;
        next = next_net(*mark, next);
        left = behind;
    }
    Ok(GlobalNets { nets, next })
}
