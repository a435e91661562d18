//! The levels of output ports, by the levels of their nets.

ghost use Rattle.std.specs.Prelude.{◌≡◌, ◌≢◌, ◌<◌, ◌||◌, ◌==◌, ℕ, All, IfOk, None, length};
ghost use Rattle.drive_levels.specs.PortLevels.{AreJoined, drive_by, drive_over, is_one_of, joined_level};
ghost use Rattle.output_levels.specs.PartLevels.{level_at};
ghost use Rattle.vrt_model.specs.Lists.{mark_at};
ghost use Rattle.vrt_model.specs.declared.ids.Net.{Net as NetValue};

use crate::levels::{level_at, level_of, same_level};
use crate::table::{NetLevels, PortLevels};
use known_nets::no_marks;
use std::alloc::Global;
use vrt_model::{Circuit, Drive, Net, NoMemory};

/// Marks a net.
fn mark(marks: &mut Vec<bool>, net: Net)
    requires { net.0 < length marks.old.items }
    ensures len { length marks.new.items ≡ length marks.old.items }
    ensures is { (n : ℕ) → mark_at marks.new.items n ≡ (mark_at marks.old.items n || net.0 == n) }
{
    marks[net.0 as usize] = true;
}

/// A mark for each of so many nets: whether it is one of these.
pub(crate) fn asked_nets(
    alloc: Global,
    count: usize,
    outputs: &[Net],
) -> Result<Vec<bool>, NoMemory>
    requires { All (λ (n : NetValue). n.0 < count) outputs.now }
    ensures len { IfOk result (λ marks. length marks.items ≡ count) }
    ensures is { IfOk result (λ marks. (n : ℕ) → mark_at marks.items n ≡ is_one_of outputs.now n) }
{
    let mut marks = no_marks(alloc, count)?;
    for net in outputs {
        mark(&mut marks, *net);
    }
    Ok(marks)
}

/// The level in several phases, by that in those before the last and that in the last, which may be the first.
fn joined_level(first: bool, before: Option<u8>, here: Option<u8>) -> Option<u8>
    ensures { result ≡ joined_level first before here }
{
    if first {
        return here;
    }
    same_level(before, here)
}

/// Joins the level of a port in one phase more with that in the phases before.
fn join_level(joined: &mut Vec<Option<u8>>, at: usize, first: bool, here: Option<u8>)
    requires { at < length joined.old.items }
    ensures len { length joined.new.items ≡ length joined.old.items }
    ensures here { level_at joined.new.items at ≡ joined_level first (level_at joined.old.items at) here }
    ensures others { (j : ℕ) → j ≢ at → level_at joined.new.items j ≡ level_at joined.old.items j }
{
    let kept = joined_level(first, level_at(joined.as_slice(), at), here);
    joined[at] = kept;
}

/// Joins the levels of ports at these nets in one phase more with those in the phases before.
fn join_all(
    circuit: &Circuit,
    levels: &NetLevels,
    outputs: &[Net],
    first: bool,
    joined: &mut Vec<Option<u8>>,
)
    requires { length joined.old.items ≡ length outputs.now }
    ensures { AreJoined circuit.now levels.now outputs.now first joined.old.items joined.new.items }
{
    for at in 0..outputs.len() {
        let here = level_of(circuit, levels, outputs[at]);
        join_level(joined, at, first, here);
    }
}

/// Joins the levels of output ports in one phase more, which `net_levels` wrote, with those in the phases before: a port keeps its
/// level where the phase has the same, and else has none. Over all phases this leaves the level that each port's net has in all of
/// them.
pub fn join_levels(circuit: &Circuit, levels: &NetLevels, first: bool, ports: &mut PortLevels)
    requires { length ports.old.levels.items ≡ length ports.old.nets }
    ensures nets { ports.new.nets ≡ ports.old.nets }
    ensures joined { AreJoined circuit.now levels.now ports.old.nets first ports.old.levels.items ports.new.levels.items }
{
    join_all(
        circuit,
        levels,
        ports.nets.as_slice(),
        first,
        &mut ports.levels,
    );
}

/// A level as a drive: soft where there is none.
fn own_drive(level: Option<u8>) -> Drive
    ensures { result ≡ drive_over None level }
{
    match level {
        Some(level) => Drive::Level(level),
        None => Drive::Soft,
    }
}

/// The drive of an output port: soft where it is not alone in all phases; else that of the whole output at its net that meets gates
/// alone, if there is one; else the level that its net has in all phases, and soft where there is none.
pub fn drive_of(lone: bool, whole: Option<Drive>, level: Option<u8>) -> Drive
    ensures { result ≡ drive_by lone whole level }
{
    if !lone {
        return Drive::Soft;
    }
    match whole {
        Some(drive) => drive,
        None => own_drive(level),
    }
}
