//! The holds of a flat circuit where some of its instances are left whole: the latch elements at their ends are of instances
//! that have other numbers then.

ghost use Rattle.std.specs.Prelude.{◌≡◌, ◌+◌, ◌++◌, ◌∷◌, [], All, IfOk, OnOk, cond, map, option_map};
ghost use Rattle.whole_circuits.specs.MovedHolds.{AreMoved, end_by, hold_by, moved_by, number_by};
ghost use Rattle.whole_circuits.specs.Shown.{AreMarks};
ghost use Rattle.vrt_model.specs.CheckedParts.{checked_holds};
ghost use Rattle.vrt_model.specs.Circuits.{IsHold};
ghost use Rattle.vrt_model.specs.Cut.{Cut};
ghost use Rattle.vrt_model.specs.FlatCircuit.{flat_holds, flat_instances};

use crate::copies::copy_items;
use crate::marks::Marks;
use std::alloc::Global;
use vrt_model::{Circuit, Hold, HoldEnd, NoMemory, Seq, Text};

/// Adds a number at the end.
fn add(numbers: &mut Vec<u32>, number: u32) -> Result<(), NoMemory>
    ensures { OnOk result (numbers.new.items ≡ numbers.old.items ++ number ∷ []) }
{
    match numbers.push(number) {
        Ok(()) => Ok(()),
        Err(_) => Err(NoMemory),
    }
}

/// The number of the next instance that is shown, behind one with this number.
fn next_number(number: u32, inside: bool) -> Result<u32, NoMemory>
    ensures { IfOk result (λ next. next ≡ cond inside number (number + 1)) }
{
    if inside {
        return Ok(number);
    }
    match number.checked_add(1) {
        Some(next) => Ok(next),
        None => Err(NoMemory),
    }
}

/// How many of the places before each have no mark.
fn moved_by(alloc: Global, inside: &[bool]) -> Result<Vec<u32>, NoMemory>
    ensures { IfOk result (λ moved. moved.items ≡ moved_by 0 inside.now) }
{
    let mut moved = Vec::new(alloc);
    let mut number = 0;
    let mut rest = inside;
    'places: while let Some((mark, behind)) = rest.split_first() {
        add(&mut moved, number)?;
        number = next_number(number, *mark)?;
        rest = behind;
    }
    Ok(moved)
}

/// For each instance of the flat circuit how many before it are not inside whole ones.
fn moved_numbers(alloc: Global, marks: &Marks) -> Result<Vec<u32>, NoMemory>
    ensures { IfOk result (λ moved. (cut : Cut) → AreMarks cut marks.now → AreMoved cut moved.items) }
{
    match marks.inside.as_slice().split_first() {
        Some((_, inside)) => moved_by(alloc, inside),
        None => moved_by(alloc, &[]),
    }
}

/// The number of an instance in a table, 0 past its end.
fn number_by(moved: &[u32], instance: u32) -> u32
    ensures { result ≡ number_by moved.now instance }
{
    match moved.get(instance as usize) {
        Some(number) => *number,
        None => 0,
    }
}

/// The number of an instance that may be none.
fn some_number(moved: &[u32], instance: Option<u32>) -> Option<u32>
    ensures { result ≡ option_map (number_by moved.now) instance }
{
    match instance {
        Some(instance) => Some(number_by(moved, instance)),
        None => None,
    }
}

/// The end of a hold, with the number of its instance by a table.
fn end_by(alloc: Global, moved: &[u32], end: &HoldEnd) -> Result<HoldEnd, NoMemory>
    ensures { IfOk result (λ e. e ≡ end_by moved.now end.now) }
{
    match end {
        HoldEnd::Own(net) => Ok(HoldEnd::Own(*net)),
        HoldEnd::Latch { instance, element } => {
            let instance = some_number(moved, *instance);
            let element = Text::from_bytes(alloc, element.as_bytes())?;
            Ok(HoldEnd::Latch { instance, element })
        }
    }
}

/// A hold, with the number of the instance at its end by a table.
fn hold_by(alloc: Global, moved: &[u32], hold: &Hold) -> Result<Hold, NoMemory>
    ensures { IfOk result (λ h. h ≡ hold_by moved.now hold.now) }
{
    let end = end_by(alloc, moved, &hold.end)?;
    let enters = copy_items(alloc, hold.enters.as_slice())?;
    Ok(Hold {
        net: hold.net,
        size: hold.size,
        end,
        inverted: hold.inverted,
        enters,
    })
}

/// Holds, with the numbers of the instances at their ends by a table.
fn holds_by(alloc: Global, moved: &[u32], holds: &[Hold]) -> Result<Seq<Hold>, NoMemory>
    ensures { IfOk result (λ hs. hs ≡ map (hold_by moved.now) holds.now) }
{
    let mut found = Seq::new(alloc);
    for hold in holds {
        let hold = hold_by(alloc, moved, hold)?;
        found.append(hold)?;
    }
    Ok(found)
}

/// The holds of the flat circuit, with the instances at their ends numbered among those that are not inside whole ones.
pub fn moved_holds(alloc: Global, marks: &Marks, circuit: &Circuit) -> Result<Seq<Hold>, NoMemory>
    requires { All (IsHold circuit.now) circuit.now.holds }
    ensures { IfOk result (λ holds. (cut : Cut) → AreMarks cut marks.now → circuit.now.instances ≡ flat_instances cut.top → circuit.now.holds ≡ flat_holds cut.top → holds ≡ checked_holds cut) }
{
    let moved = moved_numbers(alloc, marks)?;
    holds_by(alloc, moved.as_slice(), circuit.holds.as_slice())
}
