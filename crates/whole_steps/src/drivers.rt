//! The outputs of whole instances, by the nets at which they are.

ghost use Rattle.std.specs.Prelude.{◌≡◌, ◌≢◌, ℕ, ◌+◌, ◌<◌, ◌≤◌, Some, None, false, true, length, replicate, IfOk, OnOk};
ghost use Rattle.vrt_model.specs.Lists.{At, MarksGrow, mark_at};
ghost use Rattle.vrt_model.specs.Networks.{HasRanges};
ghost use Rattle.vrt_model.specs.State.{output_pins};
ghost use Rattle.vrt_model.specs.declared.whole.Drive.TheVariants.{Soft};
ghost use Rattle.whole_steps.specs.Tables.{AreDrivers, AreMet, AreNoted, driver_at, outputs_before};

use crate::table::{OutputPlace, pin_at};
use std::alloc::Global;
use vrt_model::{Circuit, Drive, Net, NoMemory, Whole, WholePin};

/// A mark for each net, none set.
fn no_marks(alloc: Global, count: usize) -> Result<Vec<bool>, NoMemory>
    ensures { IfOk result (λ t. t.items ≡ replicate count false) }
{
    match vec![in alloc; false; count] {
        Ok(marks) => Ok(marks),
        Err(_) => Err(NoMemory),
    }
}

/// Marks a net.
fn mark(met: &mut Vec<bool>, net: Net)
    requires { net.0 < length met.old.items }
    ensures len { length met.new.items ≡ length met.old.items }
    ensures here { mark_at met.new.items net.0 ≡ true }
    ensures grows { MarksGrow met.old.items met.new.items }
{
    met[net.0 as usize] = true;
}

/// For each net whether the channel of a device meets it.
fn met_nets(alloc: Global, circuit: &Circuit) -> Result<Vec<bool>, NoMemory>
    requires circuit { HasRanges circuit.now }
    ensures { IfOk result (λ t. AreMet circuit.now (length circuit.now.devices) t.items) }
{
    let mut met = no_marks(alloc, circuit.nets.len())?;
    let devices = circuit.devices.as_slice();
    for number in 0..devices.len() {
        mark(&mut met, devices[number].left);
        mark(&mut met, devices[number].right);
    }
    Ok(met)
}

/// A table with nothing for each net.
fn no_drivers(alloc: Global, count: usize) -> Result<Vec<Option<OutputPlace>>, NoMemory>
    ensures { IfOk result (λ t. t.items ≡ replicate count None) }
{
    match vec![in alloc; None; count] {
        Ok(drivers) => Ok(drivers),
        Err(_) => Err(NoMemory),
    }
}

/// Notes an output at its net, and behind all what was noted there before.
fn note(
    drivers: &mut Vec<Option<OutputPlace>>,
    net: Net,
    place: OutputPlace,
) -> Result<(), NoMemory>
    requires { net.0 < length drivers.old.items }
    ensures len { OnOk result (length drivers.new.items ≡ length drivers.old.items + 1) }
    ensures here { OnOk result (driver_at drivers.new.items net.0 ≡ Some place) }
    ensures last { OnOk result (driver_at drivers.new.items (length drivers.old.items) ≡ driver_at drivers.old.items net.0) }
    ensures others { OnOk result ((n : ℕ) → n < length drivers.old.items → n ≢ net.0 → driver_at drivers.new.items n ≡ driver_at drivers.old.items n) }
{
    let earlier = drivers[net.0 as usize];
    match drivers.push(earlier) {
        Ok(()) => {}
        Err(_) => return Err(NoMemory),
    }
    drivers[net.0 as usize] = Some(place);
    Ok(())
}

/// Whether an output is soft, no channel meets its net, and nothing was noted there.
fn is_free(pin: WholePin, met: &[bool], earlier: Option<OutputPlace>) -> bool
    requires { pin.net.0 < length met.now }
    ensures soft { result ≡ true → pin.drive ≡ Soft }
    ensures met { result ≡ true → mark_at met.now pin.net.0 ≡ false }
    ensures first { result ≡ true → earlier ≡ None }
{
    if met[pin.net.0 as usize] || earlier.is_some() {
        return false;
    }
    match pin.drive {
        Drive::Soft => true,
        Drive::Level(_) => false,
    }
}

/// Where an output stands that is to be noted next in a table of outputs.
fn place_of(
    drivers: &[Option<OutputPlace>],
    nets: usize,
    met: &[bool],
    whole: usize,
    output: usize,
    pin: WholePin,
) -> OutputPlace
    requires nets { nets ≤ length drivers.now }
    requires net { (pin.net.0 < length met.now) × (pin.net.0 < length drivers.now) }
    ensures place { (result.whole ≡ whole) × (result.output ≡ output) }
    ensures number { nets + result.number ≡ length drivers.entry.now }
    ensures soft { result.free ≡ true → pin.drive ≡ Soft }
    ensures met { result.free ≡ true → mark_at met.entry.now pin.net.0 ≡ false }
    ensures first { result.free ≡ true → driver_at drivers.entry.now pin.net.0 ≡ None }
{
    let earlier = drivers[pin.net.0 as usize];
    OutputPlace {
        whole,
        output,
        number: drivers.len() - nets,
        free: is_free(pin, met, earlier),
    }
}

/// Notes the outputs of a whole instance.
fn note_outputs(
    drivers: &mut Vec<Option<OutputPlace>>,
    circuit: &Circuit,
    met: &[bool],
    number: usize,
    whole: &Whole,
) -> Result<(), NoMemory>
    requires circuit { HasRanges circuit.now }
    requires met { AreMet circuit.now (length circuit.now.devices) met.now }
    requires there { At circuit.now.wholes number whole.now }
    requires before { AreNoted circuit.now (outputs_before circuit.now number) drivers.old.items }
    ensures { OnOk result (AreNoted circuit.now (outputs_before circuit.now (number + 1)) drivers.new.items) }
{
    for output in 0..whole.outputs.len() {
        let pin = pin_at(whole, output);
        let place = place_of(
            drivers.as_slice(),
            circuit.nets.len(),
            met,
            number,
            output,
            pin,
        );
        note(drivers, pin.net, place)?;
    }
    Ok(())
}

/// For each net of a circuit the last output of a whole instance at it, if there is one, and behind the nets for each output the last
/// before it at its net. An output that is soft, and alone at a net that no channel meets, is marked as free.
pub fn output_drivers(
    alloc: Global,
    circuit: &Circuit,
) -> Result<Vec<Option<OutputPlace>>, NoMemory>
    requires circuit { HasRanges circuit.now }
    ensures { IfOk result (λ t. AreDrivers circuit.now (output_pins circuit.now) t.items) }
{
    let met = met_nets(alloc, circuit)?;
    let mut drivers = no_drivers(alloc, circuit.nets.len())?;
    let wholes = circuit.wholes.as_slice();
    for number in 0..wholes.len() {
        note_outputs(
            &mut drivers,
            circuit,
            met.as_slice(),
            number,
            &wholes[number],
        )?;
    }
    Ok(drivers)
}
