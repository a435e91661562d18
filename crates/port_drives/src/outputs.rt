//! The drives of whole outputs that meet gates alone.

ghost use Rattle.std.specs.Prelude.{◌≡◌, ◌++◌, ◌||◌, ◌==◌, ◌<◌, IfOk, OnOk, flat_map, length, slice_get, unwrap_or};
ghost use Rattle.port_drives.specs.Outputs.{is_at, meets_channel, one_drive, told_of, told_pin, whole_drive};
ghost use Rattle.vrt_model.specs.WholeInstances.{drive_in};
ghost use Rattle.vrt_model.specs.Lists.{At};
ghost use Rattle.vrt_model.specs.declared.whole.Drive.TheVariants.{Soft};
ghost use Rattle.vrt_model.specs.declared.whole.WholePin.{WholePin as PinValue};

use std::alloc::Global;
use vrt_model::{CellFacts, Circuit, Device, Drive, Net, NoMemory, Seq, Whole, WholePin};

/// An output of a whole instance: its net, and what the facts of its cell say of its drive.
#[derive(Clone, Copy)]
pub struct ToldOutput {
    /// The net at the output.
    pub net: Net,
    /// Its drive in the facts.
    pub drive: Drive,
}

/// The drive of the output at a place, where the facts of its cell have one.
fn drive_at(known: &CellFacts, place: usize) -> Drive
    ensures { result ≡ unwrap_or (slice_get known.now.drives place) Soft }
{
    match known.drives.get(place) {
        Some(drive) => *drive,
        None => Drive::Soft,
    }
}

/// The drive of the output of a cell at a place, soft where nothing is said of it.
fn drive_in(facts: &[CellFacts], cell: u32, place: usize) -> Drive
    ensures { result ≡ drive_in facts.now cell place }
{
    match facts.get(cell as usize) {
        Some(known) => drive_at(known, place),
        None => Drive::Soft,
    }
}

/// An output pin at a place of an instance of a cell, with its drive in the facts.
fn told_pin(facts: &[CellFacts], cell: u32, place: usize, pin: WholePin) -> ToldOutput
    ensures { result ≡ told_pin facts.now cell (place, pin) }
{
    ToldOutput {
        net: pin.net,
        drive: drive_in(facts, cell, place),
    }
}

/// The output pin at a place of an instance, with its drive in the facts.
fn told_at(facts: &[CellFacts], cell: u32, place: usize, outputs: &[WholePin]) -> ToldOutput
    requires { place < length outputs.now }
    ensures { (pin : PinValue) → At outputs.now place pin → result ≡ told_pin facts.now cell (place, pin) }
{
    told_pin(facts, cell, place, outputs[place])
}

/// Adds the outputs of a whole instance.
fn add_outputs(
    told: &mut Seq<ToldOutput>,
    facts: &[CellFacts],
    whole: &Whole,
) -> Result<(), NoMemory>
    ensures { OnOk result (told.new ≡ told.old ++ told_of facts.now whole.now) }
{
    let outputs = whole.outputs.as_slice();
    for place in 0..outputs.len() {
        told.append(told_at(facts, whole.cell, place, outputs))?;
    }
    Ok(())
}

/// The outputs of all whole instances of a circuit, instance by instance.
pub fn told_outputs(
    alloc: Global,
    circuit: &Circuit,
    facts: &[CellFacts],
) -> Result<Seq<ToldOutput>, NoMemory>
    ensures { IfOk result (λ told. told ≡ flat_map (told_of facts.now) circuit.now.wholes) }
{
    let mut told = Seq::new(alloc);
    for whole in circuit.wholes.as_slice() {
        add_outputs(&mut told, facts, whole)?;
    }
    Ok(told)
}

/// Whether the channel of a device ends at a net.
fn ends_at(device: &Device, net: Net) -> bool
    ensures { result ≡ (device.now.left.0 == net.0 || device.now.right.0 == net.0) }
{
    if device.left.0 == net.0 {
        return true;
    }
    device.right.0 == net.0
}

/// Whether the channel of one of some devices ends at a net.
fn meets_channel(devices: &[Device], net: Net) -> bool
    ensures { result ≡ meets_channel devices.now net.0 }
{
    devices.iter().any(|device| ends_at(device, net))
}

/// Whether an output is at a net.
fn is_at(output: ToldOutput, net: Net) -> bool
    ensures { result ≡ is_at net.0 output }
{
    output.net.0 == net.0
}

/// The drive of the one output at a net; none where there is none or more than one.
fn one_drive(told: &[ToldOutput], net: Net) -> Option<Drive>
    ensures { result ≡ one_drive told.now net.0 }
{
    let mut found: Option<Drive> = None;
    let mut rest = told;
    'outputs: while let Some((output, behind)) = rest.split_first() {
        if is_at(*output, net) {
            match found {
                Some(_) => return None,
                None => found = Some(output.drive),
            }
        }
        rest = behind;
    }
    found
}

/// The drive of the whole output at a net of a circuit, if there is one that meets gates alone: no channel ends at the net, and no
/// other whole output is there. `told` are the outputs of the circuit's whole instances.
pub fn whole_drive(circuit: &Circuit, told: &[ToldOutput], net: Net) -> Option<Drive>
    ensures { result ≡ whole_drive circuit.now told.now net.0 }
{
    if meets_channel(circuit.devices.as_slice(), net) {
        return None;
    }
    one_drive(told, net)
}
