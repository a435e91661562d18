//! The class of a part, by its devices and nets.

ghost use Rattle.std.specs.Prelude.{◌≡◌};
ghost use Rattle.channel_parts.specs.Classes.{pulled_to};
ghost use Rattle.channel_parts.specs.ClassTests.{class_by, device_at, first_net, has_hold, has_input, has_stage, is_between, is_stage, line_by, meets_input};

use crate::class::{Class, ClassLine};
use crate::net_kinds::{is_stored, is_supply};
use crate::part::Part;
use crate::switching::is_switched;
use known_nets::{is_input, is_marked};
use vrt_model::{Circuit, Dev, Device, Kind, Net, Seq};

/// The value of the supply to which devices of a kind pull.
fn pulled_to(kind: Kind) -> bool
    ensures { result ≡ pulled_to kind }
{
    match kind {
        Kind::N => false,
        Kind::P => true,
    }
}

/// Whether one net is plain with a hold, and the other a supply of this value.
fn is_between(circuit: &Circuit, held: &[bool], value: bool, net: usize, supply: usize) -> bool
    ensures { result ≡ is_between circuit.now held.now value net supply }
{
    is_stored(circuit, held, net) && is_supply(circuit, supply, value)
}

/// Whether a device joins a hold net to the supply to which it pulls, and the clocks switch its gate.
fn is_stage(circuit: &Circuit, held: &[bool], tables: &[Seq<Option<bool>>], device: &Device) -> bool
    ensures { result ≡ is_stage circuit.now held.now tables.now device.now }
{
    let value = pulled_to(device.kind);
    let left = device.left.0 as usize;
    let right = device.right.0 as usize;
    let forth = is_between(circuit, held, value, left, right);
    let joins = forth || is_between(circuit, held, value, right, left);
    joins && is_switched(tables, device.gate.0 as usize)
}

/// Whether the device of a number is so.
fn is_stage_at(circuit: &Circuit, held: &[bool], tables: &[Seq<Option<bool>>], device: Dev) -> bool
    ensures { result ≡ device_at (is_stage circuit.now held.now tables.now) circuit.now device.0 }
{
    match circuit.devices.get(device.0 as usize) {
        Some(device) => is_stage(circuit, held, tables, device),
        None => false,
    }
}

/// Whether some device is so.
fn has_stage(
    circuit: &Circuit,
    held: &[bool],
    tables: &[Seq<Option<bool>>],
    devices: &[Dev],
) -> bool
    ensures { result ≡ has_stage circuit.now held.now tables.now devices.now }
{
    devices
        .iter()
        .any(|device| is_stage_at(circuit, held, tables, *device))
}

/// Whether the channel of a device meets an input.
fn meets_input(circuit: &Circuit, device: &Device) -> bool
    ensures { result ≡ meets_input circuit.now device.now }
{
    is_input(circuit, device.left.0 as usize) || is_input(circuit, device.right.0 as usize)
}

/// Whether that of the device of a number does.
fn meets_input_at(circuit: &Circuit, device: Dev) -> bool
    ensures { result ≡ device_at (meets_input circuit.now) circuit.now device.0 }
{
    match circuit.devices.get(device.0 as usize) {
        Some(device) => meets_input(circuit, device),
        None => false,
    }
}

/// Whether that of some device does.
fn has_input(circuit: &Circuit, devices: &[Dev]) -> bool
    ensures { result ≡ has_input circuit.now devices.now }
{
    devices
        .iter()
        .any(|device| meets_input_at(circuit, *device))
}

/// Whether some net has a hold.
fn has_hold(held: &[bool], nets: &[Net]) -> bool
    ensures { result ≡ has_hold held.now nets.now }
{
    nets.iter().any(|net| is_marked(held, net.0 as usize))
}

/// The class of a part.
fn class_of(circuit: &Circuit, held: &[bool], tables: &[Seq<Option<bool>>], part: &Part) -> Class
    ensures { result ≡ class_by circuit.now held.now tables.now part.now }
{
    let devices = part.devices.as_slice();
    if has_stage(circuit, held, tables, devices) {
        return Class::Domino;
    }
    if has_input(circuit, devices) || has_hold(held, part.nets.as_slice()) {
        Class::Pass
    } else {
        Class::Static
    }
}

/// The first net of a part. A part has a net.
fn first_net(nets: &Seq<Net>) -> Net
    ensures { result ≡ first_net nets.now }
{
    match nets.get(0) {
        Some(net) => *net,
        None => Net(0),
    }
}

/// The line of a part.
pub(crate) fn line_of(
    circuit: &Circuit,
    held: &[bool],
    tables: &[Seq<Option<bool>>],
    part: &Part,
) -> ClassLine
    ensures { result ≡ line_by circuit.now held.now tables.now part.now }
{
    ClassLine {
        net: first_net(&part.nets),
        class: class_of(circuit, held, tables, part),
    }
}
