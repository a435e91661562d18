//! Whether a circuit has no whole instance, and its numbers, levels and sizes in range.

ghost use Rattle.std.specs.Prelude.{◌<◌, ◌↔◌, IsTrue, All, length};
ghost use Rattle.vrt_model.specs.Circuits.{IsDevice, IsEnd, IsHold, IsFlat};

use vrt_model::{Circuit, Device, Hold, HoldEnd, Net};

/// Whether a net is one of the circuit.
fn is_net(circuit: &Circuit, net: Net) -> bool
    ensures { IsTrue result ↔ (net.0 < length circuit.now.nets) }
{
    (net.0 as usize) < circuit.nets.len()
}

/// Whether the nets of a device are in range, and its level is one of devices.
fn is_device(circuit: &Circuit, device: &Device) -> bool
    ensures { IsTrue result ↔ IsDevice circuit.now device.now }
{
    is_net(circuit, device.gate)
        && is_net(circuit, device.left)
        && is_net(circuit, device.right)
        && circuit.least_level() <= device.level
        && device.level < circuit.source_level()
}

/// Whether an end is a net of the circuit, or of an instance of it or the checked cell.
fn is_end(circuit: &Circuit, end: &HoldEnd) -> bool
    ensures { IsTrue result ↔ IsEnd circuit.now end.now }
{
    match end {
        HoldEnd::Own(net) => is_net(circuit, *net),
        HoldEnd::Latch {
            instance: Some(instance),
            ..
        } => (*instance as usize) < circuit.instances.len(),
        HoldEnd::Latch { instance: None, .. } => true,
    }
}

/// Whether the net and the end of a hold are in range, and its size is one of holds.
fn is_hold(circuit: &Circuit, hold: &Hold) -> bool
    ensures { IsTrue result ↔ IsHold circuit.now hold.now }
{
    is_net(circuit, hold.net)
        && 1 <= hold.size
        && hold.size < circuit.least_level()
        && is_end(circuit, &hold.end)
}

/// Whether the nets and levels of all devices are in range.
fn has_devices(circuit: &Circuit) -> bool
    ensures { IsTrue result ↔ All (IsDevice circuit.now) circuit.now.devices }
{
    let mut devices = circuit.devices.as_slice().iter();
    devices.all(|device| is_device(circuit, device))
}

/// Whether the nets, ends and sizes of all holds are in range.
fn has_holds(circuit: &Circuit) -> bool
    ensures { IsTrue result ↔ All (IsHold circuit.now) circuit.now.holds }
{
    let mut holds = circuit.holds.as_slice().iter();
    holds.all(|hold| is_hold(circuit, hold))
}

/// Whether the circuit has no whole instance, its numbers of nets are in range, and its levels and sizes are: what
/// `signals_at` asks. A flat circuit of a netlist within the limits is so.
pub fn is_flat(circuit: &Circuit) -> bool
    ensures { IsTrue result ↔ IsFlat circuit.now }
{
    circuit.wholes.is_empty() && has_devices(circuit) && has_holds(circuit)
}
