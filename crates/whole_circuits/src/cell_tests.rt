//! What is asked of a cell whose instances may be left whole.

ghost use Rattle.std.specs.Prelude.{◌≡◌, ◌||◌, ◌==◌, map, true};
ghost use Rattle.std.specs.List.{list_all};
ghost use Rattle.net_places.specs.Links.{IsUnrolled};
ghost use Rattle.phase_ports.specs.Ports.{unnamed};
ghost use Rattle.whole_circuits.specs.CellTests.{ends_at, is_port_free, is_zero_at};
ghost use Rattle.whole_circuits.specs.Outputs.{meets};
ghost use Rattle.vrt_model.specs.Checked.{keeps_inputs_free as keeps_free, may_meet_channels, names_no_global as names_none};
ghost use Rattle.vrt_model.specs.Comparison.{Comparison, ports_of};
ghost use Rattle.vrt_model.specs.Unrolled.{Top};

use net_places::Unrolled;
use phase_ports::Port;
use vrt_model::{Circuit, Design, Device, Net, PortRole};

/// Whether the channel of a device ends at a net.
fn ends_at(device: &Device, net: u32) -> bool
    ensures { result ≡ ends_at net device.now }
{
    let left = device.left.0 == net;
    let right = device.right.0 == net;
    left || right
}

/// Whether the channel of one of some devices ends at a net.
fn meets(devices: &[Device], net: u32) -> bool
    ensures { result ≡ meets devices.now net }
{
    let mut rest = devices;
    'devices: while let Some((device, behind)) = rest.split_first() {
        if ends_at(device, net) {
            return true;
        }
        rest = behind;
    }
    false
}

/// Whether channels of the cell may meet the net of a port of a role.
fn may_meet_channels(role: PortRole) -> bool
    ensures { result ≡ may_meet_channels role }
{
    match role {
        PortRole::Supply(_) => true,
        PortRole::Clock(_) => false,
        PortRole::Input(_) => false,
        PortRole::Output(_) => true,
    }
}

/// Whether no channel meets a port, or one may.
fn is_port_free(devices: &[Device], port: Port) -> bool
    ensures { result ≡ is_port_free devices.now port }
{
    let may = may_meet_channels(port.role);
    let met = meets(devices, port.net);
    may || !met
}

/// Whether each port is so.
fn are_ports_free(devices: &[Device], ports: &[Port]) -> bool
    ensures { result ≡ list_all (is_port_free devices.now) ports.now }
{
    let mut rest = ports;
    'ports: while let Some((port, behind)) = rest.split_first() {
        if !is_port_free(devices, *port) {
            return false;
        }
        rest = behind;
    }
    true
}

/// Whether no channel of a cell meets an input or a clock port, by the flat circuit of the cell and its ports.
pub fn keeps_inputs_free(circuit: &Circuit, ports: &[Port]) -> bool
    ensures { (k : Comparison) → k.circuit ≡ circuit.now → ports.now ≡ map unnamed (ports_of k) → result ≡ keeps_free k }
{
    are_ports_free(circuit.devices.as_slice(), ports)
}

/// Whether the net at a place is supply 0, or there is none.
fn is_zero_at(nets: &[Net], at: usize) -> bool
    ensures { result ≡ is_zero_at nets.now at }
{
    match nets.get(at) {
        Some(net) => net.0 == 0,
        None => true,
    }
}

/// Whether a cell and the cells in it name no global net, by all its places.
pub fn names_no_global(design: &Design, unrolled: &Unrolled) -> bool
    ensures { (t : Top) → t.design ≡ design.now → IsUnrolled t unrolled.now → result ≡ names_none t t.cell }
{
    let nets = unrolled.globals.as_slice();
    for at in 0..design.globals.len() {
        if !is_zero_at(nets, at) {
            return false;
        }
    }
    true
}
