//! Parts of one net that nothing drives, as the nets inside whole instances are.

ghost use Rattle.std.specs.Prelude.{◌≡◌, ◌==◌, ◌↔◌, true};
ghost use Rattle.std.specs.List.{list_any};
ghost use Rattle.circuit_faults.specs.Undriven.{IsRootless, UndrivenGives};
ghost use Rattle.vrt_model.specs.State.{output_pins};
ghost use Rattle.vrt_model.specs.declared.circuit.Hold.{Hold as HoldValue};
ghost use Rattle.whole_steps.specs.Tables.{AreDrivers};

use channel_parts::Part;
use known_nets::is_plain;
use vrt_model::{Circuit, Net};
use whole_steps::{WholeTable, driver_of};

/// Whether a hold is at a net.
fn has_hold(circuit: &Circuit, net: Net) -> bool
    ensures { result ≡ list_any (λ (hold : HoldValue). hold.net.0 == net.0) circuit.now.holds }
{
    for hold in circuit.holds.as_slice() {
        if hold.net.0 == net.0 {
            return true;
        }
    }
    false
}

/// Whether a net is plain and no hold and no output of a whole instance is at it, so that no path begins there.
fn is_rootless(circuit: &Circuit, wholes: WholeTable<'_>, net: Net) -> bool
    requires { AreDrivers circuit.now (output_pins circuit.now) wholes.drivers.now }
    ensures { (result ≡ true) ↔ IsRootless circuit.now net.0 }
{
    if !is_plain(circuit, net.0 as usize) {
        return false;
    }
    match driver_of(wholes, net) {
        Some(_) => false,
        None => !has_hold(circuit, net),
    }
}

/// The net of a part that is one net without devices at which no path begins, so that no value reaches it; for other parts none.
pub(crate) fn undriven_net(circuit: &Circuit, wholes: WholeTable<'_>, part: &Part) -> Option<Net>
    requires { AreDrivers circuit.now (output_pins circuit.now) wholes.drivers.now }
    ensures { UndrivenGives circuit.now part.now result }
{
    if part.devices.len() != 0 || part.nets.len() != 1 {
        return None;
    }
    let net = part.nets.as_slice()[0];
    if is_rootless(circuit, wholes, net) {
        Some(net)
    } else {
        None
    }
}
