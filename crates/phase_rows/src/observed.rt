//! Which nets are observed: the gates of all devices, the ports of all instances, and nets that a line names.

ghost use Rattle.std.specs.Prelude.{◌≡◌, All, IsTrue, true};
ghost use Rattle.phase_rows.specs.Observing.{IsObserving, IsSeen};
ghost use Rattle.vrt_model.specs.Lists.{mark_at};
ghost use Rattle.vrt_model.specs.declared.circuit.Device.{Device as DeviceValue};
ghost use Rattle.vrt_model.specs.declared.ids.Net.{Net as NetValue};

use crate::checks::is_tied;
use crate::drawing::net_of;
use crate::stop::Stop;
use known_nets::{is_marked, no_marks};
use std::alloc::Global;
use vrt_model::{Circuit, Design, Net};

/// Marks a net.
fn mark(marks: &mut Vec<bool>, net: Net) {
    let at = net.0 as usize;
    if at < marks.len() {
        marks[at] = true;
    }
}

/// Marks nets.
fn mark_all(marks: &mut Vec<bool>, nets: &[Net]) {
    for net in nets {
        mark(marks, *net);
    }
}

/// Marks the nets of these names.
fn mark_named(marks: &mut Vec<bool>, circuit: &Circuit, names: &str) -> Result<(), Stop> {
    for name in names.split_whitespace() {
        mark(marks, net_of(circuit, name)?);
    }
    Ok(())
}

/// Whether each net is observed: the gates of devices are, the ports of instances, and the nets of these names.
pub(crate) fn observed_nets(
    alloc: Global,
    circuit: &Circuit,
    names: &str,
) -> Result<Vec<bool>, Stop> {
    let mut marks = no_marks(alloc, circuit.nets.len())?;
    for device in circuit.devices.as_slice() {
        mark(&mut marks, device.gate);
    }
    for instance in circuit.instances.as_slice() {
        mark_all(&mut marks, instance.ports.as_slice());
    }
    mark_named(&mut marks, circuit, names)?;
    Ok(marks)
}

/// Whether the gates of all devices are marked.
fn has_gates(circuit: &Circuit, marks: &[bool]) -> bool
    ensures { IsTrue result → All (λ (d : DeviceValue). mark_at marks.now d.gate.0 ≡ true) circuit.now.devices }
{
    let mut devices = circuit.devices.as_slice().iter();
    devices.all(|device| is_marked(marks, device.gate.0 as usize))
}

/// Whether nets are marked.
fn are_marked(nets: &[Net], marks: &[bool]) -> bool
    ensures { IsTrue result → All (λ (net : NetValue). mark_at marks.now net.0 ≡ true) nets.now }
{
    nets.iter().all(|net| is_marked(marks, net.0 as usize))
}

/// Whether each instance is of a cell of the netlist, and has a marked net for each of its ports.
fn are_seen(design: &Design, circuit: &Circuit, marks: &[bool]) -> bool
    ensures { IsTrue result → All (IsSeen design.now marks.now) circuit.now.instances }
{
    let mut instances = circuit.instances.as_slice().iter();
    instances.all(|instance| {
        is_tied(design, instance) && are_marked(instance.ports.as_slice(), marks)
    })
}

/// Whether there is a mark for each net, and the gates of devices and the ports of instances are marked.
pub(crate) fn is_observing(design: &Design, circuit: &Circuit, marks: &[bool]) -> bool
    ensures { IsTrue result → IsObserving design.now circuit.now marks.now }
{
    let count = marks.len();
    let nets = circuit.nets.len();
    if count != nets {
        return false;
    }
    if !has_gates(circuit, marks) {
        return false;
    }
    are_seen(design, circuit, marks)
}
