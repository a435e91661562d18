//! The devices of a circuit by net: those whose channels end there and those that the net gates; and the nets with holds or
//! outputs of whole instances.

ghost use Rattle.std.specs.Prelude.{◌≡◌, ℕ, ◌<◌, ◌⊎◌, Some, true, length, slice_get, IfOk};
ghost use Rattle.known_nets.specs.Incidence.{AreHeldMarks, AreRootMarks, HasEnds, HasGates, IsIncidence, IsOtherEnd};
ghost use Rattle.known_nets.specs.Wired.{IsWired};
ghost use Rattle.vrt_model.specs.Known.{IsDriven, IsHeld};
ghost use Rattle.vrt_model.specs.Lists.{Among, At, MarksGrow, mark_at};
ghost use Rattle.vrt_model.specs.declared.circuit.Hold.{Hold as HoldValue};
ghost use Rattle.vrt_model.specs.declared.whole.Whole.{Whole as WholeValue};
ghost use Rattle.vrt_model.specs.declared.whole.WholePin.{WholePin as WholePinValue};

use crate::marks::no_marks;
use crate::placing::{lead, no_groups};
use std::alloc::Global;
use vrt_model::{Circuit, Device, NoMemory, Seq, Whole, WholePin};

/// The numbers of the devices whose channels end at each net, and of those that it gates, and which nets have a hold or an
/// output of a whole instance.
pub(crate) struct Incidence {
    pub(crate) ends: Vec<Seq<u32>>,
    pub(crate) gates: Vec<Seq<u32>>,
    pub(crate) rooted: Vec<bool>,
}

/// By hand, so that letting go of one is a call.
impl Drop for Incidence {
    fn drop(self) {
        let Incidence {
            ends: _ends,
            gates: _gates,
            rooted: _rooted,
        } = self;
    }
}

/// The net at the other end of the channel of a device, if it has the net at one.
pub(crate) fn other_end(device: &Device, net: usize) -> Option<usize>
    ensures { IsOtherEnd device.now net result }
{
    let left = device.left.0 as usize;
    let right = device.right.0 as usize;
    if left == net {
        Some(right)
    } else if right == net {
        Some(left)
    } else {
        None
    }
}

/// The numbers of the devices at each net, by their channels.
fn devices_by_end(alloc: Global, circuit: &Circuit) -> Result<Vec<Seq<u32>>, NoMemory>
    ensures len { IfOk result (λ t. length t.items ≡ length circuit.now.nets) }
    ensures ends { IfOk result (λ t. HasEnds circuit.now (length circuit.now.devices) t.items) }
{
    let mut ends = no_groups(alloc, circuit.nets.len())?;
    for (at, device) in circuit.devices.as_slice().iter().enumerate() {
        lead(&mut ends, at, device.left.0 as usize)?;
        lead(&mut ends, at, device.right.0 as usize)?;
    }
    Ok(ends)
}

/// The numbers of the devices that each net gates.
fn devices_by_gate(alloc: Global, circuit: &Circuit) -> Result<Vec<Seq<u32>>, NoMemory>
    ensures len { IfOk result (λ t. length t.items ≡ length circuit.now.nets) }
    ensures gates { IfOk result (λ t. HasGates circuit.now (length circuit.now.devices) t.items) }
{
    let mut gates = no_groups(alloc, circuit.nets.len())?;
    for (at, device) in circuit.devices.as_slice().iter().enumerate() {
        lead(&mut gates, at, device.gate.0 as usize)?;
    }
    Ok(gates)
}

/// Sets a mark.
fn mark(marks: &mut Vec<bool>, at: usize)
    requires { at < length marks.old.items }
    ensures size { length marks.new.items ≡ length marks.old.items }
    ensures grown { MarksGrow marks.old.items marks.new.items }
    ensures marked { mark_at marks.new.items at ≡ true }
    ensures only { (n : ℕ) → mark_at marks.new.items n ≡ true → (mark_at marks.old.items n ≡ true) ⊎ (n ≡ at) }
{
    marks[at] = true;
}

/// Marks the nets of the holds.
fn mark_holds(circuit: &Circuit, marks: &mut Vec<bool>)
    requires wired { IsWired circuit.now }
    requires len { length marks.old.items ≡ length circuit.now.nets }
    ensures size { length marks.new.items ≡ length marks.old.items }
    ensures holds { (at : ℕ) (hold : HoldValue) → At circuit.now.holds at hold → mark_at marks.new.items hold.net.0 ≡ true }
    ensures only { (n : ℕ) → mark_at marks.new.items n ≡ true → (mark_at marks.old.items n ≡ true) ⊎ IsHeld circuit.now n }
{
    for hold in circuit.holds.as_slice() {
        mark(marks, hold.net.0 as usize);
    }
}

/// The pin at a place of a list.
fn pin_at(pins: &[WholePin], at: usize) -> &WholePin
    requires { at < length pins.now }
    ensures { slice_get pins.now at ≡ Some result.now }
{
    &pins[at]
}

/// Marks the nets of the outputs of a whole instance.
fn mark_outputs(whole: &Whole, marks: &mut Vec<bool>)
    requires { (pin : WholePinValue) → Among whole.now.outputs pin → pin.net.0 < length marks.old.items }
    ensures size { length marks.new.items ≡ length marks.old.items }
    ensures grown { MarksGrow marks.old.items marks.new.items }
    ensures pins { (pin : WholePinValue) → Among whole.now.outputs pin → mark_at marks.new.items pin.net.0 ≡ true }
    ensures only { (n : ℕ) → mark_at marks.new.items n ≡ true → (mark_at marks.old.items n ≡ true) ⊎ ((pin : WholePinValue) × Among whole.now.outputs pin × (pin.net.0 ≡ n)) }
{
    let pins = whole.outputs.as_slice();
    for at in 0..pins.len() {
        let pin = pin_at(pins, at);
        mark(marks, pin.net.0 as usize);
    }
}

/// Marks the nets of the outputs of all whole instances.
fn mark_wholes(circuit: &Circuit, marks: &mut Vec<bool>)
    requires wired { IsWired circuit.now }
    requires len { length marks.old.items ≡ length circuit.now.nets }
    ensures grown { MarksGrow marks.old.items marks.new.items }
    ensures pins { (w : WholeValue) (pin : WholePinValue) → Among circuit.now.wholes w → Among w.outputs pin → mark_at marks.new.items pin.net.0 ≡ true }
    ensures only { (n : ℕ) → mark_at marks.new.items n ≡ true → (mark_at marks.old.items n ≡ true) ⊎ IsDriven circuit.now n }
{
    for whole in circuit.wholes.as_slice() {
        mark_outputs(whole, marks);
    }
}

/// The nets with holds, by net.
pub fn held_nets(alloc: Global, circuit: &Circuit) -> Result<Vec<bool>, NoMemory>
    requires { IsWired circuit.now }
    ensures len { IfOk result (λ t. length t.items ≡ length circuit.now.nets) }
    ensures held { IfOk result (λ t. AreHeldMarks circuit.now t.items) }
{
    let mut held = no_marks(alloc, circuit.nets.len())?;
    mark_holds(circuit, &mut held);
    Ok(held)
}

/// The nets with holds or outputs of whole instances, by net.
fn rooted_nets(alloc: Global, circuit: &Circuit) -> Result<Vec<bool>, NoMemory>
    requires { IsWired circuit.now }
    ensures { IfOk result (λ t. AreRootMarks circuit.now t.items) }
{
    let mut rooted = held_nets(alloc, circuit)?;
    mark_wholes(circuit, &mut rooted);
    Ok(rooted)
}

/// The devices of a circuit by net, and its nets with holds or outputs of whole instances.
pub(crate) fn devices_by_net(alloc: Global, circuit: &Circuit) -> Result<Incidence, NoMemory>
    requires { IsWired circuit.now }
    ensures { IfOk result (λ by. IsIncidence circuit.now by) }
{
    Ok(Incidence {
        ends: devices_by_end(alloc, circuit)?,
        gates: devices_by_gate(alloc, circuit)?,
        rooted: rooted_nets(alloc, circuit)?,
    })
}
