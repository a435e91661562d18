//! Marks of nets.

ghost use Rattle.std.specs.Prelude.{◌≡◌, ◌<◌, ◌||◌, ◌&&◌, ◌==◌, ℕ, All, IfOk, false, length, replicate};
ghost use Rattle.phase_ports.specs.Observed.{has_gate, has_hold, has_net, has_pin, has_wish, has_whole, IsPinWithin};
ghost use Rattle.vrt_model.specs.Lists.{mark_at};
ghost use Rattle.phase_wishes.specs.declared.wishes.Wish.{Wish as WishValue};
ghost use Rattle.vrt_model.specs.declared.circuit.Device.{Device as DeviceValue};
ghost use Rattle.vrt_model.specs.declared.circuit.Hold.{Hold as HoldValue};
ghost use Rattle.vrt_model.specs.declared.ids.Net.{Net as NetValue};
ghost use Rattle.vrt_model.specs.declared.whole.Whole.{Whole as WholeValue};

use phase_wishes::Wish;
use std::alloc::Global;
use vrt_model::{Device, Hold, Net, NoMemory, Whole, WholePin};

/// No mark yet.
pub(crate) fn no_marks(alloc: Global, count: usize) -> Result<Vec<bool>, NoMemory>
    ensures { IfOk result (λ marks. marks.items ≡ replicate count false) }
{
    match vec![in alloc; false; count] {
        Ok(marks) => Ok(marks),
        Err(_) => Err(NoMemory),
    }
}

/// Marks a net.
fn mark(marks: &mut Vec<bool>, net: Net)
    requires { net.0 < length marks.old.items }
    ensures len { length marks.new.items ≡ length marks.old.items }
    ensures is { (n : ℕ) → mark_at marks.new.items n ≡ (mark_at marks.old.items n || net.0 == n) }
{
    marks[net.0 as usize] = true;
}

/// Marks the gates of devices.
pub(crate) fn mark_gates(marks: &mut Vec<bool>, devices: &[Device])
    requires { All (λ (d : DeviceValue). d.gate.0 < length marks.old.items) devices.now }
    ensures len { length marks.new.items ≡ length marks.old.items }
    ensures is { (n : ℕ) → mark_at marks.new.items n ≡ (mark_at marks.old.items n || has_gate devices.now n) }
{
    for device in devices {
        mark(marks, device.gate);
    }
}

/// Marks the nets of holds.
pub(crate) fn mark_holds(marks: &mut Vec<bool>, holds: &[Hold])
    requires { All (λ (h : HoldValue). h.net.0 < length marks.old.items) holds.now }
    ensures len { length marks.new.items ≡ length marks.old.items }
    ensures is { (n : ℕ) → mark_at marks.new.items n ≡ (mark_at marks.old.items n || has_hold holds.now n) }
{
    for hold in holds {
        mark(marks, hold.net);
    }
}

/// Marks the nets of wishes.
pub(crate) fn mark_wishes(marks: &mut Vec<bool>, wishes: &[Wish])
    requires { All (λ (w : WishValue). w.net.0 < length marks.old.items) wishes.now }
    ensures len { length marks.new.items ≡ length marks.old.items }
    ensures is { (n : ℕ) → mark_at marks.new.items n ≡ (mark_at marks.old.items n || has_wish wishes.now n) }
{
    for wish in wishes {
        mark(marks, wish.net);
    }
}

/// Marks nets.
pub(crate) fn mark_nets(marks: &mut Vec<bool>, nets: &[Net])
    requires { All (λ (m : NetValue). m.0 < length marks.old.items) nets.now }
    ensures len { length marks.new.items ≡ length marks.old.items }
    ensures is { (n : ℕ) → mark_at marks.new.items n ≡ (mark_at marks.old.items n || has_net nets.now n) }
{
    for net in nets {
        mark(marks, *net);
    }
}

/// Marks the net of a pin that is observed inside.
fn mark_pin(marks: &mut Vec<bool>, pin: WholePin)
    requires { pin.net.0 < length marks.old.items }
    ensures len { length marks.new.items ≡ length marks.old.items }
    ensures is { (n : ℕ) → mark_at marks.new.items n ≡ (mark_at marks.old.items n || (pin.observed && pin.net.0 == n)) }
{
    if pin.observed {
        mark(marks, pin.net);
    }
}

/// Marks the nets of the pins that are observed inside.
fn mark_pins(marks: &mut Vec<bool>, pins: &[WholePin])
    requires { All (IsPinWithin (length marks.old.items)) pins.now }
    ensures len { length marks.new.items ≡ length marks.old.items }
    ensures is { (n : ℕ) → mark_at marks.new.items n ≡ (mark_at marks.old.items n || has_pin pins.now n) }
{
    for pin in pins {
        mark_pin(marks, *pin);
    }
}

/// Marks the nets at those inputs of whole instances that are observed inside.
pub(crate) fn mark_wholes(marks: &mut Vec<bool>, wholes: &[Whole])
    requires { All (λ (w : WholeValue). All (IsPinWithin (length marks.old.items)) w.inputs) wholes.now }
    ensures len { length marks.new.items ≡ length marks.old.items }
    ensures is { (n : ℕ) → mark_at marks.new.items n ≡ (mark_at marks.old.items n || has_whole wholes.now n) }
{
    for whole in wholes {
        mark_pins(marks, whole.inputs.as_slice());
    }
}
