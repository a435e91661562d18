//! The nets with outputs of whole instances.

ghost use Rattle.std.specs.Prelude.{◌≡◌, ◌<◌, ◌&&◌, ◌||◌, ◌==◌, ℕ, All, length};
ghost use Rattle.vrt_model.specs.Lists.{mark_at};
ghost use Rattle.vrt_model.specs.declared.whole.Drive.{Drive as DriveValue};
ghost use Rattle.vrt_model.specs.declared.whole.WholePin.{WholePin as PinValue};
ghost use Rattle.whole_circuits.specs.Taken.{admits, taken_at};
ghost use Rattle.substitute.specs.Taken.{TakesPins, may_meet_pin};

use vrt_model::WholePin;
use whole_circuits::{Taken, joined, taken_at};

/// Marks a number, as that of a place.
pub(crate) fn mark(marks: &mut Vec<bool>, at: usize)
    requires { at < length marks.old.items }
    ensures len { length marks.new.items ≡ length marks.old.items }
    ensures is { (n : ℕ) → mark_at marks.new.items n ≡ (mark_at marks.old.items n || at == n) }
{
    marks[at] = true;
}

/// An output pin comes to its net.
fn take_output(taken: &mut Vec<Taken>, pin: WholePin)
    requires { pin.net.0 < length taken.old.items }
    ensures len { length taken.new.items ≡ length taken.old.items }
    ensures is { (n : ℕ) (drive : DriveValue) → admits (taken_at taken.new.items n) drive ≡ (admits (taken_at taken.old.items n) drive && may_meet_pin n drive pin) }
{
    let net = pin.net.0 as usize;
    let there = taken_at(taken.as_slice(), net);
    taken[net] = joined(there, pin.drive);
}

/// Some output pins come to their nets.
pub fn take_outputs(taken: &mut Vec<Taken>, pins: &[WholePin])
    requires { All (λ (p : PinValue). p.net.0 < length taken.old.items) pins.now }
    ensures len { length taken.new.items ≡ length taken.old.items }
    ensures is { TakesPins pins.now taken.old.items taken.new.items }
{
    for pin in pins {
        take_output(taken, *pin);
    }
}
