//! Whether the outputs of an instance are allowed where it would be whole.

ghost use Rattle.std.specs.Prelude.{◌≡◌, ◌++◌, ◌↔◌, ℕ, List, true};
ghost use Rattle.whole_circuits.specs.Outputs.{AreAround, AreOpen, joins_others, joins_own, are_open, open_pin, own_outputs};
ghost use Rattle.vrt_model.specs.WholeInstances.{OutputAt};
ghost use Rattle.vrt_model.specs.declared.circuit.Device.{Device as DeviceValue};

use crate::counts::{bears_all, both};
use crate::taken::{Taken, admits, joins, taken_at};
use known_nets::{is_marked, is_plain};
use vrt_model::{Circuit, WholePin};

/// What stands at each net of the flat circuit where an instance would be whole.
pub struct NetMarks {
    /// A mark for each net, set where it has a hold.
    pub held: Vec<bool>,
    /// For each net a count for each level: of the channels there of devices of this level that are not inside whole instances.
    pub channels: Vec<usize>,
    /// For each net what outputs of the other whole instances are there.
    pub taken: Vec<Taken>,
}

/// By hand, so that letting go of them is a call.
impl Drop for NetMarks {
    fn drop(self) {
        let NetMarks {
            held: _held,
            channels: _channels,
            taken: _taken,
        } = self;
    }
}

/// Whether a pin is the one at a place, is at another net, or may be met there by the one at that place.
fn joins_own(own: WholePin, at: usize, other: usize, pin: WholePin) -> bool
    ensures { result ≡ joins_own own.net.0 at own.drive (other, pin) }
{
    let there = pin.net.0 == own.net.0;
    let itself = other == at;
    let joined = joins(own.drive, pin.drive);
    let met = both(there, !itself);
    !met || joined
}

/// Whether each of some pins is so.
fn joins_others(pins: &[WholePin], own: WholePin, at: usize) -> bool
    ensures { result ≡ joins_others pins.now own.net.0 at own.drive }
{
    let mut other = 0;
    let mut rest = pins;
    'pins: while let Some((pin, behind)) = rest.split_first() {
        if !joins_own(own, at, other, *pin) {
            return false;
        }
        other += 1;
        rest = behind;
    }
    true
}

/// Whether a pin, at its place among the output pins of an instance, is at a plain net without hold, and is allowed there.
fn is_open_pin(
    circuit: &Circuit,
    marks: &NetMarks,
    pins: &[WholePin],
    at: usize,
    pin: WholePin,
) -> bool
    ensures { result ≡ open_pin circuit.now marks.now pins.now (at, pin) }
{
    let net = pin.net.0 as usize;
    let plain = is_plain(circuit, net);
    let held = is_marked(marks.held.as_slice(), net);
    let borne = bears_all(marks.channels.as_slice(), pin.drive, pin.net.0);
    let there = taken_at(marks.taken.as_slice(), net);
    let admitted = admits(there, pin.drive);
    let others = joins_others(pins, pin, at);
    let own = both(plain, !held);
    let allowed = both(both(borne, admitted), others);
    both(own, allowed)
}

/// Whether all pins pass the test.
fn all_open(circuit: &Circuit, marks: &NetMarks, pins: &[WholePin]) -> bool
    ensures { result ≡ are_open circuit.now marks.now pins.now }
{
    let mut at = 0;
    let mut rest = pins;
    'pins: while let Some((pin, behind)) = rest.split_first() {
        if !is_open_pin(circuit, marks, pins, at, *pin) {
            return false;
        }
        at += 1;
        rest = behind;
    }
    true
}

/// Whether each of the output pins of an instance that would be whole is at a plain net without hold, and is allowed there: it meets
/// gates alone, or its drive is a level, no stronger device that stays has a channel there, and all other outputs there have
/// that drive. It takes time in proportion to the square of their number.
pub fn are_open(circuit: &Circuit, marks: &NetMarks, pins: &[WholePin]) -> bool
    ensures { (devices : List DeviceValue) (earlier : List OutputAt) (number : ℕ) → AreAround circuit.now marks.now devices earlier number → (result ≡ true) ↔ AreOpen circuit.now devices (earlier ++ own_outputs number pins.now) (own_outputs number pins.now) }
{
    all_open(circuit, marks, pins)
}
