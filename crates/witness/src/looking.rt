//! What a net of a part shows, where the gates have these bits.

ghost use Rattle.std.specs.Prelude.{◌≡◌, ℕ, Bool};
ghost use Rattle.channel_parts.specs.PartLists.{IsPartOf, net_numbers};
ghost use Rattle.known_nets.specs.KnownTables.{known_at};
ghost use Rattle.vrt_model.specs.Circuits.{IsFlat};
ghost use Rattle.vrt_model.specs.Lists.{Among};
ghost use Rattle.vrt_model.specs.Signals.{AreSignals};
ghost use Rattle.vrt_model.specs.State.{Setting, network_of};
ghost use Rattle.vrt_model.specs.declared.rules.Phase.{Phase as PhaseValue};
ghost use Rattle.witness.specs.Looks.{filled, is_stopped, is_stopped_at, look, seen_by};
ghost use Rattle.witness.specs.Replays.{HasGivenBits, HasKnownNets, HasSeen};

use crate::seen::Seen;
use channel_parts::Part;
use known_nets::known_bit;
use plain_paths::{Signals, bit};
use vrt_model::{Circuit, Dev};

/// Whether the gate of the device of a number has no bit.
fn is_stopped_at(circuit: &Circuit, bits: &[Option<bool>], device: Dev) -> bool
    ensures { result ≡ is_stopped_at circuit.now bits.now device }
{
    match circuit.devices.get(device.0 as usize) {
        Some(device) => known_bit(bits, device.gate.0 as usize).is_none(),
        None => false,
    }
}

/// Whether the gate of some device has no bit.
pub(crate) fn is_stopped(circuit: &Circuit, bits: &[Option<bool>], devices: &[Dev]) -> bool
    ensures { result ≡ is_stopped circuit.now bits.now devices.now }
{
    devices
        .iter()
        .any(|device| is_stopped_at(circuit, bits, *device))
}

/// What is seen of a net that the values 0 and 1 reach or do not.
pub(crate) fn seen_by(zero: bool, one: bool) -> Seen
    ensures { result ≡ seen_by zero one }
{
    if zero {
        if one { Seen::Fight } else { Seen::Bit(false) }
    } else if one {
        Seen::Bit(true)
    } else {
        Seen::Float
    }
}

/// What is seen of a net at marks of the nets that the values 0 and 1 reach, where the gates of these devices have these
/// bits.
fn look_at(
    circuit: &Circuit,
    bits: &[Option<bool>],
    devices: &[Dev],
    zeros: &[bool],
    ones: &[bool],
    net: usize,
) -> Seen
    ensures { result ≡ look circuit.now bits.now devices.now zeros.now ones.now net }
{
    if is_stopped(circuit, bits, devices) {
        Seen::Blocked
    } else {
        seen_by(bit(zeros, net), bit(ones, net))
    }
}

/// What a net of a part of the bare or the kept circuit shows, where the nets have these bits, and these are the signals
/// at a reading with them: `Blocked` exactly where some gate of the part has no bit, and else its response, which is the
/// same at every reading with these bits.
pub fn look(
    circuit: &Circuit,
    bits: &[Option<bool>],
    part: &Part,
    signals: &Signals,
    net: usize,
) -> Seen
    requires { IsFlat circuit.now }
    ensures { (phase : PhaseValue) → (setting : Setting) → (which : Bool) → (rank : ℕ → ℕ) → (driven : ℕ → Bool) → IsPartOf circuit.now phase which rank part.now → Among (net_numbers part.now.nets) net → HasGivenBits circuit.now phase setting.inputs (known_at bits.now) → HasKnownNets circuit.now phase (known_at bits.now) → AreSignals (network_of circuit.now which setting.held (record { reading = filled bits.now; driven = driven })) signals.now.strengths.items signals.now.zeros.items signals.now.ones.items → HasSeen circuit.now phase setting (known_at bits.now) which net result }
{
    look_at(
        circuit,
        bits,
        part.devices.as_slice(),
        signals.zeros.as_slice(),
        signals.ones.as_slice(),
        net,
    )
}
