//! The bits that the nets of the bare circuit show, by looks at all nets until no net gains a bit.

ghost use Rattle.std.specs.Prelude.{◌≡◌, ℕ, ◌<◌, ◌≤◌, ◌⊎◌, Bool, All, Some, false, true, is_some, length, IfOk};
ghost use Rattle.channel_parts.specs.PartLists.{IsPartOf, net_numbers};
ghost use Rattle.channel_parts.specs.declared.part.Part.{Part as PartValue};
ghost use Rattle.known_nets.specs.KnownTables.{known_at};
ghost use Rattle.known_nets.specs.Learned.{unknown};
ghost use Rattle.vrt_model.specs.Circuits.{IsFlat};
ghost use Rattle.vrt_model.specs.Known.{IsPlain};
ghost use Rattle.vrt_model.specs.Lists.{Among, bit_at};
ghost use Rattle.vrt_model.specs.State.{Setting};
ghost use Rattle.vrt_model.specs.declared.ids.Net.{Net as NetValue};
ghost use Rattle.vrt_model.specs.declared.rules.Phase.{Phase as PhaseValue};
ghost use Rattle.witness.specs.Replays.{bit_shown, bits_shown};
ghost use Rattle.witness.specs.Settling.{HasNoted, IsSettled, Stands};

use crate::seen::Seen;
use crate::viewing::view_all;
use channel_parts::Part;
use known_nets::known_bit;
use std::alloc::Global;
use vrt_model::{Circuit, NoMemory, Seq};

/// The bit that a net shows, if it shows one.
pub(crate) fn shown_bit(seen: Seen) -> Option<bool>
    ensures { result ≡ bit_shown seen }
{
    match seen {
        Seen::Bit(value) => Some(value),
        Seen::Fight => None,
        Seen::Float => None,
        Seen::Blocked => None,
    }
}

/// The bit that the net of a number shows, if it shows one.
fn shown_at(seen: &[Seen], net: usize) -> Option<bool>
    ensures { result ≡ bits_shown seen.now net }
{
    match seen.get(net) {
        Some(seen) => shown_bit(*seen),
        None => None,
    }
}

/// Notes the bit of a net that has none yet, if there is one, and says whether it did.
pub(crate) fn note(bits: &mut Vec<Option<bool>>, net: usize, bit: Option<bool>) -> bool
    requires { net < length bits.old.items }
    ensures size { length bits.new.items ≡ length bits.old.items }
    ensures grown { (n : ℕ) (v : Bool) → known_at bits.old.items n ≡ Some v → known_at bits.new.items n ≡ Some v }
    ensures noted { is_some bit ≡ true → is_some (known_at bits.new.items net) ≡ true }
    ensures only { (n : ℕ) (v : Bool) → known_at bits.new.items n ≡ Some v → (known_at bits.old.items n ≡ Some v) ⊎ ((n ≡ net) × (bit ≡ Some v)) }
    ensures same { result ≡ false → bits.new.items ≡ bits.old.items }
    ensures falls { unknown bits.new.items ≤ unknown bits.old.items }
    ensures less { result ≡ true → unknown bits.new.items < unknown bits.old.items }
{
    if bit.is_some() && known_bit(bits.as_slice(), net).is_none() {
        bits[net] = bit;
        true
    } else {
        false
    }
}

/// Notes the bits that nets show and that they have not yet, and says whether there was any.
fn note_all(bits: &mut Vec<Option<bool>>, seen: &[Seen]) -> bool
    requires { length seen.now ≡ length bits.old.items }
    ensures { HasNoted result (length seen.now) seen.now bits.old.items bits.new.items }
{
    let mut more = false;
    for net in 0..seen.len() {
        let bit = shown_at(seen, net);
        let noted = note(bits, net, bit);
        more |= noted;
    }
    more
}

/// What all nets of the bare circuit show at the bits that they show, where these bits are shown already and these are its
/// parts. No bit is lost, and each look but the last adds one.
pub(crate) fn settle(
    alloc: Global,
    circuit: &Circuit,
    bits: &mut Vec<Option<bool>>,
    held: &[bool],
    parts: &[Part],
) -> Result<Seq<Seen>, NoMemory>
    requires flat { IsFlat circuit.now }
    requires nets { All (λ (part : PartValue). All (λ (net : NetValue). net.0 < length circuit.now.nets) part.nets) parts.now }
    requires len { length bits.old.items ≡ length circuit.now.nets }
    ensures { IfOk result (λ list. (phase : PhaseValue) → (setting : Setting) → (rank : ℕ → ℕ) → setting.held ≡ bit_at held.now → ((part : PartValue) → Among parts.now part → IsPartOf circuit.now phase true rank part) → ((n : ℕ) → IsPlain circuit.now n → (part : PartValue) × Among parts.now part × Among (net_numbers part.nets) n) → Stands circuit.now phase setting (known_at bits.old.items) → IsSettled circuit.now phase setting (known_at bits.new.items) list) }
{
    'rounds: loop {
        let seen = view_all(alloc, circuit, true, bits.as_slice(), held, parts)?;
        let more = note_all(bits, seen.as_slice());
        if !more {
            return Ok(seen);
        }
    }
}
