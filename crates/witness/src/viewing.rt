//! What all nets show at given bits.

ghost use Rattle.std.specs.Prelude.{◌≡◌, ℕ, ◌<◌, ◌||◌, ◌==◌, All, Some, length, slice_get, IfOk};
ghost use Rattle.std.specs.List.{list_any};
ghost use Rattle.channel_parts.specs.PartLists.{IsPartOf, net_numbers};
ghost use Rattle.channel_parts.specs.declared.part.Part.{Part as PartValue};
ghost use Rattle.known_nets.specs.KnownTables.{known_at};
ghost use Rattle.vrt_model.specs.Circuits.{IsFlat};
ghost use Rattle.vrt_model.specs.Known.{IsPlain};
ghost use Rattle.vrt_model.specs.Lists.{Among, At, bit_at, mark_at};
ghost use Rattle.vrt_model.specs.State.{Setting};
ghost use Rattle.vrt_model.specs.declared.ids.Net.{Net as NetValue};
ghost use Rattle.vrt_model.specs.declared.rules.Phase.{Phase as PhaseValue};
ghost use Rattle.witness.specs.Replays.{HasGivenBits, HasKnownNets, HasSeen};
ghost use Rattle.witness.specs.Views.{filled_list, has_net, stops, view_by};
ghost use Rattle.witness.specs.declared.seen.Seen.{Seen as SeenValue};

use crate::looking::{is_stopped, seen_by};
use crate::seen::Seen;
use channel_parts::Part;
use known_nets::{is_marked, no_marks};
use plain_paths::{bit, signals_at};
use std::alloc::Global;
use vrt_model::{Circuit, Net, NoMemory, Seq};

/// Marks a net.
fn mark(marks: &mut Vec<bool>, net: Net)
    requires { net.0 < length marks.old.items }
    ensures len { length marks.new.items ≡ length marks.old.items }
    ensures is { (n : ℕ) → mark_at marks.new.items n ≡ (mark_at marks.old.items n || net.0 == n) }
{
    marks[net.0 as usize] = true;
}

/// Marks nets.
fn mark_nets(marks: &mut Vec<bool>, nets: &[Net])
    requires { All (λ (net : NetValue). net.0 < length marks.old.items) nets.now }
    ensures len { length marks.new.items ≡ length marks.old.items }
    ensures is { (n : ℕ) → mark_at marks.new.items n ≡ (mark_at marks.old.items n || has_net nets.now n) }
{
    for net in nets {
        mark(marks, *net);
    }
}

/// Marks the nets of a part, where some gate of it has no bit.
fn mark_part(circuit: &Circuit, bits: &[Option<bool>], marks: &mut Vec<bool>, part: &Part)
    requires { All (λ (net : NetValue). net.0 < length marks.old.items) part.now.nets }
    ensures len { length marks.new.items ≡ length marks.old.items }
    ensures is { (n : ℕ) → mark_at marks.new.items n ≡ (mark_at marks.old.items n || stops circuit.now bits.now n part.now) }
{
    if is_stopped(circuit, bits, part.devices.as_slice()) {
        mark_nets(marks, part.nets.as_slice());
    }
}

/// Marks the nets of the parts where some gate has no bit.
fn mark_parts(circuit: &Circuit, bits: &[Option<bool>], marks: &mut Vec<bool>, parts: &[Part])
    requires { All (λ (part : PartValue). All (λ (net : NetValue). net.0 < length marks.old.items) part.nets) parts.now }
    ensures { (n : ℕ) → mark_at marks.new.items n ≡ (mark_at marks.old.items n || list_any (stops circuit.now bits.now n) parts.now) }
{
    for part in parts {
        mark_part(circuit, bits, marks, part);
    }
}

/// The bits, and 0 where there is none.
pub(crate) fn filled(alloc: Global, bits: &[Option<bool>]) -> Result<Vec<bool>, NoMemory>
    ensures { IfOk result (λ reading. reading.items ≡ filled_list bits.now) }
{
    let mut reading = Vec::new(alloc);
    for bit in bits {
        let Ok(()) = reading.push(bit.unwrap_or(false)) else {
            return Err(NoMemory);
        };
    }
    Ok(reading)
}

/// What a net shows by these marks and signals.
fn view(marks: &[bool], zeros: &[bool], ones: &[bool], net: usize) -> Seen
    ensures { result ≡ view_by (mark_at marks.now net) zeros.now ones.now net }
{
    if is_marked(marks, net) {
        Seen::Blocked
    } else {
        seen_by(bit(zeros, net), bit(ones, net))
    }
}

/// What all nets show by these marks and signals.
fn view_nets(
    alloc: Global,
    marks: &[bool],
    zeros: &[bool],
    ones: &[bool],
    count: usize,
) -> Result<Seq<Seen>, NoMemory>
    ensures len { IfOk result (λ list. length list ≡ count) }
    ensures each { IfOk result (λ list. (n : ℕ) → n < count → slice_get list n ≡ Some (view_by (mark_at marks.now n) zeros.now ones.now n)) }
{
    let mut list = Seq::new(alloc);
    for net in 0..count {
        list.append(view(marks, zeros, ones, net))?;
    }
    Ok(list)
}

/// What all nets show in the bare or the kept circuit, where nets have these bits and holds those, and these are its parts.
pub fn view_all(
    alloc: Global,
    circuit: &Circuit,
    bare: bool,
    bits: &[Option<bool>],
    held: &[bool],
    parts: &[Part],
) -> Result<Seq<Seen>, NoMemory>
    requires flat { IsFlat circuit.now }
    requires nets { All (λ (part : PartValue). All (λ (net : NetValue). net.0 < length circuit.now.nets) part.nets) parts.now }
    ensures len { IfOk result (λ list. length list ≡ length circuit.now.nets) }
    ensures seen { IfOk result (λ list. (phase : PhaseValue) → (setting : Setting) → (rank : ℕ → ℕ) → setting.held ≡ bit_at held.now → ((part : PartValue) → Among parts.now part → IsPartOf circuit.now phase bare rank part) → ((n : ℕ) → IsPlain circuit.now n → (part : PartValue) × Among parts.now part × Among (net_numbers part.nets) n) → HasGivenBits circuit.now phase setting.inputs (known_at bits.now) → HasKnownNets circuit.now phase (known_at bits.now) → (n : ℕ) → (seen : SeenValue) → At list n seen → HasSeen circuit.now phase setting (known_at bits.now) bare n seen) }
{
    let reading = filled(alloc, bits)?;
    let signals = signals_at(alloc, circuit, bare, reading.as_slice(), held)?;
    let mut marks = no_marks(alloc, circuit.nets.len())?;
    mark_parts(circuit, bits, &mut marks, parts);
    let list = view_nets(
        alloc,
        marks.as_slice(),
        signals.zeros.as_slice(),
        signals.ones.as_slice(),
        circuit.nets.len(),
    )?;
    Ok(list)
}
