//! Single steps: what a conducting device passes on, and the word that it is added to.

ghost use Rattle.std.specs.Prelude.{IsTrue, ◌≡◌, ◌≢◌, ℕ, ◌+◌, ◌-◌, ◌*◌, ◌^◌, ◌<◌, ◌≤◌, true, false, length, IfOk, IfSome, IsNone};
ghost use Rattle.bdd_core.specs.Diagram.{Valuation, IsWithin};
ghost use Rattle.bdd_core.specs.Store.{IsLive, IsSpan, Makes, function_of};
ghost use Rattle.path_fixpoint.specs.Parts.{IsPart, IsPlace, IsVisited, Rises};
ghost use Rattle.path_fixpoint.specs.Strengths.{strong_end, word_of, net_words};
ghost use Rattle.bdd_core.specs.Words.{IsFilled, Writes, word_at};
ghost use Rattle.path_fixpoint.specs.Passed.{blocking, gated, IsWider};
ghost use Rattle.bdd_ops.specs.Counting.{IsSpanWithin};
ghost use Rattle.path_fixpoint.specs.Spending.{Spends};

use crate::Part;
use crate::direction::Direction;
use crate::words::{NetWords, net_words};
use bdd_core::{H, ONE, Spent, Store, ZERO};
use bdd_ops::{and, or};
use node_pool::Span;
use vrt_model::{Circuit, Device, Kind, Net};

/// Where a net stands in a part whose nets rise, found by halves.
fn search(part: &Part, net: Net) -> Option<usize>
    requires { Rises part.now }
    ensures some { IfSome result (λ i. IsPlace part.now i net.0) }
    ensures none { IsNone result → (i : ℕ) → IsPlace part.now i net.0 → ⊥ }
{
    let nets = part.nets.as_slice();
    let mut low = 0;
    let mut high = nets.len();
    'halves: while low < high {
        let middle = low + (high - low) / 2;
        let here = nets[middle].0;
        if here == net.0 {
            return Some(middle);
        }
        if here < net.0 {
            low = middle + 1;
        } else {
            high = middle;
        }
    }
    None
}

/// Where a net stands in a part: by halves where the nets are known to rise, else one by one.
pub(crate) fn place(part: &Part, rising: bool, net: Net) -> Option<usize>
    requires rising { IsTrue rising → Rises part.now }
    ensures some { IfSome result (λ i. IsPlace part.now i net.0) }
    ensures none { IsNone result → (i : ℕ) → IsPlace part.now i net.0 → ⊥ }
{
    if rising {
        return search(part, net);
    }
    part.nets
        .as_slice()
        .iter()
        .position(|other| other.0 == net.0)
}

/// The device of a part that a round visits at a step.
pub(crate) fn visited<'a>(
    circuit: &'a Circuit,
    part: &Part,
    direction: Direction,
    step: usize,
) -> &'a Device
    requires part { IsPart circuit.now part.now }
    requires step { step < length part.now.devices }
    ensures { IsVisited circuit.now part.now direction step result.now }
{
    let devices = part.devices.as_slice();
    let dev = devices[direction.place(devices.len(), step)];
    let Some(device) = circuit.devices.get(dev.0 as usize) else {
        unreachable!();
    };
    device
}

/// The word of a net for a level.
pub(crate) fn word(out: NetWords, place: usize, level: u32) -> u32
    requires level { 1 ≤ level }
    requires fits { net_words out.source * place + level < 2 ^ 32 }
    ensures { result ≡ word_of out level place }
{
    net_words(out.source) * place as u32 + (level - 1)
}

/// Whether the strength at the end of a channel is at least a level. A net outside the part has a given value.
pub(crate) fn strength(store: &Store, out: NetWords, place: Option<usize>, level: u32) -> H
    requires out { IsSpan store.now out.span × IsFilled store.now out.span }
    requires level { (1 ≤ level) × (level ≤ net_words out.source) }
    requires place { IfSome place (λ i. (net_words out.source * i + net_words out.source ≤ out.span.len) × (out.span.len < 2 ^ 32)) }
    ensures live { IsLive store.now result }
    ensures is { (v : Valuation) → function_of store.now result v ≡ strong_end store.now out level place v }
    ensures few { (u : ℕ) → IsSpanWithin u store.now out.span → IsWithin u (function_of store.now result) }
{
    store.sound();
    match place {
        Some(place) => H(store.read(out.span, word(out, place, level))),
        None => ONE,
    }
}

/// Whether a gate is the constant that keeps a device from conducting.
pub(crate) fn blocks(kind: Kind, gate: H) -> bool
    ensures { result ≡ true → gate.0 ≡ blocking kind }
{
    match kind {
        Kind::N => gate.0 == 0,
        Kind::P => gate.0 == 1,
    }
}

/// Whether a word is the constant 1, so that nothing can be added to it.
pub(crate) fn is_full(store: &Store, out: Span, at: u32) -> bool
    requires out { IsSpan store.now out }
    requires at { at < out.len }
    ensures { result ≡ true → word_at store.now out at ≡ 1 }
{
    store.read(out, at) == 1
}

/// What a device passes on of a signal: nothing where it does not conduct.
pub(crate) fn through(store: &mut Store, kind: Kind, gate: H, signal: H) -> Result<H, Spent>
    requires { IsLive store.old gate × IsLive store.old signal }
    ensures { Makes store.old store.new (gated kind (function_of store.old gate) (function_of store.old signal)) result }
{
    store.sound();
    match kind {
        Kind::N => and(store, gate, signal),
        Kind::P => store.ite(gate, ZERO, signal),
    }
}

/// Adds a signal to a word, and says whether the word changed.
pub(crate) fn widen(store: &mut Store, out: Span, at: u32, signal: H) -> Result<bool, Spent>
    requires out { IsSpan store.old out × IsFilled store.old out }
    requires at { at < out.len }
    requires signal { IsLive store.old signal }
    ensures writes { Writes out store.old store.new }
    ensures wider { IfOk result (λ changed. IsWider out at (function_of store.old signal) changed store.old store.new) }
    ensures apart { (k : ℕ) → k ≢ at → word_at store.new out k ≡ word_at store.old out k }
    ensures few { (u : ℕ) → IsSpanWithin u store.old out → IsWithin u (function_of store.old signal) → Spends u 1 out store.old store.new result }
{
    store.sound();
    let before = H(store.read(out, at));
    let after = match or(store, before, signal) {
        Ok(after) => after,
        Err(spent) => return Err(spent),
    };
    if after.0 == before.0 {
        return Ok(false);
    }
    store.write(out, at, after.0);
    Ok(true)
}
