//! Signals of one value: what stands at the end of a channel, and where the strengths let it pass.

ghost use Rattle.std.specs.Prelude.{◌≡◌, ℕ, ◌+◌, ◌*◌, ◌^◌, ◌<◌, ◌≤◌, ◌↔◌, true, List, IfOk, IfSome};
ghost use Rattle.bdd_core.specs.Diagram.{IsWithin, Valuation, meaning};
ghost use Rattle.bdd_core.specs.Store.{IsLive, IsSpan, Makes, function_of};
ghost use Rattle.path_fixpoint.specs.Reaching.{FitsAt, bit_is, offered_end, reached_end, slot_of};
ghost use Rattle.path_fixpoint.specs.Strengths.{strong_end, net_words};
ghost use Rattle.node_pool.specs.declared.region.Node.{Node as NodeValue};
ghost use Rattle.node_pool.specs.declared.region.Span.{Span as SpanValue};
ghost use Rattle.bdd_core.specs.Words.{IsFilled, Writes, shows};
ghost use Rattle.bdd_ops.specs.Counting.{IsSpanWithin};
ghost use Rattle.path_fixpoint.specs.Spending.{Finds};

use crate::side::Side;
use crate::steps::{strength, word};
use crate::words::{NetWords, net_words};
use bdd_core::{H, Spent, Store, ZERO};
use bdd_ops::{and, not};
use node_pool::Span;
use vrt_model::Net;

/// The number of the word of a value, as a level.
pub(crate) fn slot(out: NetWords, value: bool) -> u32
    ensures { result ≡ slot_of out value }
{
    let most = net_words(out.source);
    if value { most } else { most - 1 }
}

/// Whether the root whose handle stands at a place has the value.
pub(crate) fn root_bit(store: &mut Store, roots: Span, at: u32, value: bool) -> Result<H, Spent>
    requires roots { IsSpan store.old roots × IsFilled store.old roots }
    requires at { at < roots.len }
    ensures { Makes store.old store.new (bit_is value (λ v. shows store.old roots at v)) result }
{
    store.sound();
    let bit = H(store.read(roots, at));
    if value {
        return Ok(bit);
    }
    not(store, bit)
}

/// Whether the value reaches the end of a channel. A net outside the part has a given value.
pub(crate) fn reached(
    store: &mut Store,
    roots: Span,
    out: NetWords,
    place: Option<usize>,
    net: Net,
    value: bool,
) -> Result<H, Spent>
    requires roots { IsSpan store.old roots × IsFilled store.old roots }
    requires out { IsSpan store.old out.span × IsFilled store.old out.span }
    requires net { net.0 < roots.len }
    requires place { IfSome place (λ i. net_words out.source * i + net_words out.source ≤ out.span.len) }
    requires len { out.span.len < 2 ^ 32 }
    ensures { Makes store.old store.new (λ v. reached_end store.old roots out value place net.0 v) result }
{
    store.sound();
    let Some(place) = place else {
        return root_bit(store, roots, net.0, value);
    };
    Ok(H(store.read(out.span, word(out, place, slot(out, value)))))
}

/// What an end of a channel offers to the other one of a value: whether the value reaches it, where it is on the side; else
/// nothing.
pub(crate) fn offers(
    store: &mut Store,
    roots: Span,
    out: NetWords,
    place: Option<usize>,
    net: Net,
    value: bool,
    side: Side,
) -> Result<H, Spent>
    requires roots { IsSpan store.old roots × IsFilled store.old roots }
    requires out { IsSpan store.old out.span × IsFilled store.old out.span }
    requires net { net.0 < roots.len }
    requires place { IfSome place (λ i. net_words out.source * i + net_words out.source ≤ out.span.len) }
    requires len { out.span.len < 2 ^ 32 }
    ensures { Makes store.old store.new (λ v. offered_end store.old roots out value side place net.0 v) result }
{
    store.sound();
    if side.has(place) {
        return reached(store, roots, out, place, net, value);
    }
    Ok(ZERO)
}

/// The strength of the one end of a channel is at least a level, and so is the device's level.
fn prefix(store: &Store, out: NetWords, from: Option<usize>, device: u8, level: u32) -> H
    requires out { IsSpan store.now out.span × IsFilled store.now out.span }
    requires level { (1 ≤ level) × (level ≤ out.source) }
    requires from { IfSome from (λ i. net_words out.source * i + net_words out.source ≤ out.span.len) }
    requires len { out.span.len < 2 ^ 32 }
    ensures live { IsLive store.now result }
    ensures is { (v : Valuation) → (function_of store.now result v ≡ true) ↔ ((level ≤ device) × (strong_end store.now out level from v ≡ true)) }
    ensures few { (u : ℕ) → IsSpanWithin u store.now out.span → IsWithin u (function_of store.now result) }
{
    store.sound();
    if level <= device as u32 {
        return strength(store, out, from, level);
    }
    ZERO
}

/// Whether a handle is the constant 1.
fn is_one(handle: H) -> bool
    ensures { result ≡ true → handle.0 ≡ 1 }
{
    handle.0 == 1
}

/// Whether it is seen at once that a signal fits: it is 0, or the bound on the net where it arrives is no tighter than
/// that net.
fn is_free(signal: H, other: H, here: H) -> bool
    ensures { result ≡ true → (nodes : List NodeValue) (v : Valuation) → meaning nodes signal.0 v ≡ true → meaning nodes here.0 v ≡ true → meaning nodes other.0 v ≡ true }
{
    if signal.0 == 0 {
        return true;
    }
    if here.0 == 0 {
        return true;
    }
    if here.0 == other.0 {
        return true;
    }
    is_one(other)
}

/// A signal where the other end's strength is no more than what the one end and the device give at a level.
fn limit(store: &mut Store, signal: H, other: H, here: H) -> Result<H, Spent>
    requires { IsLive store.old signal × IsLive store.old other × IsLive store.old here }
    ensures writes { (out : SpanValue) → IsFilled store.old out → Writes out store.old store.new }
    ensures words { store.new.words ≡ store.old.words }
    ensures live { IfOk result (IsLive store.new) }
    ensures is { IfOk result (λ r. (v : Valuation) → (function_of store.new r v ≡ true) ↔ ((function_of store.old signal v ≡ true) × (function_of store.old here v ≡ true → function_of store.old other v ≡ true))) }
    ensures few { (u : ℕ) → IsWithin u (function_of store.old signal) → IsWithin u (function_of store.old other) → IsWithin u (function_of store.old here) → Finds u 2 store.old store.new result }
{
    store.sound();
    if is_free(signal, other, here) {
        return Ok(signal);
    }
    let held = match and(store, signal, other) {
        Ok(held) => held,
        Err(spent) => return Err(spent),
    };
    store.ite(here, held, signal)
}

/// A signal where it fits the strengths: the strength of the net at place `to` is no more than the device's level and
/// the strength of the one end. Elsewhere a stronger signal blocks it.
pub(crate) fn fitting(
    store: &mut Store,
    out: NetWords,
    from: Option<usize>,
    to: usize,
    device: u8,
    signal: H,
) -> Result<H, Spent>
    requires out { IsSpan store.old out.span × IsFilled store.old out.span × (out.span.len < 2 ^ 32) }
    requires from { IfSome from (λ i. net_words out.source * i + net_words out.source ≤ out.span.len) }
    requires to { net_words out.source * to + net_words out.source ≤ out.span.len }
    requires signal { IsLive store.old signal }
    ensures writes { Writes out.span store.old store.new }
    ensures words { store.new.words ≡ store.old.words }
    ensures live { IfOk result (IsLive store.new) }
    ensures is { IfOk result (λ r. (v : Valuation) → (function_of store.new r v ≡ true) ↔ ((function_of store.old signal v ≡ true) × FitsAt store.old out from to device v)) }
    ensures few { (u : ℕ) → IsSpanWithin u store.old out.span → IsWithin u (function_of store.old signal) → Finds u (2 * out.source) store.old store.new result }
{
    store.sound();
    let mut signal = signal;
    for below in 0..out.source as u32 {
        let here = strength(store, out, Some(to), below + 1);
        let other = prefix(store, out, from, device, below + 1);
        signal = match limit(store, signal, other, here) {
            Ok(signal) => signal,
            Err(spent) => return Err(spent),
        };
    }
    Ok(signal)
}
