//! Rounds over the devices of a part, for the nets that a value reaches.

ghost use Rattle.std.specs.Prelude.{◌≡◌, ℕ, ◌+◌, ◌*◌, ◌^◌, ◌<◌, ◌≤◌, false, length, IfOk, IfSome};
ghost use Rattle.bdd_core.specs.Diagram.{IsWithin, Valuation};
ghost use Rattle.bdd_core.specs.Store.{IsLive, IsSpan, function_of};
ghost use Rattle.vrt_model.specs.Lists.{Among};
ghost use Rattle.vrt_model.specs.Path.{Network};
ghost use Rattle.path_fixpoint.specs.Parts.{part_devices, IsPartOf};
ghost use Rattle.path_fixpoint.specs.Reaching.{HasReach, HasReachPaths, HasReachRoots, HasRootWords, PassesSignal, SolvedAt, SpreadsValue, slot_of};
ghost use Rattle.path_fixpoint.specs.Strengths.{ChangesLevel, net_words};
ghost use Rattle.bdd_core.specs.Words.{IsFilled, Writes};
ghost use Rattle.bdd_ops.specs.Counting.{IsSpanWithin};
ghost use Rattle.path_fixpoint.specs.Spending.{AreGatesWithin, AreRootsWithin, Spends};

use crate::Part;
use crate::direction::Direction;
use crate::opening::is_idle;
use crate::side::Side;
use crate::signals::{fitting, offers, slot};
use crate::steps::{blocks, is_full, place, through, visited, widen, word};
use crate::words::NetWords;
use bdd_core::{H, Spent, Store};
use node_pool::Span;
use vrt_model::{Circuit, Device};

/// Passes a signal on over one device, in one direction, and says whether anything changed.
fn pass(
    store: &mut Store,
    device: &Device,
    gate: H,
    signal: H,
    out: NetWords,
    from: Option<usize>,
    to: Option<usize>,
    value: bool,
) -> Result<bool, Spent>
    requires gate { IsLive store.old gate }
    requires signal { IsLive store.old signal }
    requires out { IsSpan store.old out.span × IsFilled store.old out.span × (out.span.len < 2 ^ 32) }
    requires from { IfSome from (λ i. net_words out.source * i + net_words out.source ≤ out.span.len) }
    requires to { IfSome to (λ i. net_words out.source * i + net_words out.source ≤ out.span.len) }
    ensures writes { Writes out.span store.old store.new }
    ensures apart { ChangesLevel out (slot_of out value) store.old store.new }
    ensures passes { IfOk result (λ changed. PassesSignal out value device.now.kind gate.0 signal.0 from to device.now.level changed store.old store.new) }
    ensures few { (u : ℕ) → IsSpanWithin u store.old out.span → IsWithin u (function_of store.old gate) → IsWithin u (function_of store.old signal) → Spends u (2 * out.source + 2) out.span store.old store.new result }
{
    store.sound();
    let Some(to) = to else {
        return Ok(false);
    };
    if signal.0 == 0 {
        return Ok(false);
    }
    let at = word(out, to, slot(out, value));
    if is_full(store, out.span, at) {
        return Ok(false);
    }
    let passed = match through(store, device.kind, gate, signal) {
        Ok(passed) => passed,
        Err(spent) => return Err(spent),
    };
    let fits = match fitting(store, out, from, to, device.level, passed) {
        Ok(fits) => fits,
        Err(spent) => return Err(spent),
    };
    widen(store, out.span, at, fits)
}

/// Passes on over one device, in both directions, the marks of a value that its ends had before, of those ends that are in
/// the part or of those outside it. Says whether anything changed. What one end gets is not passed back to it.
fn visit(
    store: &mut Store,
    circuit: &Circuit,
    part: &Part,
    rising: bool,
    gates: Span,
    roots: Span,
    out: NetWords,
    device: &Device,
    value: bool,
    side: Side,
) -> Result<bool, Spent>
    requires part { IsPartOf circuit.now part.now rising }
    requires words { HasRootWords circuit.now part.now gates roots out store.old }
    requires device { Among (part_devices circuit.now part.now) device.now }
    ensures writes { Writes out.span store.old store.new }
    ensures apart { ChangesLevel out (slot_of out value) store.old store.new }
    ensures spreads { IfOk result (λ changed. SpreadsValue circuit.now part.now gates roots out value side (λ d. d ≡ device.now) changed store.old store.new) }
    ensures few { (u : ℕ) → AreGatesWithin u circuit.now part.now gates store.old → AreRootsWithin u circuit.now part.now roots store.old → IsSpanWithin u store.old out.span → Spends u (4 * out.source + 6) out.span store.old store.new result }
{
    store.sound();
    let gate = H(store.read(gates, device.gate.0));
    if blocks(device.kind, gate) {
        return Ok(false);
    }
    if is_idle(circuit, device, side) {
        return Ok(false);
    }
    let left = place(part, rising, device.left);
    let right = place(part, rising, device.right);
    let there = match offers(store, roots, out, left, device.left, value, side) {
        Ok(there) => there,
        Err(spent) => return Err(spent),
    };
    let here = match offers(store, roots, out, right, device.right, value, side) {
        Ok(here) => here,
        Err(spent) => return Err(spent),
    };
    let forth = match pass(store, device, gate, there, out, left, right, value) {
        Ok(forth) => forth,
        Err(spent) => return Err(spent),
    };
    let back = match pass(store, device, gate, here, out, right, left, value) {
        Ok(back) => back,
        Err(spent) => return Err(spent),
    };
    Ok(forth | back)
}

/// Goes over the devices of the part once, in place, forward or backward, passes on the marks of nets in the part or of
/// those outside it, and says whether anything changed.
fn round(
    store: &mut Store,
    circuit: &Circuit,
    part: &Part,
    rising: bool,
    gates: Span,
    roots: Span,
    out: NetWords,
    value: bool,
    side: Side,
    direction: Direction,
) -> Result<bool, Spent>
    requires part { IsPartOf circuit.now part.now rising }
    requires words { HasRootWords circuit.now part.now gates roots out store.old }
    ensures writes { Writes out.span store.old store.new }
    ensures apart { ChangesLevel out (slot_of out value) store.old store.new }
    ensures spreads { IfOk result (λ changed. SpreadsValue circuit.now part.now gates roots out value side (Among (part_devices circuit.now part.now)) changed store.old store.new) }
    ensures few { (u : ℕ) → AreGatesWithin u circuit.now part.now gates store.old → AreRootsWithin u circuit.now part.now roots store.old → IsSpanWithin u store.old out.span → Spends u (length part.now.devices * (4 * out.source + 6)) out.span store.old store.new result }
{
    store.sound();
    let mut changed = false;
    for step in 0..part.devices.len() {
        let device = visited(circuit, part, direction, step);
        let grew = match visit(
            store, circuit, part, rising, gates, roots, out, device, value, side,
        ) {
            Ok(grew) => grew,
            Err(spent) => return Err(spent),
        };
        changed |= grew;
    }
    Ok(changed)
}

/// Spreads the marks of a value in at most as many rounds as the part has nets. The first one passes on what comes from
/// outside, where no mark changes; those behind it go over the part, forward and backward by turns, until no word changes.
pub(crate) fn settle(
    store: &mut Store,
    circuit: &Circuit,
    part: &Part,
    rising: bool,
    gates: Span,
    roots: Span,
    out: NetWords,
    value: bool,
) -> Result<(), Spent>
    requires part { IsPartOf circuit.now part.now rising }
    requires words { HasRootWords circuit.now part.now gates roots out store.old }
    ensures writes { Writes out.span store.old store.new }
    ensures apart { ChangesLevel out (slot_of out value) store.old store.new }
    ensures reach { IfOk result (λ _. (v : Valuation) (w : Network) (s : ℕ → ℕ) → SolvedAt circuit.now part.now gates roots out store.old v w s → HasReachRoots circuit.now part.now out value store.old v w s → HasReachPaths part.now out value store.old v w s → HasReach part.now out value store.new v w) }
    ensures few { (u : ℕ) → AreGatesWithin u circuit.now part.now gates store.old → AreRootsWithin u circuit.now part.now roots store.old → IsSpanWithin u store.old out.span → Spends u (length part.now.nets * (length part.now.devices * (4 * out.source + 6))) out.span store.old store.new result }
{
    store.sound();
    let mut direction = Direction::Backward;
    'rounds: for count in 0..part.nets.len() {
        let side = Side::of_round(count);
        let changed = match round(
            store, circuit, part, rising, gates, roots, out, value, side, direction,
        ) {
            Ok(changed) => changed,
            Err(spent) => return Err(spent),
        };
        if side.is_settled(changed) {
            return Ok(());
        }
        direction = direction.turned();
    }
    Ok(())
}
