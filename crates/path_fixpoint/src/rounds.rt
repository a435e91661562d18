//! Rounds over the devices of a part, at one level of strength.

ghost use Rattle.std.specs.Prelude.{◌≡◌, ℕ, ◌+◌, ◌*◌, ◌^◌, ◌<◌, ◌≤◌, false, length, IfOk, IfSome};
ghost use Rattle.bdd_core.specs.Diagram.{IsWithin, Valuation};
ghost use Rattle.bdd_core.specs.Store.{IsLive, IsSpan, function_of};
ghost use Rattle.vrt_model.specs.Lists.{Among};
ghost use Rattle.vrt_model.specs.Path.{Network};
ghost use Rattle.path_fixpoint.specs.Parts.{part_devices, IsPartOf};
ghost use Rattle.path_fixpoint.specs.Strengths.{ChangesLevel, HasLevel, HasPaths, HasRoots, HasWords, Passes, Spreads, StandsAt, net_words};
ghost use Rattle.bdd_core.specs.Words.{IsFilled, Writes};
ghost use Rattle.bdd_ops.specs.Counting.{IsSpanWithin};
ghost use Rattle.path_fixpoint.specs.Spending.{AreGatesWithin, Spends};

use crate::Part;
use crate::direction::Direction;
use crate::opening::is_idle;
use crate::side::Side;
use crate::steps::{blocks, is_full, place, strength, through, visited, widen, word};
use crate::words::NetWords;
use bdd_core::{H, Spent, Store};
use node_pool::Span;
use vrt_model::{Circuit, Device, Kind};

/// Passes a mark of a level on over one device, to one end of its channel, and says whether anything changed.
fn pass(
    store: &mut Store,
    kind: Kind,
    gate: H,
    signal: H,
    out: NetWords,
    to: Option<usize>,
    level: u32,
) -> Result<bool, Spent>
    requires gate { IsLive store.old gate }
    requires signal { IsLive store.old signal }
    requires out { IsSpan store.old out.span × IsFilled store.old out.span × (out.span.len < 2 ^ 32) }
    requires level { (1 ≤ level) × (level ≤ out.source) }
    requires to { IfSome to (λ i. net_words out.source * i + net_words out.source ≤ out.span.len) }
    ensures writes { Writes out.span store.old store.new }
    ensures apart { ChangesLevel out level store.old store.new }
    ensures passes { IfOk result (λ changed. Passes out level kind gate.0 signal.0 to changed store.old store.new) }
    ensures few { (u : ℕ) → IsSpanWithin u store.old out.span → IsWithin u (function_of store.old gate) → IsWithin u (function_of store.old signal) → Spends u 2 out.span store.old store.new result }
{
    store.sound();
    if signal.0 == 0 {
        return Ok(false);
    }
    let Some(to) = to else {
        return Ok(false);
    };
    let at = word(out, to, level);
    if is_full(store, out.span, at) {
        return Ok(false);
    }
    let passed = match through(store, kind, gate, signal) {
        Ok(passed) => passed,
        Err(spent) => return Err(spent),
    };
    widen(store, out.span, at, passed)
}

/// Passes on over one device, in both directions, the marks of a level that its ends had before, of those ends that are
/// in the part or of those outside it. Says whether anything changed. What one end gets is not passed back to it.
fn visit(
    store: &mut Store,
    circuit: &Circuit,
    part: &Part,
    rising: bool,
    gates: Span,
    out: NetWords,
    device: &Device,
    level: u32,
    side: Side,
) -> Result<bool, Spent>
    requires part { IsPartOf circuit.now part.now rising }
    requires words { HasWords circuit.now part.now gates out store.old }
    requires level { (1 ≤ level) × (level ≤ out.source) }
    requires device { Among (part_devices circuit.now part.now) device.now }
    ensures writes { Writes out.span store.old store.new }
    ensures apart { ChangesLevel out level store.old store.new }
    ensures spreads { IfOk result (λ changed. Spreads circuit.now part.now gates out level side (λ d. d ≡ device.now) changed store.old store.new) }
    ensures few { (u : ℕ) → AreGatesWithin u circuit.now part.now gates store.old → IsSpanWithin u store.old out.span → Spends u 4 out.span store.old store.new result }
{
    store.sound();
    if (device.level as u32) < level {
        return Ok(false);
    }
    let gate = H(store.read(gates, device.gate.0));
    if blocks(device.kind, gate) {
        return Ok(false);
    }
    if is_idle(circuit, device, side) {
        return Ok(false);
    }
    let left = place(part, rising, device.left);
    let right = place(part, rising, device.right);
    let left_mark = strength(store, out, left, level);
    let right_mark = strength(store, out, right, level);
    let there = side.offered(left, left_mark);
    let here = side.offered(right, right_mark);
    let forth = match pass(store, device.kind, gate, there, out, right, level) {
        Ok(forth) => forth,
        Err(spent) => return Err(spent),
    };
    let back = match pass(store, device.kind, gate, here, out, left, level) {
        Ok(back) => back,
        Err(spent) => return Err(spent),
    };
    Ok(forth | back)
}

/// Goes over the devices of the part once, in place, forward or backward, passes on the marks of nets in the part or of
/// those outside it, and says whether anything changed.
fn round(
    store: &mut Store,
    circuit: &Circuit,
    part: &Part,
    rising: bool,
    gates: Span,
    out: NetWords,
    level: u32,
    side: Side,
    direction: Direction,
) -> Result<bool, Spent>
    requires part { IsPartOf circuit.now part.now rising }
    requires words { HasWords circuit.now part.now gates out store.old }
    requires level { (1 ≤ level) × (level ≤ out.source) }
    ensures writes { Writes out.span store.old store.new }
    ensures apart { ChangesLevel out level store.old store.new }
    ensures spreads { IfOk result (λ changed. Spreads circuit.now part.now gates out level side (Among (part_devices circuit.now part.now)) changed store.old store.new) }
    ensures few { (u : ℕ) → AreGatesWithin u circuit.now part.now gates store.old → IsSpanWithin u store.old out.span → Spends u (length part.now.devices * 4) out.span store.old store.new result }
{
    store.sound();
    let mut changed = false;
    for step in 0..part.devices.len() {
        let device = visited(circuit, part, direction, step);
        let grew = match visit(
            store, circuit, part, rising, gates, out, device, level, side,
        ) {
            Ok(grew) => grew,
            Err(spent) => return Err(spent),
        };
        changed |= grew;
    }
    Ok(changed)
}

/// Spreads the marks of a level in at most as many rounds as the part has nets. The first one passes on what comes from
/// outside, where no mark changes; those behind it go over the part, forward and backward by turns, until no word changes.
pub(crate) fn settle(
    store: &mut Store,
    circuit: &Circuit,
    part: &Part,
    rising: bool,
    gates: Span,
    out: NetWords,
    level: u32,
) -> Result<(), Spent>
    requires part { IsPartOf circuit.now part.now rising }
    requires words { HasWords circuit.now part.now gates out store.old }
    requires level { (1 ≤ level) × (level ≤ out.source) }
    ensures writes { Writes out.span store.old store.new }
    ensures apart { ChangesLevel out level store.old store.new }
    ensures level { IfOk result (λ _. (v : Valuation) (w : Network) → StandsAt circuit.now part.now gates store.old v w → HasRoots part.now out level store.old v w → HasPaths part.now out level store.old v w → HasLevel part.now out level store.new v w) }
    ensures few { (u : ℕ) → AreGatesWithin u circuit.now part.now gates store.old → IsSpanWithin u store.old out.span → Spends u (length part.now.nets * (length part.now.devices * 4)) out.span store.old store.new result }
{
    store.sound();
    let mut direction = Direction::Backward;
    'rounds: for count in 0..part.nets.len() {
        let side = Side::of_round(count);
        let changed = match round(
            store, circuit, part, rising, gates, out, level, side, direction,
        ) {
            Ok(changed) => changed,
            Err(spent) => return Err(spent),
        };
        if side.is_settled(changed) {
            return Ok(());
        }
        direction = direction.turned();
    }
    Ok(())
}
