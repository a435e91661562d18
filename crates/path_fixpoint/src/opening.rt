//! Where the marks of a level begin.

ghost use Rattle.std.specs.Prelude.{◌≡◌, ◌≢◌, ℕ, ◌+◌, ◌*◌, ◌^◌, ◌<◌, ◌≤◌, ◌↔◌, IsTrue, true, false, length};
ghost use Rattle.bdd_core.specs.Diagram.{IsWithin, Valuation};
ghost use Rattle.bdd_core.specs.Store.{IsLive, IsSpan, function_of};
ghost use Rattle.vrt_model.specs.Path.{Network};
ghost use Rattle.path_fixpoint.specs.Openings.{IsGivenAt, IsHoldAt, IsPinAt, OnlyBy, TakesAbove, mark_of};
ghost use Rattle.path_fixpoint.specs.Parts.{IsGiven, IsPart, IsPlace, IsWithoutGivenEnd, Rises, pins_of};
ghost use Rattle.path_fixpoint.specs.declared.side.Side.TheVariants.{Outside};
ghost use Rattle.path_fixpoint.specs.Strengths.{ChangesLevel, HasLevel, HasPaths, HasRoots, HasWords, StandsAt, HasMarks, net_words};
ghost use Rattle.bdd_core.specs.Words.{IsFilled, Writes, word_at};
ghost use Rattle.bdd_ops.specs.Counting.{IsSpanWithin};
ghost use Rattle.path_fixpoint.specs.Spending.{Rewrites};

use crate::Part;
use crate::pins::{drive_level, pin_at};
use crate::side::Side;
use crate::steps::{place, word};
use crate::words::NetWords;
use bdd_core::{H, ONE, Store, ZERO};
use node_pool::Span;
use vrt_model::{Circuit, Device, Net, NetKind, WholePin};

/// Writes a handle into a word.
pub(crate) fn set(store: &mut Store, out: Span, at: u32, handle: H)
    requires out { IsSpan store.old out × IsFilled store.old out }
    requires at { at < out.len }
    requires handle { IsLive store.old handle }
    ensures writes { Writes out store.old store.new }
    ensures here { word_at store.new out at ≡ handle.0 }
    ensures apart { (k : ℕ) → k ≢ at → word_at store.new out k ≡ word_at store.old out k }
    ensures few { (u : ℕ) → IsSpanWithin u store.old out → IsWithin u (function_of store.old handle) → Rewrites u out store.old store.new }
{
    store.sound();
    store.write(out, at, handle.0);
}

/// Where the mark of a net begins: at that of the level above.
fn above(store: &Store, out: NetWords, place: usize, level: u32) -> H
    requires out { IsSpan store.now out.span × IsFilled store.now out.span }
    requires level { (1 ≤ level) × (level ≤ out.source) }
    requires place { (net_words out.source * place + net_words out.source ≤ out.span.len) × (out.span.len < 2 ^ 32) }
    ensures live { IsLive store.now result }
    ensures below { level < out.source → result.0 ≡ mark_of store.now out (level + 1) place }
    ensures highest { level ≡ out.source → result.0 ≡ 0 }
    ensures few { (u : ℕ) → IsSpanWithin u store.now out.span → IsWithin u (function_of store.now result) }
{
    store.sound();
    if level < out.source as u32 {
        return H(store.read(out.span, word(out, place, level + 1)));
    }
    ZERO
}

/// Takes the marks of the level above.
pub(crate) fn take_above(store: &mut Store, part: &Part, out: NetWords, level: u32)
    requires out { HasMarks part.now out store.old }
    requires level { (1 ≤ level) × (level ≤ out.source) }
    ensures writes { Writes out.span store.old store.new }
    ensures apart { ChangesLevel out level store.old store.new }
    ensures taken { (i : ℕ) → i < length part.now.nets → TakesAbove out level store.old store.new i }
    ensures few { (u : ℕ) → IsSpanWithin u store.old out.span → Rewrites u out.span store.old store.new }
{
    store.sound();
    for i in 0..part.nets.len() {
        let handle = above(store, out, i, level);
        set(store, out.span, word(out, i, level), handle);
    }
}

/// Marks a net of the part, by the constant 1, where the test says so.
fn mark(
    store: &mut Store,
    part: &Part,
    rising: bool,
    out: NetWords,
    net: Net,
    level: u32,
    fits: bool,
)
    requires rising { IsTrue rising → Rises part.now }
    requires part { (i j n : ℕ) → IsPlace part.now i n → IsPlace part.now j n → i ≡ j }
    requires out { HasMarks part.now out store.old }
    requires level { (1 ≤ level) × (level ≤ out.source) }
    ensures writes { Writes out.span store.old store.new }
    ensures apart { ChangesLevel out level store.old store.new }
    ensures marked { fits ≡ true → (i : ℕ) → IsPlace part.now i net.0 → mark_of store.new out level i ≡ 1 }
    ensures only { OnlyBy out level (λ i. (fits ≡ true) × IsPlace part.now i net.0) store.old store.new }
    ensures few { (u : ℕ) → IsSpanWithin u store.old out.span → Rewrites u out.span store.old store.new }
{
    store.sound();
    if !fits {
        return;
    }
    let Some(i) = place(part, rising, net) else {
        return;
    };
    set(store, out.span, word(out, i, level), ONE);
}

/// Whether a net has a given value: a supply, an input or a clock port.
pub(crate) fn is_given(circuit: &Circuit, net: Net) -> bool
    ensures { (result ≡ true) ↔ IsGiven circuit.now net.0 }
{
    let Some(flat) = circuit.nets.get(net.0 as usize) else {
        return false;
    };
    match flat.kind {
        NetKind::Plain => false,
        _ => true,
    }
}

/// Whether an end of a device's channel has a given value.
fn has_given_end(circuit: &Circuit, device: &Device) -> bool
    ensures { result ≡ false → IsWithoutGivenEnd circuit.now device.now }
{
    if is_given(circuit, device.left) {
        return true;
    }
    is_given(circuit, device.right)
}

/// Whether it is seen at once that a device passes nothing on from its ends on a side: from outside, where no end has a given
/// value, so that both are in the part.
pub(crate) fn is_idle(circuit: &Circuit, device: &Device, side: Side) -> bool
    ensures { result ≡ true → IsWithoutGivenEnd circuit.now device.now × (side ≡ Outside) }
{
    match side {
        Side::Inside => false,
        Side::Outside => !has_given_end(circuit, device),
    }
}

/// Marks the nets of the part that have given values.
fn mark_given(
    store: &mut Store,
    circuit: &Circuit,
    part: &Part,
    rising: bool,
    out: NetWords,
    level: u32,
)
    requires rising { IsTrue rising → Rises part.now }
    requires part { (i j n : ℕ) → IsPlace part.now i n → IsPlace part.now j n → i ≡ j }
    requires out { HasMarks part.now out store.old }
    requires level { (1 ≤ level) × (level ≤ out.source) }
    ensures writes { Writes out.span store.old store.new }
    ensures apart { ChangesLevel out level store.old store.new }
    ensures marked { (i : ℕ) → IsGivenAt circuit.now part.now i → mark_of store.new out level i ≡ 1 }
    ensures only { OnlyBy out level (IsGivenAt circuit.now part.now) store.old store.new }
    ensures few { (u : ℕ) → IsSpanWithin u store.old out.span → Rewrites u out.span store.old store.new }
{
    store.sound();
    for net in part.nets.as_slice() {
        let fits = is_given(circuit, *net);
        mark(store, part, rising, out, *net, level, fits);
    }
}

/// Whether a root of this level is one of at least the level.
fn has_level(size: u32, level: u32) -> bool
    ensures { (result ≡ true) ↔ (level ≤ size) }
{
    size >= level
}

/// Marks the nets of the holds of at least this level.
fn mark_holds(
    store: &mut Store,
    circuit: &Circuit,
    part: &Part,
    rising: bool,
    out: NetWords,
    level: u32,
)
    requires rising { IsTrue rising → Rises part.now }
    requires part { (i j n : ℕ) → IsPlace part.now i n → IsPlace part.now j n → i ≡ j }
    requires out { HasMarks part.now out store.old }
    requires level { (1 ≤ level) × (level ≤ out.source) }
    ensures writes { Writes out.span store.old store.new }
    ensures apart { ChangesLevel out level store.old store.new }
    ensures marked { (i : ℕ) → IsHoldAt circuit.now part.now level i → mark_of store.new out level i ≡ 1 }
    ensures only { OnlyBy out level (IsHoldAt circuit.now part.now level) store.old store.new }
    ensures few { (u : ℕ) → IsSpanWithin u store.old out.span → Rewrites u out.span store.old store.new }
{
    store.sound();
    for hold in circuit.holds.as_slice() {
        let fits = has_level(hold.size as u32, level);
        mark(store, part, rising, out, hold.net, level, fits);
    }
}

/// Marks the nets of these outputs of at least this level.
fn mark_outputs(
    store: &mut Store,
    part: &Part,
    rising: bool,
    out: NetWords,
    level: u32,
    outputs: &[WholePin],
)
    requires rising { IsTrue rising → Rises part.now }
    requires part { (i j n : ℕ) → IsPlace part.now i n → IsPlace part.now j n → i ≡ j }
    requires out { HasMarks part.now out store.old }
    requires level { (1 ≤ level) × (level ≤ out.source) }
    ensures writes { Writes out.span store.old store.new }
    ensures apart { ChangesLevel out level store.old store.new }
    ensures marked { (i : ℕ) → IsPinAt out.source part.now outputs.now level i → mark_of store.new out level i ≡ 1 }
    ensures only { OnlyBy out level (IsPinAt out.source part.now outputs.now level) store.old store.new }
    ensures few { (u : ℕ) → IsSpanWithin u store.old out.span → Rewrites u out.span store.old store.new }
{
    store.sound();
    for at in 0..outputs.len() {
        let pin = pin_at(outputs, at);
        let fits = has_level(drive_level(out.source, pin.drive), level);
        mark(store, part, rising, out, pin.net, level, fits);
    }
}

/// Marks the nets of the outputs of whole instances of at least this level.
fn mark_pins(
    store: &mut Store,
    circuit: &Circuit,
    part: &Part,
    rising: bool,
    out: NetWords,
    level: u32,
)
    requires rising { IsTrue rising → Rises part.now }
    requires part { (i j n : ℕ) → IsPlace part.now i n → IsPlace part.now j n → i ≡ j }
    requires out { HasMarks part.now out store.old }
    requires level { (1 ≤ level) × (level ≤ out.source) }
    ensures writes { Writes out.span store.old store.new }
    ensures apart { ChangesLevel out level store.old store.new }
    ensures marked { (i : ℕ) → IsPinAt out.source part.now (pins_of circuit.now) level i → mark_of store.new out level i ≡ 1 }
    ensures only { OnlyBy out level (IsPinAt out.source part.now (pins_of circuit.now) level) store.old store.new }
    ensures few { (u : ℕ) → IsSpanWithin u store.old out.span → Rewrites u out.span store.old store.new }
{
    store.sound();
    for whole in circuit.wholes.as_slice() {
        mark_outputs(store, part, rising, out, level, whole.outputs.as_slice());
    }
}

/// Begins a level: with the marks of the level above, and those at the roots of at least this level.
pub(crate) fn open(
    store: &mut Store,
    circuit: &Circuit,
    part: &Part,
    rising: bool,
    gates: Span,
    out: NetWords,
    level: u32,
)
    requires rising { IsTrue rising → Rises part.now }
    requires part { IsPart circuit.now part.now }
    requires words { HasWords circuit.now part.now gates out store.old }
    requires level { (1 ≤ level) × (level ≤ out.source) }
    ensures writes { Writes out.span store.old store.new }
    ensures apart { ChangesLevel out level store.old store.new }
    ensures roots { (v : Valuation) (w : Network) → StandsAt circuit.now part.now gates store.old v w → HasRoots part.now out level store.new v w }
    ensures paths { (v : Valuation) (w : Network) → StandsAt circuit.now part.now gates store.old v w → (level < out.source → HasLevel part.now out (level + 1) store.old v w) → HasPaths part.now out level store.new v w }
    ensures few { (u : ℕ) → IsSpanWithin u store.old out.span → Rewrites u out.span store.old store.new }
{
    let _gates = gates;
    take_above(store, part, out, level);
    mark_given(store, circuit, part, rising, out, level);
    mark_holds(store, circuit, part, rising, out, level);
    mark_pins(store, circuit, part, rising, out, level);
}
