//! The roots of one value: the nets of a part at which a root of the value stands, as strong as its net.

ghost use Rattle.std.specs.Prelude.{IsTrue, ◌≡◌, ℕ, ◌+◌, ◌*◌, ◌^◌, ◌<◌, ◌≤◌, ◌⊎◌, ◌↔◌, true, false, length, IfOk};
ghost use Rattle.bdd_core.specs.Diagram.{IsWithin, Valuation};
ghost use Rattle.bdd_core.specs.Store.{IsLive, IsSpan, function_of};
ghost use Rattle.vrt_model.specs.Levels.{source_level};
ghost use Rattle.vrt_model.specs.Lists.{Among};
ghost use Rattle.vrt_model.specs.Path.{Network};
ghost use Rattle.vrt_model.specs.declared.whole.WholePin.{WholePin as PinValue};
ghost use Rattle.path_fixpoint.specs.Parts.{IsGiven, IsPlace, Rises, IsPartOf, pins_at, pins_of};
ghost use Rattle.path_fixpoint.specs.Reaching.{HasReachPaths, HasReachRoots, HasRootWords, SolvedAt, slot_of};
ghost use Rattle.path_fixpoint.specs.Sources.{AddsRoots, HasDriveLevel, IsGivenSource, IsHoldSource, IsPinSource};
ghost use Rattle.path_fixpoint.specs.Strengths.{ChangesLevel, strong, word_of, HasMarks, net_words};
ghost use Rattle.bdd_core.specs.Words.{IsApart, IsFilled, Writes, word_at};
ghost use Rattle.bdd_ops.specs.Counting.{IsSpanWithin};
ghost use Rattle.path_fixpoint.specs.Spending.{ArePinsWithin, AreRootsWithin, Finds, HasOneHold, IsWordWithin, Rewrites, Spends};

use crate::Part;
use crate::opening::{is_given, set};
use crate::pins::{drive_level, pin_at};
use crate::signals::{root_bit, slot};
use crate::steps::{place, strength, widen, word};
use crate::words::NetWords;
use bdd_core::{H, Spent, Store, ZERO};
use node_pool::Span;
use vrt_model::{Circuit, Net, WholePin};

/// A root: the net at which it stands, the place of its handle among those of the roots, and its level.
#[derive(Clone, Copy)]
struct Source {
    /// The net at which the root stands.
    net: Net,
    /// The place of its handle: the number of the net, and of an output its place behind all nets.
    at: u32,
    /// Its level, from 1 to the source level.
    size: u32,
}

/// Writes the constant 0 into the word of each net for a value.
fn clear(store: &mut Store, part: &Part, out: NetWords, value: bool)
    requires out { HasMarks part.now out store.old }
    ensures writes { Writes out.span store.old store.new }
    ensures apart { ChangesLevel out (slot_of out value) store.old store.new }
    ensures zero { (i : ℕ) → i < length part.now.nets → word_at store.new out.span (word_of out (slot_of out value) i) ≡ 0 }
    ensures few { (u : ℕ) → IsSpanWithin u store.old out.span → Rewrites u out.span store.old store.new }
{
    store.sound();
    for i in 0..part.nets.len() {
        set(store, out.span, word(out, i, slot(out, value)), ZERO);
    }
}

/// A root's bit where its net is no stronger than the root: where its strength is not one level more.
fn unblocked(store: &mut Store, out: NetWords, place: usize, size: u32, bit: H) -> Result<H, Spent>
    requires out { IsSpan store.old out.span × IsFilled store.old out.span }
    requires place { (net_words out.source * place + net_words out.source ≤ out.span.len) × (out.span.len < 2 ^ 32) }
    requires size { (1 ≤ size) × (size ≤ out.source) }
    requires bit { IsLive store.old bit }
    ensures writes { Writes out.span store.old store.new }
    ensures words { store.new.words ≡ store.old.words }
    ensures live { IfOk result (IsLive store.new) }
    ensures is { IfOk result (λ r. (v : Valuation) → (function_of store.new r v ≡ true) ↔ ((function_of store.old bit v ≡ true) × (size < out.source → strong store.old out (size + 1) place v ≡ false))) }
    ensures few { (u : ℕ) → IsSpanWithin u store.old out.span → IsWithin u (function_of store.old bit) → Finds u 1 store.old store.new result }
{
    store.sound();
    if size == out.source as u32 {
        return Ok(bit);
    }
    let above = strength(store, out, Some(place), size + 1);
    store.ite(above, ZERO, bit)
}

/// Marks the net of a root, where the root has the value and the net is no stronger.
fn add_root(
    store: &mut Store,
    part: &Part,
    rising: bool,
    roots: Span,
    out: NetWords,
    source: Source,
    value: bool,
) -> Result<(), Spent>
    requires rising { IsTrue rising → Rises part.now }
    requires part { (i j n : ℕ) → IsPlace part.now i n → IsPlace part.now j n → i ≡ j }
    requires roots { IsSpan store.old roots × IsFilled store.old roots × (source.at < roots.len) }
    requires out { HasMarks part.now out store.old }
    requires size { (1 ≤ source.size) × (source.size ≤ out.source) }
    ensures writes { Writes out.span store.old store.new }
    ensures apart { ChangesLevel out (slot_of out value) store.old store.new }
    ensures adds { IfOk result (λ _. AddsRoots part.now roots out value (λ n at size. (n ≡ source.net.0) × (at ≡ source.at) × (size ≡ source.size)) store.old store.new) }
    ensures few { (u : ℕ) → ((i : ℕ) → IsPlace part.now i source.net.0 → IsWordWithin u store.old roots source.at) → IsSpanWithin u store.old out.span → Spends u 0 out.span store.old store.new result ⊎ ((i : ℕ) × IsPlace part.now i source.net.0 × Spends u 3 out.span store.old store.new result) }
{
    store.sound();
    let Some(i) = place(part, rising, source.net) else {
        return Ok(());
    };
    let bit = match root_bit(store, roots, source.at, value) {
        Ok(bit) => bit,
        Err(spent) => return Err(spent),
    };
    let signal = match unblocked(store, out, i, source.size, bit) {
        Ok(signal) => signal,
        Err(spent) => return Err(spent),
    };
    match widen(store, out.span, word(out, i, slot(out, value)), signal) {
        Ok(_) => Ok(()),
        Err(spent) => Err(spent),
    }
}

/// Marks a net that has a given value, where that is the value.
fn add_net(
    store: &mut Store,
    circuit: &Circuit,
    part: &Part,
    rising: bool,
    roots: Span,
    out: NetWords,
    net: Net,
    value: bool,
) -> Result<(), Spent>
    requires source { out.source ≡ source_level circuit.now }
    requires rising { IsTrue rising → Rises part.now }
    requires part { (i j n : ℕ) → IsPlace part.now i n → IsPlace part.now j n → i ≡ j }
    requires roots { IsSpan store.old roots × IsFilled store.old roots × (net.0 < roots.len) }
    requires out { HasMarks part.now out store.old }
    ensures writes { Writes out.span store.old store.new }
    ensures apart { ChangesLevel out (slot_of out value) store.old store.new }
    ensures adds { IfOk result (λ _. AddsRoots part.now roots out value (λ n at size. IsGiven circuit.now n × (n ≡ net.0) × (at ≡ n) × (size ≡ source_level circuit.now)) store.old store.new) }
    ensures few { (u : ℕ) → (IsGiven circuit.now net.0 → IsWordWithin u store.old roots net.0) → IsSpanWithin u store.old out.span → Spends u 3 out.span store.old store.new result }
{
    store.sound();
    if !is_given(circuit, net) {
        return Ok(());
    }
    let source = Source {
        net,
        at: net.0,
        size: out.source as u32,
    };
    add_root(store, part, rising, roots, out, source, value)
}

/// Marks the nets of the part that have given values, where these are the value.
fn add_given(
    store: &mut Store,
    circuit: &Circuit,
    part: &Part,
    rising: bool,
    gates: Span,
    roots: Span,
    out: NetWords,
    value: bool,
) -> Result<(), Spent>
    requires part { IsPartOf circuit.now part.now rising }
    requires words { HasRootWords circuit.now part.now gates roots out store.old }
    ensures writes { Writes out.span store.old store.new }
    ensures apart { ChangesLevel out (slot_of out value) store.old store.new }
    ensures adds { IfOk result (λ _. AddsRoots part.now roots out value (IsGivenSource circuit.now part.now) store.old store.new) }
    ensures few { (u : ℕ) → AreRootsWithin u circuit.now part.now roots store.old → IsSpanWithin u store.old out.span → Spends u (length part.now.nets * 3) out.span store.old store.new result }
{
    store.sound();
    let _gates = gates;
    for net in part.nets.as_slice() {
        match add_net(store, circuit, part, rising, roots, out, *net, value) {
            Ok(()) => {}
            Err(spent) => return Err(spent),
        }
    }
    Ok(())
}

/// Marks the nets of the holds, where these have the value and their nets are no stronger.
fn add_holds(
    store: &mut Store,
    circuit: &Circuit,
    part: &Part,
    rising: bool,
    gates: Span,
    roots: Span,
    out: NetWords,
    value: bool,
) -> Result<(), Spent>
    requires part { IsPartOf circuit.now part.now rising }
    requires words { HasRootWords circuit.now part.now gates roots out store.old }
    ensures writes { Writes out.span store.old store.new }
    ensures apart { ChangesLevel out (slot_of out value) store.old store.new }
    ensures adds { IfOk result (λ _. AddsRoots part.now roots out value (IsHoldSource circuit.now) store.old store.new) }
    ensures few { HasOneHold circuit.now → (u : ℕ) → AreRootsWithin u circuit.now part.now roots store.old → IsSpanWithin u store.old out.span → Spends u (length part.now.nets * 3) out.span store.old store.new result }
{
    store.sound();
    let _gates = gates;
    for hold in circuit.holds.as_slice() {
        let source = Source {
            net: hold.net,
            at: hold.net.0,
            size: hold.size as u32,
        };
        match add_root(store, part, rising, roots, out, source, value) {
            Ok(()) => {}
            Err(spent) => return Err(spent),
        }
    }
    Ok(())
}

/// Marks the nets of these outputs, whose handles stand one behind the other from a place on, where these have the value and
/// their nets are no stronger.
fn add_outputs(
    store: &mut Store,
    part: &Part,
    rising: bool,
    roots: Span,
    out: NetWords,
    outputs: &[WholePin],
    first: u32,
    value: bool,
) -> Result<(), Spent>
    requires rising { IsTrue rising → Rises part.now }
    requires part { (i j n : ℕ) → IsPlace part.now i n → IsPlace part.now j n → i ≡ j }
    requires roots { IsSpan store.old roots × IsFilled store.old roots × IsApart roots out.span }
    requires handles { first + length outputs.now ≤ roots.len }
    requires levels { (pin : PinValue) → Among outputs.now pin → HasDriveLevel out.source pin }
    requires out { HasMarks part.now out store.old }
    ensures writes { Writes out.span store.old store.new }
    ensures apart { ChangesLevel out (slot_of out value) store.old store.new }
    ensures adds { IfOk result (λ _. AddsRoots part.now roots out value (IsPinSource out.source outputs.now first) store.old store.new) }
    ensures few { (u : ℕ) → ArePinsWithin u part.now outputs.now first roots store.old → IsSpanWithin u store.old out.span → Spends u (pins_at part.now outputs.now * 3) out.span store.old store.new result }
{
    store.sound();
    for at in 0..outputs.len() {
        let pin = pin_at(outputs, at);
        let source = Source {
            net: pin.net,
            at: first + at as u32,
            size: drive_level(out.source, pin.drive),
        };
        match add_root(store, part, rising, roots, out, source, value) {
            Ok(()) => {}
            Err(spent) => return Err(spent),
        }
    }
    Ok(())
}

/// Marks the nets of the outputs of whole instances, where these have the value and their nets are no stronger.
fn add_pins(
    store: &mut Store,
    circuit: &Circuit,
    part: &Part,
    rising: bool,
    gates: Span,
    roots: Span,
    out: NetWords,
    value: bool,
) -> Result<(), Spent>
    requires part { IsPartOf circuit.now part.now rising }
    requires words { HasRootWords circuit.now part.now gates roots out store.old }
    ensures writes { Writes out.span store.old store.new }
    ensures apart { ChangesLevel out (slot_of out value) store.old store.new }
    ensures adds { IfOk result (λ _. AddsRoots part.now roots out value (IsPinSource out.source (pins_of circuit.now) (length circuit.now.nets)) store.old store.new) }
    ensures few { (u : ℕ) → AreRootsWithin u circuit.now part.now roots store.old → IsSpanWithin u store.old out.span → Spends u (pins_at part.now (pins_of circuit.now) * 3) out.span store.old store.new result }
{
    store.sound();
    let _gates = gates;
    let mut first = circuit.nets.len() as u32;
    for whole in circuit.wholes.as_slice() {
        let outputs = whole.outputs.as_slice();
        match add_outputs(store, part, rising, roots, out, outputs, first, value) {
            Ok(()) => {}
            Err(spent) => return Err(spent),
        }
        first += outputs.len() as u32;
    }
    Ok(())
}

/// Begins a value: with the roots that have it and are as strong as their nets.
pub(crate) fn open(
    store: &mut Store,
    circuit: &Circuit,
    part: &Part,
    rising: bool,
    gates: Span,
    roots: Span,
    out: NetWords,
    value: bool,
) -> Result<(), Spent>
    requires part { IsPartOf circuit.now part.now rising }
    requires words { HasRootWords circuit.now part.now gates roots out store.old }
    ensures writes { Writes out.span store.old store.new }
    ensures apart { ChangesLevel out (slot_of out value) store.old store.new }
    ensures roots { IfOk result (λ _. (v : Valuation) (w : Network) (s : ℕ → ℕ) → SolvedAt circuit.now part.now gates roots out store.old v w s → HasReachRoots circuit.now part.now out value store.new v w s) }
    ensures paths { IfOk result (λ _. (v : Valuation) (w : Network) (s : ℕ → ℕ) → SolvedAt circuit.now part.now gates roots out store.old v w s → HasReachPaths part.now out value store.new v w s) }
    ensures few { HasOneHold circuit.now → (u : ℕ) → AreRootsWithin u circuit.now part.now roots store.old → IsSpanWithin u store.old out.span → Spends u (length part.now.nets * 6 + pins_at part.now (pins_of circuit.now) * 3) out.span store.old store.new result }
{
    clear(store, part, out, value);
    match add_given(store, circuit, part, rising, gates, roots, out, value) {
        Ok(()) => {}
        Err(spent) => return Err(spent),
    }
    match add_holds(store, circuit, part, rising, gates, roots, out, value) {
        Ok(()) => {}
        Err(spent) => return Err(spent),
    }
    add_pins(store, circuit, part, rising, gates, roots, out, value)
}
