//! The strengths of the nets of a part, level by level.

ghost use Rattle.std.specs.Prelude.{◌≡◌, ℕ, ◌+◌, ◌*◌, ◌<◌, ◌≤◌, true, false, length, IfOk};
ghost use Rattle.bdd_core.specs.Diagram.{Valuation};
ghost use Rattle.bdd_core.specs.Store.{IsSpan};
ghost use Rattle.vrt_model.specs.Networks.{HasRanges};
ghost use Rattle.vrt_model.specs.Levels.{source_level};
ghost use Rattle.vrt_model.specs.Path.{Network};
ghost use Rattle.path_fixpoint.specs.Openings.{IsUnused, NoDeviceHas, NoHoldHas, NoPinHas};
ghost use Rattle.path_fixpoint.specs.Parts.{IsPart, IsPartOf, pins_of};
ghost use Rattle.path_fixpoint.specs.Strengths.{ChangesLevel, HasLevel, HasSpans, HasWords, StandsAt, TellsStrengths};
ghost use Rattle.bdd_core.specs.Words.{Writes};
ghost use Rattle.bdd_ops.specs.Counting.{IsSpanWithin};
ghost use Rattle.path_fixpoint.specs.Spending.{AreGatesWithin, Rewrites, Spends};

use crate::Part;
use crate::direction::Direction;
use crate::opening::{open, take_above};
use crate::pins::{drive_level, pin_at};
use crate::ranges::rises;
use crate::rounds::settle;
use crate::steps::visited;
use crate::words::NetWords;
use bdd_core::{Spent, Store};
use node_pool::Span;
use vrt_model::{Circuit, WholePin};

/// Writes the constant 0 into each word of a span.
fn clear(store: &mut Store, out: Span)
    requires out { IsSpan store.old out }
    ensures writes { Writes out store.old store.new }
    ensures few { (u : ℕ) → Rewrites u out store.old store.new }
{
    store.sound();
    for at in 0..out.len {
        store.write(out, at, 0);
    }
}

/// Whether no device of the part has exactly the level.
fn no_device_has(circuit: &Circuit, part: &Part, level: u32) -> bool
    requires { IsPart circuit.now part.now }
    ensures { result ≡ true → NoDeviceHas circuit.now part.now level }
{
    for step in 0..part.devices.len() {
        let device = visited(circuit, part, Direction::Forward, step);
        if device.level as u32 == level {
            return false;
        }
    }
    true
}

/// Whether no hold has exactly the level.
fn no_hold_has(circuit: &Circuit, level: u32) -> bool
    ensures { result ≡ true → NoHoldHas circuit.now level }
{
    for hold in circuit.holds.as_slice() {
        if hold.size as u32 == level {
            return false;
        }
    }
    true
}

/// Whether no output of a whole instance has exactly the level, where a soft one has the source level.
fn no_output_has(source: u8, outputs: &[WholePin], level: u32) -> bool
    ensures { result ≡ true → NoPinHas source outputs.now level }
{
    for at in 0..outputs.len() {
        let pin = pin_at(outputs, at);
        if drive_level(source, pin.drive) == level {
            return false;
        }
    }
    true
}

/// Whether no output of the whole instances has exactly the level.
fn no_pin_has(circuit: &Circuit, level: u32) -> bool
    ensures { result ≡ true → NoPinHas (source_level circuit.now) (pins_of circuit.now) level }
{
    let source = circuit.source_level();
    for whole in circuit.wholes.as_slice() {
        if !no_output_has(source, whole.outputs.as_slice(), level) {
            return false;
        }
    }
    true
}

/// Whether a level is below the source level, and no device of the part and no root has exactly it.
fn is_unused(circuit: &Circuit, part: &Part, level: u32) -> bool
    requires { IsPart circuit.now part.now }
    ensures { result ≡ true → IsUnused circuit.now part.now level }
{
    if level >= circuit.source_level() as u32 {
        return false;
    }
    if !no_device_has(circuit, part, level) {
        return false;
    }
    if !no_hold_has(circuit, level) {
        return false;
    }
    no_pin_has(circuit, level)
}

/// Writes for each net of the part whether its strength is at least a level, where it is written for the level above. A
/// level that nothing has takes no rounds: its words are those of the level above.
fn make_level(
    store: &mut Store,
    circuit: &Circuit,
    part: &Part,
    rising: bool,
    gates: Span,
    out: NetWords,
    level: u32,
) -> Result<(), Spent>
    requires part { IsPartOf circuit.now part.now rising }
    requires words { HasWords circuit.now part.now gates out store.old }
    requires level { (1 ≤ level) × (level ≤ out.source) }
    ensures writes { Writes out.span store.old store.new }
    ensures apart { ChangesLevel out level store.old store.new }
    ensures level { IfOk result (λ _. (v : Valuation) (w : Network) → StandsAt circuit.now part.now gates store.old v w → (level < out.source → HasLevel part.now out (level + 1) store.old v w) → HasLevel part.now out level store.new v w) }
    ensures few { (u : ℕ) → AreGatesWithin u circuit.now part.now gates store.old → IsSpanWithin u store.old out.span → Spends u (length part.now.nets * (length part.now.devices * 4)) out.span store.old store.new result }
{
    if is_unused(circuit, part, level) {
        take_above(store, part, out, level);
        return Ok(());
    }
    open(store, circuit, part, rising, gates, out, level);
    settle(store, circuit, part, rising, gates, out, level)
}

/// Writes for each net of the part whether its strength is at least each level, from the source level down to 1.
fn levels(
    store: &mut Store,
    circuit: &Circuit,
    part: &Part,
    rising: bool,
    gates: Span,
    out: NetWords,
) -> Result<(), Spent>
    requires part { IsPartOf circuit.now part.now rising }
    requires words { HasWords circuit.now part.now gates out store.old }
    ensures writes { Writes out.span store.old store.new }
    ensures levels { IfOk result (λ _. (v : Valuation) (w : Network) → StandsAt circuit.now part.now gates store.old v w → (level : ℕ) → 1 ≤ level → level ≤ source_level circuit.now → HasLevel part.now out level store.new v w) }
    ensures few { (u : ℕ) → AreGatesWithin u circuit.now part.now gates store.old → IsSpanWithin u store.old out.span → Spends u (source_level circuit.now * (length part.now.nets * (length part.now.devices * 4))) out.span store.old store.new result }
{
    store.sound();
    let source = out.source as u32;
    for done in 0..source {
        match make_level(store, circuit, part, rising, gates, out, source - done) {
            Ok(()) => {}
            Err(spent) => return Err(spent),
        }
    }
    Ok(())
}

/// Writes for each net of a part, as diagrams over all valuations, whether its strength is at least each level from 1 to
/// the source level: the word of the net at place `i` for a level is number `net_words(out.source) * i + level - 1` of `out`. `gates` has the handle of each net of the
/// circuit. At each valuation the network is that of the part's devices, with the gates' bits as their handles say.
///
/// Handles from before keep their functions and words outside `out` stay as they are, also where the budget is used up.
pub fn strengths(
    store: &mut Store,
    circuit: &Circuit,
    part: &Part,
    gates: Span,
    out: NetWords,
) -> Result<(), Spent>
    requires circuit { HasRanges circuit.now }
    requires part { IsPart circuit.now part.now }
    requires spans { HasSpans circuit.now part.now gates out store.old }
    ensures writes { Writes out.span store.old store.new }
    ensures strengths { IfOk result (λ _. (v : Valuation) (w : Network) → StandsAt circuit.now part.now gates store.old v w → TellsStrengths circuit.now part.now out store.new v w) }
    ensures few { (u : ℕ) → AreGatesWithin u circuit.now part.now gates store.old → Spends u (source_level circuit.now * (length part.now.nets * (length part.now.devices * 4))) out.span store.old store.new result }
{
    clear(store, out.span);
    let rising = rises(part);
    levels(store, circuit, part, rising, gates, out)
}
