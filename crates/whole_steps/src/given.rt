//! What the model of a whole instance is given: the bits of clocks, and the handles of the nets at its input pins.

ghost use Rattle.std.specs.Prelude.{◌≡◌, ◌≢◌, ℕ, ◌+◌, ◌<◌, cond, length};
ghost use Rattle.bdd_core.specs.Store.{IsSpan};
ghost use Rattle.bdd_core.specs.Words.{IsApart, IsFilled, Writes, word_at};
ghost use Rattle.bdd_ops.specs.Counting.{IsSpanWithin};
ghost use Rattle.vrt_model.specs.Lists.{Among};
ghost use Rattle.vrt_model.specs.Reading.{clock_bit};
ghost use Rattle.vrt_model.specs.declared.pairing.ClockedSignal.{ClockedSignal as ClockedValue};
ghost use Rattle.vrt_model.specs.declared.whole.WholePin.{WholePin as PinValue};
ghost use Rattle.whole_steps.specs.Logic.{IsLogicWhole};
ghost use Rattle.whole_steps.specs.Words.{AreGiven};

use bdd_core::{H, ONE, Store, ZERO};
use node_pool::Span;
use vrt_model::{ClockRef, ClockedSignal, Phase, Whole, WholePin};

/// The bit of a carried clock in a phase.
fn bit_of_clock(phase: &Phase, clock: ClockRef) -> bool
    ensures { result ≡ clock_bit phase.now clock }
{
    let bit = match phase.bits.get(clock.clock as usize) {
        Some(bit) => *bit,
        None => false,
    };
    if clock.inverted { !bit } else { bit }
}

/// The constant of a bit.
fn constant(bit: bool) -> H
    ensures { result.0 ≡ cond bit 1 0 }
{
    if bit { ONE } else { ZERO }
}

/// Writes the constant 0 into each word.
fn clear(store: &mut Store, given: Span)
    requires given { IsSpan store.old given }
    ensures writes { Writes given store.old store.new }
    ensures rest { store.new ≡ record store.old { words = store.new.words } }
    ensures zeros { (k : ℕ) → k < given.len → word_at store.new given k ≡ 0 }
{
    store.sound();
    for at in 0..given.len {
        store.write(given, at, 0);
    }
}

/// Writes the bit of the clock that a signal carries, as a constant.
fn give_clock(store: &mut Store, phase: &Phase, one: ClockedSignal, given: Span)
    requires given { IsSpan store.old given × IsFilled store.old given }
    requires within { one.signal < given.len }
    ensures writes { Writes given store.old store.new }
    ensures rest { store.new ≡ record store.old { words = store.new.words } }
    ensures clock { word_at store.new given one.signal ≡ cond (clock_bit phase.now one.clock) 1 0 }
    ensures others { (s : ℕ) → s ≢ one.signal → word_at store.new given s ≡ word_at store.old given s }
    ensures within { (u : ℕ) → IsSpanWithin u store.old given → IsSpanWithin u store.new given }
{
    store.sound();
    let bit = constant(bit_of_clock(phase, one.clock));
    store.write(given, one.signal, bit.0);
}

/// Writes the bits of the clocks that signals carry. Words of other signals stay.
fn give_clocks(store: &mut Store, phase: &Phase, clocked: &[ClockedSignal], given: Span)
    requires given { IsSpan store.old given × IsFilled store.old given }
    requires within { (c : ClockedValue) → Among clocked.now c → c.signal < given.len }
    requires one { (c d : ClockedValue) → Among clocked.now c → Among clocked.now d → c.signal ≡ d.signal → c.clock ≡ d.clock }
    ensures writes { Writes given store.old store.new }
    ensures rest { store.new ≡ record store.old { words = store.new.words } }
    ensures clocked { (c : ClockedValue) → Among clocked.now c → word_at store.new given c.signal ≡ cond (clock_bit phase.now c.clock) 1 0 }
    ensures others { (s : ℕ) → ((c : ClockedValue) → Among clocked.now c → c.signal ≢ s) → word_at store.new given s ≡ word_at store.old given s }
    ensures within { (u : ℕ) → IsSpanWithin u store.old given → IsSpanWithin u store.new given }
{
    store.sound();
    for one in clocked {
        give_clock(store, phase, *one, given);
    }
}

/// Writes the handle of the net at an input pin as that of its signal.
fn give_pin(store: &mut Store, pin: WholePin, gates: Span, given: Span)
    requires gates { IsSpan store.old gates × IsFilled store.old gates }
    requires given { IsSpan store.old given × IsFilled store.old given }
    requires within { (pin.net.0 < gates.len) × (pin.signal < given.len) }
    ensures writes { Writes given store.old store.new }
    ensures rest { store.new ≡ record store.old { words = store.new.words } }
    ensures pin { word_at store.new given pin.signal ≡ word_at store.old gates pin.net.0 }
    ensures others { (s : ℕ) → s ≢ pin.signal → word_at store.new given s ≡ word_at store.old given s }
    ensures within { (u : ℕ) → IsSpanWithin u store.old gates → IsSpanWithin u store.old given → IsSpanWithin u store.new given }
{
    store.sound();
    let handle = store.read(gates, pin.net.0);
    store.write(given, pin.signal, handle);
}

/// Writes the handles of the nets at input pins as those of their signals. Words of other signals stay.
fn give_pins(store: &mut Store, pins: &[WholePin], gates: Span, given: Span)
    requires gates { IsSpan store.old gates × IsFilled store.old gates }
    requires given { IsSpan store.old given × IsFilled store.old given }
    requires apart { IsApart gates given }
    requires within { (p : PinValue) → Among pins.now p → (p.net.0 < gates.len) × (p.signal < given.len) }
    requires one { (p q : PinValue) → Among pins.now p → Among pins.now q → p.signal ≡ q.signal → p.net ≡ q.net }
    ensures writes { Writes given store.old store.new }
    ensures rest { store.new ≡ record store.old { words = store.new.words } }
    ensures tied { (p : PinValue) → Among pins.now p → word_at store.new given p.signal ≡ word_at store.old gates p.net.0 }
    ensures others { (s : ℕ) → ((p : PinValue) → Among pins.now p → p.signal ≢ s) → word_at store.new given s ≡ word_at store.old given s }
    ensures within { (u : ℕ) → IsSpanWithin u store.old gates → IsSpanWithin u store.old given → IsSpanWithin u store.new given }
{
    store.sound();
    for pin in pins {
        give_pin(store, *pin, gates, given);
    }
}

/// Writes what the model of a whole instance is given in a phase, where `gates` has a handle for each net: for each signal that
/// carries a clock its bit, for each at an input pin the handle of its net, and the constant 0 for the others and for the default
/// clock.
pub(crate) fn give(store: &mut Store, whole: &Whole, phase: &Phase, gates: Span, given: Span)
    requires whole { IsLogicWhole whole.now }
    requires gates { IsSpan store.old gates × IsFilled store.old gates }
    requires given { IsSpan store.old given × (given.len ≡ length whole.now.model.signals + 1) }
    requires apart { IsApart gates given }
    requires nets { (p : PinValue) → Among whole.now.inputs p → p.net.0 < gates.len }
    ensures writes { Writes given store.old store.new }
    ensures rest { store.new ≡ record store.old { words = store.new.words } }
    ensures given { AreGiven whole.now phase.now gates given store.old store.new }
    ensures within { (u : ℕ) → IsSpanWithin u store.old gates → IsSpanWithin u store.new given }
{
    store.sound();
    clear(store, given);
    give_clocks(store, phase, whole.clocked.as_slice(), given);
    give_pins(store, whole.inputs.as_slice(), gates, given);
}
