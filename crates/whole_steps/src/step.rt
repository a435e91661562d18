//! The bit of an output of a whole instance, written to the word of the output.

ghost use Rattle.std.specs.Prelude.{◌≡◌, ℕ, ◌+◌, ◌<◌, ◌≤◌, Some, length, slice_set, IfOk};
ghost use Rattle.bdd_core.specs.Store.{IsSpan};
ghost use Rattle.bdd_core.specs.Words.{IsApart, IsFilled, Writes, WritesTwo, word_at};
ghost use Rattle.bdd_ops.specs.Counting.{Counts, IsSpanWithin};
ghost use Rattle.vrt_model.specs.Lists.{At};
ghost use Rattle.vrt_model.specs.Networks.{HasRanges};
ghost use Rattle.vrt_model.specs.State.{OutputPin, output_pins};
ghost use Rattle.vrt_model.specs.declared.whole.Whole.{Whole as WholeValue};
ghost use Rattle.whole_steps.specs.Evaluations.{HasEvaluated, is_evaluated, output_operations};
ghost use Rattle.whole_steps.specs.Tables.{HasModelRoom, IsOutput, IsWholeTable, OutputGives, output_words};
ghost use Rattle.whole_steps.specs.Words.{found_words, model_span, model_words};

use crate::output::{evaluate_whole, found_words};
use crate::table::{OutputPlace, WholeTable, pin_at, plan_at, whole_at};
use bdd_core::{Spent, Store};
use node_pool::Span;
use vrt_model::{Circuit, FlatModel, Phase, Whole, WholePin};

/// The words in which a model is evaluated, among those for the greatest.
fn words_of(flat: &FlatModel, out: Span) -> Span
    requires { model_words flat.now ≤ out.len }
    ensures { result ≡ model_span flat.now out }
{
    let count = flat.signals.len() as u32;
    Span {
        start: out.start,
        len: count + 1 + count,
    }
}

/// Whether the instance of a number is the one whose model was evaluated last.
fn is_evaluated(last: Option<usize>, number: usize) -> bool
    ensures { result ≡ is_evaluated last number }
{
    match last {
        Some(last) => last == number,
        None => false,
    }
}

/// Evaluates the model of a whole instance, where what is found of it does not stand in `out` already.
fn evaluate_at(
    store: &mut Store,
    circuit: &Circuit,
    wholes: WholeTable<'_>,
    phase: &Phase,
    number: usize,
    last: Option<usize>,
    gates: Span,
    out: Span,
) -> Result<(), Spent>
    requires circuit { HasRanges circuit.now }
    requires wholes { IsWholeTable circuit.now wholes.drivers.now wholes.plans.now }
    requires there { number < length circuit.now.wholes }
    requires gates { IsSpan store.old gates × IsFilled store.old gates × (gates.len ≡ length circuit.now.nets) }
    requires out { IsSpan store.old out × HasModelRoom circuit.now out }
    requires apart { IsApart gates out }
    requires last { HasEvaluated circuit.now phase.now last gates out store.old }
    ensures writes { (w : WholeValue) → At circuit.now.wholes number w → Writes (model_span w.model out) store.old store.new }
    ensures found { IfOk result (λ _. HasEvaluated circuit.now phase.now (Some number) gates out store.new) }
    ensures counts { (w : WholeValue) → At circuit.now.wholes number w → (u : ℕ) → IsSpanWithin u store.old gates → Counts u (output_operations last number w) store.old store.new result }
{
    store.sound();
    if is_evaluated(last, number) {
        return Ok(());
    }
    let whole = whole_at(circuit, number);
    let plan = plan_at(wholes.plans, number);
    let words = words_of(&whole.model, out);
    evaluate_whole(store, whole, plan, phase, gates, words)
}

/// Copies the handle that was found of an output's signal to the word of the output.
fn copy_bit(store: &mut Store, whole: &Whole, pin: WholePin, number: usize, pins: Span, out: Span)
    requires out { IsSpan store.old out × (model_words whole.now.model ≤ out.len) × IsFilled store.old (model_span whole.now.model out) }
    requires pin { pin.signal < length whole.now.model.signals }
    requires pins { IsSpan store.old pins × (number < pins.len) }
    ensures { store.new ≡ record store.old { words = slice_set store.old.words (pins.start + number) (word_at store.old (found_words whole.now.model out) pin.signal) } }
{
    let _count = store.mark();
    let found = found_words(&whole.model, out);
    let bit = store.read(found, pin.signal);
    store.write(pins, number as u32, bit);
}

/// Writes the bit that the model of a whole instance gives an output in a phase to the word of the output among `pins`, which begins
/// with a word for each, where `gates` has for each net of the circuit the function of its bit. `out` has the words in which models
/// are evaluated. Where it has what was found of this very instance, which is the `last` one, its model is not evaluated again.
///
/// Handles from before keep their functions, and words outside those of the outputs and `out` stay as they are, also where the budget
/// is used up.
///
/// Where the handles of `gates` and `pins` read only the first `u` variables, so do those of `pins` afterwards, and at most two
/// operations of `2 ^ u` nodes are made for each literal and row of the model, and none where it is not evaluated. `Spent` comes only
/// where the budget is less than the nodes of these with those that were there.
pub fn write_output(
    store: &mut Store,
    circuit: &Circuit,
    wholes: WholeTable<'_>,
    phase: &Phase,
    place: OutputPlace,
    last: Option<usize>,
    gates: Span,
    pins: Span,
    out: Span,
) -> Result<(), Spent>
    requires circuit { HasRanges circuit.now }
    requires wholes { IsWholeTable circuit.now wholes.drivers.now wholes.plans.now }
    requires place { (o : OutputPin) × IsOutput circuit.now (output_pins circuit.now) place o }
    requires gates { IsSpan store.old gates × IsFilled store.old gates × (gates.len ≡ length circuit.now.nets) }
    requires pins { IsSpan store.old pins × IsFilled store.old pins × (length (output_pins circuit.now) ≤ pins.len) }
    requires out { IsSpan store.old out × HasModelRoom circuit.now out }
    requires apart { IsApart gates out × IsApart pins out × IsApart gates pins }
    requires last { HasEvaluated circuit.now phase.now last gates out store.old }
    ensures writes { WritesTwo (output_words circuit.now pins) out store.old store.new }
    ensures live { IsFilled store.new pins }
    ensures gives { IfOk result (λ _. (o : OutputPin) → IsOutput circuit.now (output_pins circuit.now) place o → OutputGives phase.now place.number o gates pins store.old store.new) }
    ensures found { IfOk result (λ _. HasEvaluated circuit.now phase.now (Some place.whole) gates out store.new) }
    ensures within { IfOk result (λ _. (u : ℕ) → IsSpanWithin u store.old gates → IsSpanWithin u store.old pins → IsSpanWithin u store.new pins) }
    ensures counts { (o : OutputPin) → IsOutput circuit.now (output_pins circuit.now) place o → (u : ℕ) → IsSpanWithin u store.old gates → Counts u (output_operations last place.whole o.whole) store.old store.new result }
{
    store.sound();
    let whole = whole_at(circuit, place.whole);
    let pin = pin_at(whole, place.output);
    match evaluate_at(store, circuit, wholes, phase, place.whole, last, gates, out) {
        Ok(()) => {}
        Err(spent) => return Err(spent),
    }
    copy_bit(store, whole, pin, place.number, pins, out);
    Ok(())
}
