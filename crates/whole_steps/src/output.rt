//! The model of a whole instance evaluated: the bit of each of its signals, at the bits of the nets at its inputs.

ghost use Rattle.std.specs.Prelude.{◌≡◌, ℕ, ◌+◌, ◌<◌, length, IfOk};
ghost use Rattle.bdd_core.specs.Store.{IsSpan};
ghost use Rattle.bdd_core.specs.Words.{IsApart, IsFilled, Writes};
ghost use Rattle.bdd_ops.specs.Counting.{Counts, IsSpanWithin};
ghost use Rattle.blif_eval.specs.Plans.{IsPlan};
ghost use Rattle.vrt_model.specs.Lists.{Among};
ghost use Rattle.vrt_model.specs.declared.whole.WholePin.{WholePin as PinValue};
ghost use Rattle.whole_steps.specs.Evaluations.{IsEvaluatedIn, evaluation_operations};
ghost use Rattle.whole_steps.specs.Logic.{IsLogicWhole, nothing_known};
ghost use Rattle.whole_steps.specs.Words.{found_words, given_words, model_words, no_words};

use crate::given::give;
use bdd_core::{Spent, Store};
use blif_eval::{ModelPlan, eval_model};
use node_pool::Span;
use vrt_model::{FlatModel, Phase, Whole};

/// The words of what a model is given, among those in which it is evaluated.
fn given_words(flat: &FlatModel, out: Span) -> Span
    requires { length flat.now.signals + 1 < 4294967296 }
    ensures { result ≡ given_words flat.now out }
{
    Span {
        start: out.start,
        len: flat.signals.len() as u32 + 1,
    }
}

/// The words of what is found, behind those of what is given.
pub(crate) fn found_words(flat: &FlatModel, out: Span) -> Span
    requires { out.start + (length flat.now.signals + 1) < 4294967296 }
    ensures { result ≡ found_words flat.now out }
{
    let count = flat.signals.len() as u32;
    Span {
        start: out.start + (count + 1),
        len: count,
    }
}

/// No words, for the elements of a model without latches.
fn no_words(out: Span) -> Span
    ensures { result ≡ no_words out }
{
    Span {
        start: out.start,
        len: 0,
    }
}

/// Evaluates the model of a whole instance in a phase, where `gates` has for each net of the circuit the function of its bit: `out`
/// then has the bit of each signal, behind what the model was given. `out` has the words in which the model is evaluated: two for each
/// signal and one more.
///
/// Handles from before keep their functions, and words outside `out` stay as they are, also where the budget is used up. Where the
/// handles of `gates` read only the first `u` variables, so do those that are found, and at most two operations of `2 ^ u` nodes are made
/// for each literal and row of the model.
pub(crate) fn evaluate_whole(
    store: &mut Store,
    whole: &Whole,
    plan: &ModelPlan,
    phase: &Phase,
    gates: Span,
    out: Span,
) -> Result<(), Spent>
    requires whole { IsLogicWhole whole.now }
    requires plan { IsPlan whole.now.model (nothing_known whole.now.model) plan.now }
    requires gates { IsSpan store.old gates × IsFilled store.old gates }
    requires nets { (p : PinValue) → Among whole.now.inputs p → p.net.0 < gates.len }
    requires out { IsSpan store.old out × (out.len ≡ model_words whole.now.model) }
    requires apart { IsApart gates out }
    ensures writes { Writes out store.old store.new }
    ensures found { IfOk result (λ _. IsEvaluatedIn phase.now whole.now gates out store.new) }
    ensures counts { (u : ℕ) → IsSpanWithin u store.old gates → Counts u (evaluation_operations whole.now) store.old store.new result }
{
    store.sound();
    let _count = store.mark();
    let given = given_words(&whole.model, out);
    let found = found_words(&whole.model, out);
    let held = no_words(out);
    give(store, whole, phase, gates, given);
    eval_model(store, &whole.model, plan, given, held, found)
}
