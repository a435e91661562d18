//! One single step at every valuation at once.

ghost use Rattle.std.specs.Prelude.{◌≡◌, ◌≢◌, ℕ, ◌+◌, ◌*◌, ◌<◌, Bool, List, length, true, IfOk};
ghost use Rattle.bdd_core.specs.Diagram.{Valuation};
ghost use Rattle.bdd_core.specs.Store.{IsLive, IsSpan};
ghost use Rattle.bdd_core.specs.Words.{IsFilled, Writes, word_at};
ghost use Rattle.bdd_ops.specs.Counting.{Counts};
ghost use Rattle.circuit_faults.specs.Faults.{HasFixedBits};
ghost use Rattle.circuit_faults.specs.KeptResults.{HasKeptSpans};
ghost use Rattle.circuit_faults.specs.Results.{HasCircuitSpans, root_at};
ghost use Rattle.domino_order.specs.StepSettings.{GivesSettings, IsSettledTwice, SettlesAt, StepGives, TwiceGives, start_at, together_at};
ghost use Rattle.domino_order.specs.StepWords.{HasStepHandles, IsRising, KeepsWords, StaysFilled, of_rising, settle_operations, settle_spans, step_operations};
ghost use Rattle.setting_faults.specs.Settling.{WritesSettled};
ghost use Rattle.vrt_model.specs.Comparison.{phase_at};
ghost use Rattle.vrt_model.specs.Lists.{has_number};
ghost use Rattle.vrt_model.specs.State.{Setting};

use bdd_core::{H, ONE, Spent, Store};
use circuit_faults::{CircuitStep, KeptSpans, PhasedCircuit};
use node_pool::Span;
use phase_terms::{Comparison, PhasePlan};
use setting_faults::{first_difference, settle};
use step_roots::take_bits;

/// Inputs that rise in a phase of a comparison without whole instances.
#[derive(Clone, Copy)]
pub struct Rising<'a> {
    /// What is compared.
    pub compared: Comparison<'a>,
    /// The phase, by its number.
    pub phase: u32,
    /// What was made of the phase: the parts of its circuit, without keepers and with them, and the observed nets.
    pub plan: &'a PhasePlan,
    /// The parts without keepers as its only steps, so that no constraint of an instance is asked.
    pub steps: &'a [CircuitStep],
    /// The nets that rise.
    pub nets: &'a [u32],
}

/// The words of a step, one word for each net in each span but the last.
#[derive(Clone, Copy)]
pub struct StepWords {
    /// The bits of nets with given values and the held values, by the valuation; they stay.
    pub given: Span,
    /// The same at the setting that is looked at.
    pub setting: Span,
    /// The bits where the step begins, and then those after the net rose.
    pub rose: Span,
    /// The bits with all of these nets risen at once.
    pub together: Span,
    /// Where 0 reaches a net in the kept circuit.
    pub zeros: Span,
    /// Where 1 reaches it.
    pub ones: Span,
    /// The words in which part after part is solved.
    pub out: Span,
}

/// Whether the circuit settles in the care set, at the setting of `words.setting`; `gates` get the bits.
fn settle_at(
    store: &mut Store,
    rising: Rising<'_>,
    care: H,
    words: StepWords,
    gates: Span,
) -> Result<Option<H>, Spent>
    requires rising { IsRising rising }
    requires care { IsLive store.old care }
    requires bare { HasCircuitSpans rising.compared.circuit.now rising.plan.now.parts.list words.setting gates words.out store.old }
    requires kept { HasKeptSpans rising.compared.circuit.now rising.plan.now.kept.list (settle_spans words gates) store.old }
    requires fixed { (v : Valuation) → HasFixedBits rising.compared.circuit.now (phase_at rising.compared.rules.now rising.phase) (root_at store.old words.setting v) }
    ensures gives { IfOk result (λ found. (n : ℕ) (settings : List Bool → Setting) → GivesSettings (of_rising rising.entry) rising.entry.phase rising.entry.nets.now n settings words.setting store.old → SettlesAt (of_rising rising.entry) rising.entry.phase rising.entry.nets.now n settings care gates store.old store.new found) }
    ensures writes { WritesSettled (settle_spans words gates) store.old store.new }
    ensures live { IsFilled store.new gates }
    ensures counts { Counts store.old.vars (settle_operations rising.entry) store.old store.new result }
{
    store.sound();
    let marks = rising.plan.observed.as_slice();
    let phased = PhasedCircuit {
        design: rising.compared.design,
        rules: rising.compared.rules,
        circuit: rising.compared.circuit,
        phase: rising.phase,
        parts: &rising.plan.parts,
        steps: rising.steps,
        observed: marks,
    };
    let spans = KeptSpans {
        roots: words.setting,
        gates,
        zeros: words.zeros,
        ones: words.ones,
        out: words.out,
    };
    settle(store, phased, &rising.plan.kept, care, spans)
}

/// Lets a net rise in the roots of a setting.
fn raise(store: &mut Store, net: u32, setting: Span)
    requires setting { IsSpan store.old setting × IsFilled store.old setting }
    requires net { net < setting.len }
    ensures writes { Writes setting store.old store.new }
    ensures rest { store.new ≡ record store.old { words = store.new.words } }
    ensures here { word_at store.new setting net ≡ 1 }
    ensures apart { (n : ℕ) → n ≢ net → word_at store.new setting n ≡ word_at store.old setting n }
{
    store.sound();
    store.write(setting, net, ONE.0);
}

/// Looks at the second setting of a step, with the net risen at once. The bits go to `words.together`.
fn look_together(
    store: &mut Store,
    rising: Rising<'_>,
    net: u32,
    care: H,
    words: StepWords,
) -> Result<Option<H>, Spent>
    requires rising { IsRising rising }
    requires net { has_number rising.nets.now net ≡ true }
    requires care { IsLive store.old care }
    requires words { HasStepHandles rising.compared.circuit.now words store.old }
    requires start { GivesSettings (of_rising rising) rising.phase rising.nets.now net (start_at (of_rising rising) rising.phase rising.nets.now) words.setting store.old }
    ensures gives { IfOk result (SettlesAt (of_rising rising.entry) rising.entry.phase rising.entry.nets.now net (together_at (of_rising rising.entry) rising.entry.phase rising.entry.nets.now net) care words.together store.old store.new) }
    ensures setting { GivesSettings (of_rising rising.entry) rising.entry.phase rising.entry.nets.now net (together_at (of_rising rising.entry) rising.entry.phase rising.entry.nets.now net) words.setting store.new }
    ensures rose { StaysFilled words.rose store.old store.new }
    ensures handles { HasStepHandles rising.entry.compared.circuit.now words store.new }
    ensures keeps { KeepsWords store.old store.new }
    ensures counts { Counts store.old.vars (settle_operations rising.entry) store.old store.new result }
{
    store.sound();
    raise(store, net, words.setting);
    settle_at(store, rising, care, words, words.together)
}

/// Looks at the first two settings of a step: where it begins, and with the net risen at once. The bits go to `words.rose` and `words.together`.
fn look_twice(
    store: &mut Store,
    rising: Rising<'_>,
    net: u32,
    care: H,
    words: StepWords,
) -> Result<Option<H>, Spent>
    requires rising { IsRising rising }
    requires net { has_number rising.nets.now net ≡ true }
    requires care { IsLive store.old care }
    requires words { HasStepHandles rising.compared.circuit.now words store.old }
    requires start { GivesSettings (of_rising rising) rising.phase rising.nets.now net (start_at (of_rising rising) rising.phase rising.nets.now) words.setting store.old }
    ensures gives { IfOk result (TwiceGives (of_rising rising.entry) rising.entry.phase rising.entry.nets.now net care words.setting words.rose words.together store.old store.new) }
    ensures handles { HasStepHandles rising.entry.compared.circuit.now words store.new }
    ensures keeps { KeepsWords store.old store.new }
    ensures counts { Counts store.old.vars (2 * settle_operations rising.entry) store.old store.new result }
{
    store.sound();
    match settle_at(store, rising, care, words, words.rose) {
        Ok(None) => {}
        Ok(Some(at)) => return Ok(Some(at)),
        Err(spent) => return Err(spent),
    }
    look_together(store, rising, net, care, words)
}

/// Looks at the third setting of a step, after the net rose, the holds having taken their bits; and compares it with the second on observed nets.
fn look_after(
    store: &mut Store,
    rising: Rising<'_>,
    net: u32,
    care: H,
    words: StepWords,
) -> Result<Option<H>, Spent>
    requires rising { IsRising rising }
    requires care { IsLive store.old care }
    requires words { HasStepHandles rising.compared.circuit.now words store.old }
    requires twice { IsSettledTwice (of_rising rising) rising.phase rising.nets.now net care words.setting words.rose words.together store.old }
    ensures gives { IfOk result (StepGives (of_rising rising.entry) rising.entry.phase rising.entry.nets.now net care store.old store.new) }
    ensures keeps { KeepsWords store.old store.new }
    ensures counts { Counts store.old.vars (settle_operations rising.entry + 3 * length rising.entry.compared.circuit.now.nets) store.old store.new result }
{
    store.sound();
    take_bits(store, rising.compared.circuit, words.rose, words.setting);
    match settle_at(store, rising, care, words, words.rose) {
        Ok(None) => {}
        Ok(Some(at)) => return Ok(Some(at)),
        Err(spent) => return Err(spent),
    }
    let marks = rising.plan.observed.as_slice();
    first_difference(store, marks, care, words.rose, words.together)
}

/// Where in the care set a step fails at which `net` rises, at every valuation at once: somewhere, or None where each holds. `words.setting` has
/// the roots of the setting where the step begins.
///
/// Three settings are looked at: where the step begins, with the net risen at once, and after it rose, the holds having taken their bits.
/// `Spent` comes only where the budget is less than all operations of these with the nodes that were there.
pub fn failing(
    store: &mut Store,
    rising: Rising<'_>,
    net: u32,
    care: H,
    words: StepWords,
) -> Result<Option<H>, Spent>
    requires rising { IsRising rising }
    requires net { has_number rising.nets.now net ≡ true }
    requires care { IsLive store.old care }
    requires words { HasStepHandles rising.compared.circuit.now words store.old }
    requires start { GivesSettings (of_rising rising) rising.phase rising.nets.now net (start_at (of_rising rising) rising.phase rising.nets.now) words.setting store.old }
    ensures gives { IfOk result (StepGives (of_rising rising.entry) rising.entry.phase rising.entry.nets.now net care store.old store.new) }
    ensures keeps { KeepsWords store.old store.new }
    ensures counts { Counts store.old.vars (step_operations rising.entry) store.old store.new result }
{
    store.sound();
    match look_twice(store, rising, net, care, words) {
        Ok(None) => {}
        Ok(Some(at)) => return Ok(Some(at)),
        Err(spent) => return Err(spent),
    }
    look_after(store, rising, net, care, words)
}
