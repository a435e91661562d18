//! Where a run over a port begins: the phase is opened, and its words are taken.

ghost use Rattle.std.specs.Prelude.{◌≡◌, ℕ, ◌+◌, ◌*◌, ◌<◌, ◌≤◌, ◌++◌, length, replicate, IfErr, IfOk};
ghost use Rattle.bdd_core.specs.Diagram.{Valuation as Bits};
ghost use Rattle.bdd_core.specs.Words.{IsFilled, shows};
ghost use Rattle.domino_order.specs.Runs.{IsAsked, IsPrepared, IsRoomFor, MayPass, asked_variables, run_operations};
ghost use Rattle.domino_order.specs.StepWords.{HasStepHandles, HasStepWords, KeepsWords, StaysFilled};
ghost use Rattle.path_fixpoint.specs.Strengths.{net_words};
ghost use Rattle.phase_check.specs.States.{KeepsRoom};
ghost use Rattle.phase_open.specs.Given.{AreFew};
ghost use Rattle.phase_terms.specs.Stores.{HasPhaseWords, word_count};
ghost use Rattle.phase_terms.specs.declared.words.WordCounts.{WordCounts as CountsValue};
ghost use Rattle.vrt_model.specs.Levels.{source_level};

use crate::step::{Rising, StepWords};
use bdd_core::{H, Spent, Store};
use node_pool::Span;
use phase_open::{open_phase, take_words};
use phase_terms::{PhaseWords, WordCounts};
use step_roots::copy_handles;
use vrt_model::{Circuit, Vars};

/// What is asked of inputs that rise in a phase.
#[derive(Clone, Copy)]
pub struct Asked<'a> {
    /// The inputs that rise.
    pub rising: Rising<'a>,
    /// The variables of the phase.
    pub vars: &'a Vars,
    /// Their numbers, in their order.
    pub order: &'a [u32],
    /// The variable of each net that rises.
    pub arrivals: &'a [u32],
    /// How many words the phase has in a store with these variables.
    pub counts: WordCounts,
}

/// The words of a run.
#[derive(Clone, Copy)]
pub struct RunWords {
    /// Those of the phase.
    pub phase: PhaseWords,
    /// Those of a step, of which some are words of the phase.
    pub steps: StepWords,
}

/// What stands in the store where a run begins.
#[derive(Clone, Copy)]
pub struct Prepared {
    /// The valuations that meet the constraints of the phase.
    pub care: H,
    /// The words of a step.
    pub words: StepWords,
    /// One word for each variable, in which the least valuation is found.
    pub least: Span,
}

/// A span of so many words more, which are there.
fn taken(store: &mut Store, len: u32) -> Span
    requires room { length store.old.words + len ≤ store.old.word_room }
    ensures is { result ≡ record { start = length store.old.words; len = len } }
    ensures taken { store.new ≡ record store.old { words = store.old.words ++ replicate len 0 } }
{
    match store.take_span(len) {
        Some(span) => span,
        None => Span { start: 0, len: 0 },
    }
}

/// The words of a step, behind those of a phase; of these it has the roots, the gates, and the words in which parts are solved.
fn step_words(store: &mut Store, circuit: &Circuit, words: PhaseWords) -> StepWords
    requires words { (c : CountsValue) × HasPhaseWords c words store.old × (c.nets ≡ length circuit.now.nets) × (c.pins ≡ 0) }
    requires out { net_words (source_level circuit.now) * length circuit.now.nets ≤ words.out.len }
    requires few { length circuit.now.nets ≤ 20000 }
    requires room { length store.old.words + 2 * length circuit.now.nets ≤ store.old.word_room }
    ensures words { HasStepWords circuit.now result store.new }
    ensures given { result.given.start ≡ words.roots.start }
    ensures taken { store.new ≡ record store.old { words = store.old.words ++ replicate (2 * length circuit.now.nets) 0 } }
{
    store.sound();
    let nets = circuit.nets.len() as u32;
    let more = taken(store, 2 * nets);
    let _end = store.mark();
    StepWords {
        given: Span {
            start: words.roots.start,
            len: nets,
        },
        setting: Span {
            start: more.start,
            len: nets,
        },
        rose: words.gates,
        together: Span {
            start: more.start + nets,
            len: nets,
        },
        zeros: words.zeros,
        ones: words.ones,
        out: words.out,
    }
}

/// Takes the words of a run, those of the steps behind those of the phase. No node is made.
fn run_words(store: &mut Store, circuit: &Circuit, counts: WordCounts) -> RunWords
    requires few { AreFew counts }
    requires pins { counts.pins ≡ 0 }
    requires nets { counts.nets ≡ length circuit.now.nets }
    requires source { counts.source ≡ source_level circuit.now }
    requires room { length store.old.words + word_count counts + 2 * counts.nets ≤ store.old.word_room }
    requires own { store.old.own ≤ length store.old.words }
    ensures phase { HasPhaseWords counts result.phase store.new }
    ensures roots { IsFilled store.new result.phase.roots }
    ensures inputs { IsFilled store.new result.phase.inputs }
    ensures held { IsFilled store.new result.phase.held }
    ensures steps { HasStepWords circuit.now result.steps store.new }
    ensures given { result.steps.given.start ≡ result.phase.roots.start }
    ensures rest { store.new ≡ record store.old { words = store.new.words } }
    ensures len { length store.old.words ≤ length store.new.words }
{
    let phase = take_words(store, counts);
    let steps = step_words(store, circuit, phase);
    RunWords { phase, steps }
}

/// Fills the spans of a step with the given bits, so that they have live handles.
fn fill_words(store: &mut Store, circuit: &Circuit, words: StepWords)
    requires words { HasStepWords circuit.now words store.old }
    requires given { IsFilled store.old words.given }
    ensures handles { HasStepHandles circuit.now words store.new }
    ensures rest { store.new ≡ record store.old { words = store.new.words } }
    ensures keeps { KeepsWords store.old store.new }
    ensures given { StaysFilled words.given store.old store.new }
    ensures setting { (m : ℕ) (v : Bits) → m < length circuit.now.nets → shows store.new words.setting m v ≡ shows store.old words.given m v }
{
    store.sound();
    let _circuit = circuit;
    copy_handles(store, words.given, words.rose);
    copy_handles(store, words.given, words.together);
    copy_handles(store, words.given, words.setting);
}

/// Opens the phase in a store without nodes. Its roots are those of the setting where each step begins too, where the variable of a rising input says
/// whether it has risen. The store keeps its room.
pub(crate) fn prepare(store: &mut Store, asked: Asked<'_>) -> Result<Prepared, Spent>
    requires asked { IsAsked asked }
    requires store { IsRoomFor asked store.old }
    ensures gives { IfOk result (λ p. IsPrepared asked.entry p store.new) }
    ensures spent { IfErr result (λ _. MayPass (asked_variables asked.entry) store.old.budget (run_operations asked.entry)) }
    ensures keeps { KeepsRoom store.old store.new }
{
    store.sound();
    let words = run_words(store, asked.rising.compared.circuit, asked.counts);
    let care = match open_phase(
        store,
        asked.rising.compared,
        asked.rising.phase,
        asked.vars,
        words.phase,
    ) {
        Ok(care) => care,
        Err(spent) => return Err(spent),
    };
    fill_words(store, asked.rising.compared.circuit, words.steps);
    Ok(Prepared {
        care,
        words: words.steps,
        least: words.phase.least,
    })
}
