//! The words of a phase in its store.

ghost use Rattle.std.specs.Prelude.{◌≡◌, ◌+◌, ◌*◌, ◌++◌, ◌≤◌, ◌<◌, All, length, replicate};
ghost use Rattle.bdd_core.specs.Words.{IsFilled};
ghost use Rattle.path_fixpoint.specs.Strengths.{net_words};
ghost use Rattle.phase_open.specs.Given.{AreFew};
ghost use Rattle.phase_terms.specs.Stores.{HasPhaseWords, most_model_words, word_count};
ghost use Rattle.vrt_model.specs.declared.whole.Whole.{Whole as WholeValue};
ghost use Rattle.whole_steps.specs.Words.{model_words};

use bdd_core::Store;
use node_pool::Span;
use path_fixpoint::net_words;
use phase_terms::{PhaseWords, WordCounts};
use vrt_model::{FlatModel, Whole};

/// The words in which a model is evaluated: two for each signal, and one.
fn model_words(flat: &FlatModel) -> u32
    requires signals { length flat.now.signals ≤ 20000 }
    ensures words { result ≡ model_words flat.now }
    ensures few { result ≤ 40001 }
{
    let signals = flat.signals.len() as u32;
    signals + 1 + signals
}

/// The words in which the greatest model of some whole instances is evaluated.
pub fn most_model_words(wholes: &[Whole]) -> u32
    requires signals { All (λ (w : WholeValue). length w.model.signals ≤ 20000) wholes.now }
    ensures most { result ≡ most_model_words wholes.now }
    ensures few { result ≤ 40001 }
{
    let mut most = 0;
    let mut rest = wholes;
    'wholes: while let Some((whole, behind)) = rest.split_first() {
        let words = model_words(&whole.model);
        if words > most {
            most = words;
        }
        rest = behind;
    }
    most
}

/// The words in which the parts of a circuit are solved.
fn part_words(counts: WordCounts) -> u32
    requires few { AreFew counts }
    ensures words { result ≡ net_words counts.source * counts.nets }
    ensures few { result ≤ 5140000 }
{
    net_words(counts.source) * counts.nets
}

/// How many words a phase takes.
pub fn word_count(counts: WordCounts) -> u32
    requires few { AreFew counts }
    ensures words { result ≡ word_count counts }
    ensures few { result ≤ 6421003 }
{
    part_words(counts)
        + 4 * counts.nets
        + counts.pins
        + counts.models
        + (2 * counts.signals + 1)
        + 2 * counts.elements
        + counts.variables
}

/// A span of so many words, which are there.
fn taken(store: &mut Store, len: u32) -> Span
    requires room { length store.old.words + len ≤ store.old.word_room }
    ensures is { result ≡ record { start = length store.old.words; len = len } }
    ensures taken { store.new ≡ record store.old { words = store.old.words ++ replicate len 0 } }
{
    match store.take_span(len) {
        Some(span) => span,
        None => Span { start: 0, len: 0 },
    }
}

/// A span of so many words behind another.
fn behind(span: Span, len: u32) -> Span
    requires { span.start + span.len < 4294967296 }
    ensures { result ≡ record { start = span.start + span.len; len = len } }
{
    Span {
        start: span.start + span.len,
        len,
    }
}

/// Takes the words of a phase, which are all 0. No node is made.
pub fn take_words(store: &mut Store, counts: WordCounts) -> PhaseWords
    requires few { AreFew counts }
    requires room { length store.old.words + word_count counts ≤ store.old.word_room }
    requires own { store.old.own ≤ length store.old.words }
    ensures words { HasPhaseWords counts result store.new }
    ensures roots { IsFilled store.new result.roots }
    ensures gates { IsFilled store.new result.gates }
    ensures zeros { IsFilled store.new result.zeros }
    ensures ones { IsFilled store.new result.ones }
    ensures inputs { IsFilled store.new result.inputs }
    ensures held { IsFilled store.new result.held }
    ensures values { IsFilled store.new result.values }
    ensures rest { store.new ≡ record store.old { words = store.new.words } }
    ensures len { length store.new.words ≡ length store.old.words + word_count counts }
{
    store.sound();
    let all = taken(store, word_count(counts));
    let _end = store.mark();
    let roots = Span {
        start: all.start,
        len: counts.nets + counts.pins,
    };
    let gates = behind(roots, counts.nets);
    let zeros = behind(gates, counts.nets);
    let ones = behind(zeros, counts.nets);
    let out = behind(ones, part_words(counts) + counts.models);
    let inputs = behind(out, counts.signals + 1);
    let held = behind(inputs, counts.elements);
    let values = behind(held, counts.signals + counts.elements);
    let least = behind(values, counts.variables);
    PhaseWords {
        roots,
        gates,
        zeros,
        ones,
        out,
        inputs,
        held,
        values,
        least,
    }
}
