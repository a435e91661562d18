//! The spans of the handles of a circuit, all in one span.

ghost use Rattle.std.specs.Prelude.{◌≡◌, ◌*◌, ◌+◌, ◌<◌, ◌≤◌, ◌^◌, All, IfOk, IsTrue, length};
ghost use Rattle.channel_parts.specs.declared.part.Part.{Part as PartValue};
ghost use Rattle.path_fixpoint.specs.Strengths.{net_words};
ghost use Rattle.phase_rows.specs.Spans.{HasSpans, spans_of};
ghost use Rattle.vrt_model.specs.Levels.{source_level};

use crate::checks::{are_live, is_live};
use crate::stop::Stop;
use bdd_core::Store;
use channel_parts::Parts;
use circuit_faults::KeptSpans;
use node_pool::Span;
use path_fixpoint::net_words;
use vrt_model::Circuit;

/// The most nets of a circuit whose faults are told.
pub(crate) const MOST_NETS: usize = 50;

/// The last word at which its spans may begin.
const MOST_WORDS: u32 = 100_000;

/// The words in which the parts of a circuit are solved.
fn part_words(circuit: &Circuit) -> u32
    requires { length circuit.now.nets ≤ 50 }
    ensures words { result ≡ net_words (source_level circuit.now) * length circuit.now.nets }
    ensures few { result ≤ 12850 }
{
    net_words(circuit.source_level()) * circuit.nets.len() as u32
}

/// How many words the nets of a circuit take.
pub(crate) fn word_count(circuit: &Circuit) -> u32
    requires { length circuit.now.nets ≤ 50 }
    ensures { result ≡ 4 * length circuit.now.nets + net_words (source_level circuit.now) * length circuit.now.nets }
{
    4 * circuit.nets.len() as u32 + part_words(circuit)
}

/// The spans of the nets of a circuit, one behind the other from a word on.
fn spans_of(circuit: &Circuit, start: u32) -> KeptSpans
    requires few { length circuit.now.nets ≤ 50 }
    requires room { start + 4 * length circuit.now.nets + net_words (source_level circuit.now) * length circuit.now.nets < 2 ^ 32 }
    ensures { result ≡ spans_of circuit.now start }
{
    let nets = circuit.nets.len() as u32;
    KeptSpans {
        roots: Span { start, len: nets },
        gates: Span {
            start: start + nets,
            len: nets,
        },
        zeros: Span {
            start: start + 2 * nets,
            len: nets,
        },
        ones: Span {
            start: start + 3 * nets,
            len: nets,
        },
        out: Span {
            start: start + 4 * nets,
            len: part_words(circuit),
        },
    }
}

/// Whether no part has more nets than the circuit.
fn are_within(circuit: &Circuit, parts: &Parts) -> bool
    ensures { IsTrue result → All (λ (part : PartValue). length part.nets ≤ length circuit.now.nets) parts.now.list }
{
    let nets = circuit.nets.len();
    let mut list = parts.list.as_slice().iter();
    list.all(|part| part.nets.len() <= nets)
}

/// The spans of the nets of a circuit and of its parts, in a span of live handles that has room for them.
pub(crate) fn spans_in(
    store: &Store,
    circuit: &Circuit,
    parts: &Parts,
    whole: Span,
) -> Result<KeptSpans, Stop>
    ensures { IfOk result (λ spans. HasSpans circuit.now parts.now.list spans store.now) }
{
    if !circuit.wholes.is_empty() {
        return Err(Stop::Unfit);
    }
    let nets = circuit.nets.len();
    if whole.start > MOST_WORDS || nets > MOST_NETS {
        return Err(Stop::Unfit);
    }
    if whole.len < word_count(circuit) {
        return Err(Stop::Unfit);
    }
    if !is_live(store, whole) || !are_live(store, whole) || !are_within(circuit, parts) {
        return Err(Stop::Unfit);
    }
    Ok(spans_of(circuit, whole.start))
}
