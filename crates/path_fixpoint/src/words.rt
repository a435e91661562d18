//! The words of the nets of a part.

ghost use Rattle.std.specs.Prelude.{◌≡◌, ◌+◌, ◌*◌, ◌^◌, ◌<◌, ◌≤◌};
ghost use Rattle.bdd_core.specs.Store.{IsLive, IsSpan};
ghost use Rattle.bdd_core.specs.Words.{IsFilled, word_at};
ghost use Rattle.path_fixpoint.specs.Reaching.{slot_of};
ghost use Rattle.path_fixpoint.specs.Strengths.{net_words, word_of, circuit_words};

use crate::signals::slot;
use crate::steps::word;
use bdd_core::{H, Store};
use node_pool::Span;
use vrt_model::Circuit;

/// The words of the nets of a part, net by net. Each net has one for each level from 1 to the source level, and behind them one for
/// each of the values 0 and 1.
#[derive(Clone, Copy)]
pub struct NetWords {
    /// The words of all nets.
    pub span: Span,
    /// The source level of the circuit.
    pub source: u8,
}

impl NetWords {
    /// A span, as the words of the nets of a part of a circuit.
    pub fn new(circuit: &Circuit, span: Span) -> NetWords
        ensures { result ≡ circuit_words circuit.now span }
    {
        NetWords {
            span,
            source: circuit.source_level(),
        }
    }
}

/// How many words each net of a part has, by the source level: one for each level from 1 to that one, and one for each value.
pub fn net_words(source: u8) -> u32
    ensures { result ≡ net_words source }
{
    source as u32 + 2
}

/// Where a value reaches the net at a place of a part, as `solve_part` wrote it.
pub fn reached(store: &Store, out: NetWords, place: usize, value: bool) -> H
    requires out { IsSpan store.now out.span × IsFilled store.now out.span }
    requires place { (net_words out.source * place + net_words out.source ≤ out.span.len) × (out.span.len < 2 ^ 32) }
    ensures live { IsLive store.now result }
    ensures is { result.0 ≡ word_at store.now out.span (word_of out (slot_of out value) place) }
{
    store.sound();
    H(store.read(out.span, word(out, place, slot(out, value))))
}
