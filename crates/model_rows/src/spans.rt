//! Words of a store whose conditions are tested first.

ghost use Rattle.std.specs.Prelude.{◌≡◌, IsTrue};
ghost use Rattle.bdd_core.specs.Store.{IsSpan};

use crate::stop::Stop;
use bdd_core::{H, Store, ZERO};
use node_pool::Span;
use vrt_model::Var;

/// Whether a span is live in a store.
pub(crate) fn is_live(store: &Store, span: Span) -> bool
    ensures { IsTrue result → IsSpan store.now span }
{
    let words = store.mark().words as u64;
    store.own_words() <= span.start && span.start as u64 + span.len as u64 <= words
}

/// Sets a word of a span to a handle.
pub(crate) fn put(store: &mut Store, span: Span, at: u32, handle: H) {
    if at < span.len && is_live(store, span) {
        store.write(span, at, handle.0);
    }
}

/// The handle in a word of a span.
pub(crate) fn word(store: &Store, span: Span, at: u32) -> H {
    if at < span.len && is_live(store, span) {
        return H(store.read(span, at));
    }
    ZERO
}

/// The bit of a variable.
pub(crate) fn bit(store: &mut Store, var: u32) -> Result<H, Stop> {
    if var >= store.vars() {
        return Err(Stop::Unfit);
    }
    Ok(store.bit(Var(var))?)
}

/// A span of so many words.
pub(crate) fn take(store: &mut Store, words: u32) -> Result<Span, Stop> {
    match store.take_span(words) {
        Some(span) => Ok(span),
        None => Err(Stop::NoMemory),
    }
}
