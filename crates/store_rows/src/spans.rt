//! Words of a store whose conditions are tested first.

ghost use Rattle.std.specs.Prelude.{◌≡◌, IsTrue};
ghost use Rattle.bdd_core.specs.Store.{IsSpan};

use crate::stop::Stop;
use bdd_core::{H, Store};
use node_pool::Span;
use vrt_model::Var;

/// Whether a span is live in a store.
pub(crate) fn is_live(store: &Store, span: Span) -> bool
    ensures { IsTrue result → IsSpan store.now span }
{
    let words = store.mark().words as u64;
    store.own_words() <= span.start && span.start as u64 + span.len as u64 <= words
}

/// The bit of a variable.
pub(crate) fn bit(store: &mut Store, var: u32) -> Result<H, Stop> {
    if var >= store.vars() {
        return Err(Stop::Unfit);
    }
    Ok(store.bit(Var(var))?)
}
