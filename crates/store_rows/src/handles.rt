//! Calls of a store whose conditions are tested first.

use crate::spans::is_live;
use crate::stop::Stop;
use bdd_core::{H, Spent, Store, ZERO};
use node_pool::{Mark, Span};
use vrt_model::Var;

/// The function that is 1 where both of two variables are, `u` before `v`, made node by node.
pub(crate) fn both(store: &mut Store, u: u32, v: u32) -> Result<Result<H, Spent>, Stop> {
    if v >= store.vars() {
        return Err(Stop::Unfit);
    }
    let bit = match store.bit(Var(v)) {
        Ok(bit) => bit,
        Err(spent) => return Ok(Err(spent)),
    };
    if u >= store.vars() || bit.0 >= store.node_count() {
        return Err(Stop::Unfit);
    }
    match store.node(bit) {
        Some(node) if u < node.var => Ok(store.mk(Var(u), ZERO, bit)),
        _ => Err(Stop::Unfit),
    }
}

/// Leaves a store to a mark.
pub(crate) fn leave(store: &mut Store, mark: Mark) -> Result<(), Stop> {
    let now = store.mark();
    if mark.nodes < 2 || mark.nodes > now.nodes {
        return Err(Stop::Unfit);
    }
    if mark.words < store.own_words() || mark.words > now.words {
        return Err(Stop::Unfit);
    }
    store.leave(mark);
    Ok(())
}

/// A word of a span.
pub(crate) fn word(store: &Store, span: Span, at: u32) -> Result<u32, Stop> {
    if at >= span.len || !is_live(store, span) {
        return Err(Stop::Unfit);
    }
    Ok(store.read(span, at))
}

/// Whether a function is 1 anywhere. If so, `into` has the bits of its least valuation.
pub(crate) fn least(store: &mut Store, f: H, into: Span) -> Result<bool, Stop> {
    if f.0 >= store.node_count() || into.len != store.vars() || !is_live(store, into) {
        return Err(Stop::Unfit);
    }
    Ok(bdd_ops::least(store, f, into))
}
