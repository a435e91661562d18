//! Values of functions at valuations.

use crate::stop::Stop;
use bdd_core::{H, Store};
use std::alloc::Global;
use vrt_model::{Seq, Valuation};

/// The valuation whose bits are those of a number at these places.
pub(crate) fn valuation(alloc: Global, places: &[u32], number: u32) -> Result<Valuation, Stop> {
    let mut bits = Seq::new(alloc);
    for place in places {
        if bits.push(number & *place != 0).is_err() {
            return Err(Stop::NoMemory);
        }
    }
    Ok(Valuation { bits })
}

/// The value of a function at a valuation.
pub(crate) fn value(store: &Store, f: H, at: &Valuation) -> Result<bool, Stop> {
    if f.0 >= store.node_count() || (store.vars() as usize) > at.bits.len() {
        return Err(Stop::Unfit);
    }
    Ok(bdd_ops::value_at(store, f, at))
}
