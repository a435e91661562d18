//! Operations whose answer is the function, as functions are made by.

use crate::operations::{Operation, apply};
use crate::stop::Stop;
use bdd_core::{H, Store};

/// The function of an operation that is the same in both orders. The older handle goes first, and so the memo more often has
/// the answer.
fn combine(store: &mut Store, operation: Operation, f: H, g: H) -> Result<H, Stop> {
    let (first, second) = if f.0 <= g.0 { (f, g) } else { (g, f) };
    Ok(apply(store, operation, first, second)??)
}

/// The complement.
pub(crate) fn not(store: &mut Store, f: H) -> Result<H, Stop> {
    if f.0 >= store.node_count() {
        return Err(Stop::Unfit);
    }
    Ok(bdd_ops::not(store, f)?)
}

/// The function that is 1 where both are.
pub(crate) fn and(store: &mut Store, f: H, g: H) -> Result<H, Stop> {
    combine(store, Operation::And, f, g)
}

/// The function that is 1 where one of them or both are.
pub(crate) fn or(store: &mut Store, f: H, g: H) -> Result<H, Stop> {
    combine(store, Operation::Or, f, g)
}

/// The function that is 1 where exactly one of them is.
pub(crate) fn xor(store: &mut Store, f: H, g: H) -> Result<H, Stop> {
    combine(store, Operation::Xor, f, g)
}
