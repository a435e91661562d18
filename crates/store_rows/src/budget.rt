//! A budget that is met exactly.

use crate::operations::{Operation, apply};
use crate::spans::bit;
use crate::stop::Stop;
use bdd_core::{H, Spent, Store};
use row_script::Page;
use std::alloc::Global;

/// Two variables, their product, their sum and the product again, in a store with room for five nodes.
fn made(alloc: Global) -> Result<[Result<H, Spent>; 3], Stop> {
    let mut store = Store::with_budget(alloc, 5, 0, 2)?;
    let x = bit(&mut store, 0)?;
    let y = bit(&mut store, 1)?;
    let both = apply(&mut store, Operation::And, x, y)?;
    let either = apply(&mut store, Operation::Or, x, y)?;
    let again = apply(&mut store, Operation::And, x, y)?;
    Ok([both, either, again])
}

/// Tells that two variables and their product fill a store of five nodes, so that their sum is refused, and the product
/// is there.
pub(crate) fn tell(page: &mut Page) -> Result<(), Stop> {
    let [both, either, again] = made(page.alloc())?;
    page.word("budget: ");
    page.debug(&both);
    page.word(", ");
    page.debug(&either);
    page.word(", ");
    page.debug(&again);
    page.word("\n");
    Ok(())
}
