//! The least valuation among those of 1,000 variables.

use crate::handles::{least, word};
use crate::spans::bit;
use crate::stop::Stop;
use bdd_core::{Store, ZERO};
use node_pool::Span;
use row_script::Page;
use std::alloc::Global;

/// How many variables the store has.
const VARS: u32 = 1000;

/// The variables that are 1 in a span, whose words are bits.
fn ones(alloc: Global, store: &Store, span: Span) -> Result<Vec<u32>, Stop> {
    let mut ones = Vec::new(alloc);
    for at in 0..VARS {
        match word(store, span, at)? {
            0 => {}
            1 => ones.push(at)?,
            _ => return Err(Stop::Unfit),
        }
    }
    Ok(ones)
}

/// Whether the second variable is 1 anywhere, where it is first, and whether the constant 0 is.
fn found(alloc: Global) -> Result<(bool, Vec<u32>, bool), Stop> {
    let mut store = Store::with_budget(alloc, 65536, VARS, VARS)?;
    let Some(into) = store.take_span(VARS) else {
        return Err(Stop::Unfit);
    };
    let second = bit(&mut store, 1)?;
    let there = least(&mut store, second, into)?;
    let ones = ones(alloc, &store, into)?;
    let never = least(&mut store, ZERO, into)?;
    Ok((there, ones, never))
}

/// Tells where the second variable is 1 first, and that the constant 0 is 1 nowhere.
pub(crate) fn tell(page: &mut Page) -> Result<(), Stop> {
    let (there, ones, never) = found(page.alloc())?;
    page.word("least: ");
    page.bit(there);
    page.word(" with 1 at ");
    page.debug(&ones);
    page.word(", and ");
    page.bit(never);
    page.word(" for the constant 0\n");
    Ok(())
}
