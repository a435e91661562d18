//! A store of 1,000 variables that fills its budget.

use crate::handles::{both, leave};
use crate::stop::Stop;
use bdd_core::{H, ONE, Spent, Store};
use row_script::Page;
use std::alloc::Global;
use vrt_model::Var;

/// How many nodes the store has room for.
const BUDGET: u32 = 65536;

/// How many variables and words it has.
const VARS: u32 = 1000;

/// What a store answers that is filled and left.
#[derive(Clone, Copy)]
struct Filled {
    /// A node with equal branches.
    equal: Result<H, Spent>,
    /// The nodes before a function is made.
    opened: u32,
    /// The product of the first two variables.
    first: Result<H, Spent>,
    /// The first product that is refused.
    refused: Option<Spent>,
    /// The nodes then.
    full: u32,
    /// The product of the first two variables, made again.
    again: Result<H, Spent>,
    /// The nodes and the words left when the store is left.
    left: (u32, u32),
    /// The product of the first two variables, made anew.
    anew: Result<H, Spent>,
    /// The nodes at the end.
    nodes: u32,
}

/// Adds the products of two variables until one is refused.
fn fill(store: &mut Store) -> Result<Option<Spent>, Stop> {
    for v in 1..VARS {
        for u in 0..v {
            if let Err(spent) = both(store, u, v)? {
                return Ok(Some(spent));
            }
        }
    }
    Ok(None)
}

/// Fills a store, leaves it and begins anew.
fn fill_and_leave(alloc: Global) -> Result<Filled, Stop> {
    let mut store = Store::with_budget(alloc, BUDGET, VARS, VARS)?;
    let mark = store.mark();
    let equal = store.mk(Var(3), ONE, ONE);
    let opened = store.node_count();
    let first = both(&mut store, 0, 1)?;
    let refused = fill(&mut store)?;
    let full = store.node_count();
    let again = both(&mut store, 0, 1)?;
    leave(&mut store, mark)?;
    let left = (store.node_count(), store.words_left());
    let anew = both(&mut store, 0, 1)?;
    Ok(Filled {
        equal,
        opened,
        first,
        refused,
        full,
        again,
        left,
        anew,
        nodes: store.node_count(),
    })
}

/// Tells what was made.
fn tell_made(page: &mut Page, made: Result<H, Spent>) {
    page.word(" product is ");
    page.debug(&made);
}

/// Tells what a store answers that is filled and left.
pub(crate) fn tell(page: &mut Page) -> Result<(), Stop> {
    let store = fill_and_leave(page.alloc())?;
    page.word("store: equal branches are ");
    page.debug(&store.equal);
    page.word(",");
    page.behind_blank(store.opened);
    page.word(" nodes\nstore: a");
    tell_made(page, store.first);
    page.word("\nstore: ");
    page.debug(&store.refused);
    page.word(" at");
    page.behind_blank(store.full);
    page.word(" nodes\nstore: the");
    tell_made(page, store.again);
    page.word("\nstore: ");
    page.debug(&store.left);
    page.word(" nodes and words left\nstore: the");
    tell_made(page, store.anew);
    page.word(",");
    page.behind_blank(store.nodes);
    page.word(" nodes\n");
    Ok(())
}
