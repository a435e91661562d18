//! The operations of two functions beside plain truth tables, in two stores at a time.

use crate::stop::Stop;
use crate::tables::Tables;
use bdd_core::{H, Spent, Store};
use bdd_ops::{and, implies, or, xor};
use row_script::Page;
use std::alloc::Global;

/// An operation of two functions.
#[derive(Clone, Copy)]
pub enum Operation {
    /// 1 where both are.
    And,
    /// 1 where one is, or both.
    Or,
    /// 1 where exactly one is.
    Xor,
    /// 0 exactly where the first is 1 and the second 0.
    Implies,
}

/// All of them.
pub const ALL: [Operation; 4] = [
    Operation::And,
    Operation::Or,
    Operation::Xor,
    Operation::Implies,
];

/// Makes the function of an operation.
pub(crate) fn apply(
    store: &mut Store,
    operation: Operation,
    f: H,
    g: H,
) -> Result<Result<H, Spent>, Stop> {
    let count = store.node_count();
    if f.0 >= count || g.0 >= count {
        return Err(Stop::Unfit);
    }
    Ok(match operation {
        Operation::And => and(store, f, g),
        Operation::Or => or(store, f, g),
        Operation::Xor => xor(store, f, g),
        Operation::Implies => implies(store, f, g),
    })
}

/// The table of an operation.
fn table(operation: Operation, f: u8, g: u8) -> u8 {
    match operation {
        Operation::And => f & g,
        Operation::Or => f | g,
        Operation::Xor => f ^ g,
        Operation::Implies => !f | g,
    }
}

/// Whether an operation makes the handle of its table.
fn is_right(tables: &mut Tables, operation: Operation, f: u8, g: u8) -> Result<bool, Stop> {
    let (left, right) = (tables.handle(f), tables.handle(g));
    let made = apply(&mut tables.store, operation, left, right)?;
    Ok(made == Ok(tables.handle(table(operation, f, g))))
}

/// How many operations with one table on the left come out as their tables.
fn right_for(tables: &mut Tables, f: u8) -> Result<u32, Stop> {
    let mut right = 0u32;
    for g in 0..=255u8 {
        for operation in ALL {
            if is_right(tables, operation, f, g)? {
                right = right.saturating_add(1);
            }
        }
    }
    Ok(right)
}

/// How many operations of any two functions come out right in two stores in turn. The second has the functions in another
/// order.
fn right(alloc: Global) -> Result<(u32, u32), Stop> {
    let mut one = Tables::open(alloc, 0)?;
    let mut other = Tables::open(alloc, 255)?;
    let (mut first, mut second) = (0u32, 0u32);
    for f in 0..=255u8 {
        first = first.saturating_add(right_for(&mut one, f)?);
        second = second.saturating_add(right_for(&mut other, f)?);
    }
    Ok((first, second))
}

/// Tells how many operations of any two functions of three variables come out right, in each of two stores.
pub(crate) fn tell(page: &mut Page) -> Result<(), Stop> {
    let (first, second) = right(page.alloc())?;
    page.word("operations:");
    page.behind_blank(first);
    page.word(" in one store,");
    page.behind_blank(second);
    page.word(" in another\n");
    Ok(())
}
