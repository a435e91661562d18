//! All functions of three variables beside their tables.
//!
//! A table has a bit for each valuation of three variables: the bit 4 x + 2 y + z is the value at x, y and z.

use crate::handles::{least, word};
use crate::spans::bit;
use crate::stop::Stop;
use crate::values::{valuation, value};
use bdd_core::{H, ONE, Store, ZERO};
use bdd_ops::{not, restrict};
use node_pool::Span;
use row_script::Page;
use std::alloc::Global;
use vrt_model::{Valuation, Var};

/// A store with the function of each table, in the order of the tables.
pub struct Tables {
    /// The store of all 256 functions, with three variables: 0 is x, 1 is y, 2 is z.
    pub store: Store,
    all: Vec<H>,
}

/// By hand, so that letting go of one is a call.
impl Drop for Tables {
    fn drop(self) {
        let Tables {
            store: _store,
            all: _all,
        } = self;
    }
}

/// The bit of a table at a valuation, which is a number below 8.
fn bit_at(table: u8, at: u8) -> bool {
    table >> (at & 7) & 1 == 1
}

/// A table with a variable fixed.
fn fixed(table: u8, var: u8, value: bool) -> u8 {
    let here = 4 >> (var & 3);
    let mut fixed = 0;
    for at in 0..8u8 {
        let from = if value { at | here } else { at & !here };
        if bit_at(table, from) {
            fixed |= 1 << at;
        }
    }
    fixed
}

fn constant(value: bool) -> H {
    if value { ONE } else { ZERO }
}

/// The function that is `g` where `f` is 1, and `h` elsewhere.
fn choose(store: &mut Store, f: H, g: H, h: H) -> Result<H, Stop> {
    let count = store.node_count();
    if f.0 >= count || g.0 >= count || h.0 >= count {
        return Err(Stop::Unfit);
    }
    Ok(store.ite(f, g, h)?)
}

/// The function of two bits of a table, from one on: of the third variable.
fn of_two(store: &mut Store, table: u8, from: u8) -> Result<H, Stop> {
    let z = bit(store, 2)?;
    let (lo, hi) = (bit_at(table, from), bit_at(table, from | 1));
    choose(store, z, constant(hi), constant(lo))
}

/// The function of four bits of a table, from one on: of the second and third variables.
fn of_four(store: &mut Store, table: u8, from: u8) -> Result<H, Stop> {
    let y = bit(store, 1)?;
    let lo = of_two(store, table, from)?;
    let hi = of_two(store, table, from | 2)?;
    choose(store, y, hi, lo)
}

/// The function of a table.
fn of_table(store: &mut Store, table: u8) -> Result<H, Stop> {
    let x = bit(store, 0)?;
    let lo = of_four(store, table, 0)?;
    let hi = of_four(store, table, 4)?;
    choose(store, x, hi, lo)
}

impl Tables {
    /// The functions are made in the order of the tables with each of them changed by `with`.
    pub(crate) fn open(alloc: Global, with: u8) -> Result<Tables, Stop> {
        let mut store = Store::with_budget(alloc, 1000, 3, 3)?;
        for table in 0..=255u8 {
            of_table(&mut store, table ^ with)?;
        }
        let mut all = Vec::new(alloc);
        for table in 0..=255u8 {
            all.push(of_table(&mut store, table)?)?;
        }
        Ok(Tables { store, all })
    }

    /// The function of a table.
    pub(crate) fn handle(&self, table: u8) -> H {
        match self.all.get(table as usize) {
            Some(f) => *f,
            None => ZERO,
        }
    }

    /// Whether the complement of a table's function is that of the complement.
    fn has_complement(&mut self, table: u8) -> Result<bool, Stop> {
        let f = self.handle(table);
        if f.0 >= self.store.node_count() {
            return Err(Stop::Unfit);
        }
        let made = not(&mut self.store, f)?;
        Ok(made == self.handle(!table))
    }

    /// Whether a table's function with a variable fixed is that of the table with it fixed.
    fn has_fixed(&mut self, table: u8, var: u8, value: bool) -> Result<bool, Stop> {
        let f = self.handle(table);
        if f.0 >= self.store.node_count() {
            return Err(Stop::Unfit);
        }
        let made = restrict(&mut self.store, f, Var(var as u32), value)?;
        Ok(made == self.handle(fixed(table, var, value)))
    }

    /// Whether the least valuation of a table's function is the first where the table has 1. The function of no table is
    /// 1 nowhere.
    fn has_least(&mut self, table: u8, into: Span) -> Result<bool, Stop> {
        let f = self.handle(table);
        if !least(&mut self.store, f, into)? {
            return Ok(table == 0);
        }
        let first = table.trailing_zeros();
        let x = word(&self.store, into, 0)? == first >> 2 & 1;
        let y = word(&self.store, into, 1)? == first >> 1 & 1;
        let z = word(&self.store, into, 2)? == first & 1;
        Ok(table != 0 && x && y && z)
    }

    /// How many functions have the bits of their tables at a valuation, which is a number below 8.
    fn right_at(&self, number: u8, at: &Valuation) -> Result<u32, Stop> {
        let mut right = 0u32;
        for table in 0..=255u8 {
            if value(&self.store, self.handle(table), at)? == bit_at(table, number) {
                right = right.saturating_add(1);
            }
        }
        Ok(right)
    }
}

/// How many of all tables a test holds of.
fn complements(tables: &mut Tables) -> Result<u32, Stop> {
    let mut right = 0u32;
    for table in 0..=255u8 {
        if tables.has_complement(table)? {
            right = right.saturating_add(1);
        }
    }
    Ok(right)
}

/// How many functions with each variable fixed at each value come out right.
fn fixes(tables: &mut Tables) -> Result<u32, Stop> {
    let mut right = 0u32;
    for table in 0..=255u8 {
        for var in 0..3u8 {
            for value in [false, true] {
                if tables.has_fixed(table, var, value)? {
                    right = right.saturating_add(1);
                }
            }
        }
    }
    Ok(right)
}

/// How many least valuations come out right.
fn leasts(tables: &mut Tables) -> Result<u32, Stop> {
    let Some(into) = tables.store.take_span(3) else {
        return Err(Stop::Unfit);
    };
    let mut right = 0u32;
    for table in 0..=255u8 {
        if tables.has_least(table, into)? {
            right = right.saturating_add(1);
        }
    }
    Ok(right)
}

/// How many values at all valuations come out right.
fn values(alloc: Global, tables: &Tables) -> Result<u32, Stop> {
    let mut right = 0u32;
    for number in 0..8u8 {
        let at = valuation(alloc, [4, 2, 1].as_slice(), number as u32)?;
        right = right.saturating_add(tables.right_at(number, &at)?);
    }
    Ok(right)
}

/// How many complements, functions with a variable fixed, least valuations and values come out right.
fn right(alloc: Global) -> Result<[u32; 4], Stop> {
    let mut tables = Tables::open(alloc, 0)?;
    let complements = complements(&mut tables)?;
    let fixes = fixes(&mut tables)?;
    let leasts = leasts(&mut tables)?;
    Ok([complements, fixes, leasts, values(alloc, &tables)?])
}

/// Tells how many complements of all functions of three variables, functions with a variable fixed, least valuations and
/// values come out right.
pub(crate) fn tell(page: &mut Page) -> Result<(), Stop> {
    let [complements, fixes, leasts, values] = right(page.alloc())?;
    page.word("tables:");
    page.behind_blank(complements);
    page.word(" complements,");
    page.behind_blank(fixes);
    page.word(" with a variable fixed\ntables:");
    page.behind_blank(leasts);
    page.word(" least valuations,");
    page.behind_blank(values);
    page.word(" values\n");
    Ok(())
}
