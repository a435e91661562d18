//! Covers beside truth tables.

use crate::checks::{append, are_live, is_cover};
use crate::spans::{bit, is_live, put, take};
use crate::stop::Stop;
use crate::values::{valuation, value};
use bdd_core::{H, Store};
use blif_eval::cover_diagram;
use node_pool::Span;
use row_script::Page;
use std::alloc::Global;
use vrt_model::{Cover, Seq, Text};

/// How many rows of three signs there are.
const ROWS: u8 = 27;

/// A store with the bits of three variables.
struct Bits {
    store: Store,
    values: Span,
}

/// By hand, so that letting go of one is a call.
impl Drop for Bits {
    fn drop(self) {
        let Bits {
            store: _store,
            values: _values,
        } = self;
    }
}

/// The sign of a row by a number below 3.
fn sign(digit: u8) -> u8 {
    match digit {
        0 => b'0',
        1 => b'1',
        _ => b'-',
    }
}

/// The row of a number below 27.
fn row_of(number: u8) -> [u8; 3] {
    [sign(number / 9 % 3), sign(number / 3 % 3), sign(number % 3)]
}

/// Whether a row is that of the valuation of a number below 8.
fn fits(number: u8, at: u8) -> bool {
    let [first, second, third] = row_of(number);
    (first == b'-' || first == b'0' + (at >> 2 & 1))
        && (second == b'-' || second == b'0' + (at >> 1 & 1))
        && (third == b'-' || third == b'0' + (at & 1))
}

/// The bit of a cover, by its text.
fn told(on: bool, rows: &[u8], at: u8) -> bool {
    let some = rows.iter().any(|row| fits(*row, at));
    if on || rows.is_empty() { some } else { !some }
}

fn cover(alloc: Global, on: bool, numbers: &[u8]) -> Result<Cover, Stop> {
    let mut cover = Cover {
        inputs: Seq::new(alloc),
        output: 0,
        on,
        rows: Seq::new(alloc),
    };
    for input in 0..3u32 {
        append(&mut cover.inputs, input)?;
    }
    for number in numbers {
        let row = Text::from_bytes(alloc, &row_of(*number))?;
        if cover.rows.push(row).is_err() {
            return Err(Stop::NoMemory);
        }
    }
    Ok(cover)
}

impl Bits {
    fn open(alloc: Global) -> Result<Bits, Stop> {
        let mut store = Store::with_budget(alloc, 1000, 3, 3)?;
        let values = take(&mut store, 3)?;
        for at in 0..3u32 {
            let var = bit(&mut store, at)?;
            put(&mut store, values, at, var);
        }
        Ok(Bits { store, values })
    }

    /// The function of a cover.
    fn diagram(&mut self, cover: &Cover) -> Result<H, Stop> {
        let values = self.values;
        if !is_live(&self.store, values) || !is_cover(cover, values.len) {
            return Err(Stop::Unfit);
        }
        if !are_live(&self.store, values) {
            return Err(Stop::Unfit);
        }
        Ok(cover_diagram(&mut self.store, cover, values)?)
    }

    /// Whether the bits of a cover at all valuations are those of its text.
    fn is_as_told(&mut self, alloc: Global, on: bool, rows: &[u8]) -> Result<bool, Stop> {
        let cover = cover(alloc, on, rows)?;
        let f = self.diagram(&cover)?;
        for at in 0..8u8 {
            let here = valuation(alloc, [4, 2, 1].as_slice(), at as u32)?;
            if value(&self.store, f, &here)? != told(on, rows, at) {
                return Ok(false);
            }
        }
        Ok(true)
    }

    /// How many covers are as their texts of those whose first row is this, with a second row or none.
    fn with_first(&mut self, alloc: Global, on: bool, first: u8) -> Result<u32, Stop> {
        let mut right = self.is_as_told(alloc, on, [first].as_slice())? as u32;
        for second in 0..ROWS {
            if self.is_as_told(alloc, on, [first, second].as_slice())? {
                right = right.saturating_add(1);
            }
        }
        Ok(right)
    }
}

/// How many covers of the on-set or the off-set are as their texts.
fn right(alloc: Global, on: bool) -> Result<u32, Stop> {
    let mut bits = Bits::open(alloc)?;
    let mut right = bits.is_as_told(alloc, on, [].as_slice())? as u32;
    for first in 0..ROWS {
        right = right.saturating_add(bits.with_first(alloc, on, first)?);
    }
    Ok(right)
}

/// Tells how many covers of three signals with at most two rows have the bits of their texts. There are 1 + 27 + 27 * 27,
/// of the on-set and of the off-set.
pub(crate) fn tell(page: &mut Page) -> Result<(), Stop> {
    let (off, on) = (right(page.alloc(), false)?, right(page.alloc(), true)?);
    page.word("covers:");
    page.behind_blank(off);
    page.word(" of the off-set as their texts,");
    page.behind_blank(on);
    page.word(" of the on-set\n");
    Ok(())
}
