//! The diagram of a cover whose rows ask a bit of every input: a tree in which each input, from the first to the last,
//! selects which of the rows are left.

ghost use Rattle.std.specs.Prelude.{◌≡◌, ℕ, ◌+◌, ◌<◌, ◌≤◌, All, IfSome, IsTrue, get_or, length, true};
ghost use Rattle.std.specs.List.{list_all};
ghost use Rattle.bdd_core.specs.Store.{IsSpan, Gives};
ghost use Rattle.bdd_core.specs.Words.{IsFilled};
ghost use Rattle.bdd_ops.specs.Counting.{Counts, IsSpanWithin};
ghost use Rattle.blif_eval.specs.FullRows.{IsFull, IsNext, agree, class_fits, class_operations, has_next, is_bit, is_full};
ghost use Rattle.blif_eval.specs.Settled.{bits_in};
ghost use Rattle.blif_eval.specs.Operations.{rows_operations};
ghost use Rattle.vrt_model.specs.Covers.{some_row_fits};
ghost use Rattle.vrt_model.specs.FlatModels.{IsCover};

use crate::cover::{row_at, value_of};
use bdd_core::{H, ONE, Spent, Store, ZERO};
use node_pool::Span;
use vrt_model::{Cover, Text};

/// The least number of rows that are taken by a tree.
const LEAST_ROWS: usize = 3;

/// The greatest number of rows that are taken by a tree, since each node of it looks at all of them.
const MOST_ROWS: usize = 16;

/// Whether a byte asks 0 or 1.
fn is_bit(byte: u8) -> bool
    ensures { result ≡ is_bit byte }
{
    byte == 48 || byte == 49
}

/// Whether a row asks a bit of every input.
fn is_full(row: &[u8]) -> bool
    ensures { result ≡ is_full row.now }
{
    let mut at = 0;
    'on: while at < row.len() {
        if !is_bit(row[at]) {
            return false;
        }
        at += 1;
    }
    true
}

/// Whether every row asks a bit of every input.
fn all_full(rows: &[Text]) -> bool
    ensures { result ≡ list_all is_full rows.now }
{
    let mut at = 0;
    'on: while at < rows.len() {
        if !is_full(row_at(rows, at)) {
            return false;
        }
        at += 1;
    }
    true
}

/// Whether a cover is taken by a tree: it has several rows, but not many, and each asks a bit of every input.
pub(crate) fn is_tree(cover: &Cover) -> bool
    ensures { IsTrue result → (0 < length cover.now.rows) × (list_all is_full cover.now.rows ≡ true) }
{
    let rows = cover.rows.as_slice();
    rows.len() >= LEAST_ROWS && rows.len() <= MOST_ROWS && all_full(rows)
}

/// Whether two rows ask the same of each input before a place.
fn agree(first: &[u8], second: &[u8], before: usize) -> bool
    requires { (before ≤ length first.now) × (before ≤ length second.now) }
    ensures { result ≡ agree before first.now second.now }
{
    let mut at = before;
    'back: while at > 0 {
        at -= 1;
        if second[at] != first[at] {
            return false;
        }
    }
    true
}

/// Whether a row agrees with another before a place, and has a byte there.
fn has_next(like: &[u8], at: usize, byte: u8, row: &[u8]) -> bool
    requires { (at < length like.now) × (at < length row.now) }
    ensures { result ≡ has_next like.now at byte row.now }
{
    row[at] == byte && agree(like, row, at)
}

/// The place of a row that agrees with another before a place, and has a byte there, if there is one.
fn next_class(rows: &[Text], like: &[u8], at: usize, byte: u8) -> Option<usize>
    requires { (at < length like.now) × All (λ row. at < length row) rows.now }
    ensures { IsNext rows.now like.now at byte result }
{
    let mut place = 0;
    'on: while place < rows.len() {
        if has_next(like, at, byte, row_at(rows, place)) {
            return Some(place);
        }
        place += 1;
    }
    None
}

/// The valuations at which some row of a class fits from a place on. The class has the rows that agree before this place
/// with one of them, whose number is given, or no row.
fn tree(
    store: &mut Store,
    inputs: &[u32],
    rows: &[Text],
    values: Span,
    class: Option<usize>,
    at: usize,
) -> Result<H, Spent>
    requires span { IsSpan store.old values }
    requires live { IsFilled store.old values }
    requires inputs { All (λ s. s < values.len) inputs.now }
    requires rows { All (IsFull (length inputs.now)) rows.now }
    requires class { IfSome class (λ place. place < length rows.now) }
    requires at { at ≤ length inputs.now }
    ensures gives { Gives store.old store.new (λ v. class_fits (bits_in store.old values v) inputs.now rows.now class at) result }
    ensures counts { (u : ℕ) → IsSpanWithin u store.old values → Counts u (class_operations (length inputs.now) rows.now class at) store.old store.new result }
{
    store.sound();
    let Some(place) = class else {
        return Ok(ZERO);
    };
    if at == inputs.len() {
        return Ok(ONE);
    }
    let like = row_at(rows, place);
    let zero = next_class(rows, like, at, 48);
    let one = next_class(rows, like, at, 49);
    let lo = match tree(store, inputs, rows, values, zero, at + 1) {
        Ok(lo) => lo,
        Err(spent) => return Err(spent),
    };
    let hi = match tree(store, inputs, rows, values, one, at + 1) {
        Ok(hi) => hi,
        Err(spent) => return Err(spent),
    };
    let value = value_of(store, values, inputs[at]);
    store.ite(value, hi, lo)
}

/// The valuations at which some row of a cover fits, each of whose rows asks a bit of every input.
pub(crate) fn tree_diagram(store: &mut Store, cover: &Cover, values: Span) -> Result<H, Spent>
    requires span { IsSpan store.old values }
    requires live { IsFilled store.old values }
    requires cover { IsCover values.len cover.now }
    requires rows { 0 < length cover.now.rows }
    requires full { list_all is_full cover.now.rows ≡ true }
    ensures gives { Gives store.old store.new (λ v. some_row_fits (bits_in store.old values v) cover.now.inputs cover.now.rows) result }
    ensures counts { (u : ℕ) → IsSpanWithin u store.old values → Counts u (rows_operations cover.now.rows) store.old store.new result }
{
    tree(
        store,
        cover.inputs.as_slice(),
        cover.rows.as_slice(),
        values,
        Some(0),
        0,
    )
}
