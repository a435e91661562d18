//! The diagram of a cover, from the diagrams of its inputs.

ghost use Rattle.std.specs.Prelude.{◌≡◌, ℕ, ◌+◌, ◌<◌, ◌&&◌, ◌||◌, ◌==◌, All, IfSome, IsTrue, [], get_or, length, set, true};
ghost use Rattle.bdd_core.specs.Diagram.{IsWithin};
ghost use Rattle.bdd_core.specs.Store.{IsLive, IsSpan, function_of, Gives};
ghost use Rattle.bdd_core.specs.Words.{IsFilled, word_at};
ghost use Rattle.bdd_ops.specs.Counting.{Counts, IsSpanWithin};
ghost use Rattle.blif_eval.specs.Selections.{IsSelector, are_opposite};
ghost use Rattle.blif_eval.specs.Settled.{bits_in, stored};
ghost use Rattle.blif_eval.specs.Operations.{literal_count, operations_of, rows_operations};
ghost use Rattle.vrt_model.specs.Budget.{literals_in};
ghost use Rattle.vrt_model.specs.Covers.{byte_fits, cover_bit, row_fits, some_row_fits};
ghost use Rattle.vrt_model.specs.FlatModels.{IsCover};
ghost use Rattle.vrt_model.specs.Lists.{is_empty};

use crate::choice::choose;
use crate::full_rows::{is_tree, tree_diagram};
use crate::off_row::{is_off_row, off_row};
use bdd_core::{H, ONE, Spent, Store, ZERO};
use bdd_ops::{not, or};
use node_pool::Span;
use vrt_model::{Cover, Text};

/// A literal before the rest of a row: 48 asks 0 of the value, 49 asks 1, any other byte asks nothing.
fn literal(store: &mut Store, byte: u8, value: H, rest: H) -> Result<H, Spent>
    requires { IsLive store.old value × IsLive store.old rest }
    ensures gives { Gives store.old store.new (λ v. byte_fits byte (function_of store.old value v) && function_of store.old rest v) result }
    ensures counts { (u : ℕ) → IsWithin u (function_of store.old value) → IsWithin u (function_of store.old rest) → Counts u (literal_count byte) store.old store.new result }
{
    store.sound();
    match byte {
        48 => store.ite(value, ZERO, rest),
        49 => store.ite(value, rest, ZERO),
        _ => Ok(rest),
    }
}

/// The handle of a signal.
pub(crate) fn value_of(store: &Store, values: Span, signal: u32) -> H
    requires live { IsSpan store.now values }
    requires within { signal < values.len }
    ensures { result.0 ≡ word_at store.now values signal }
{
    H(store.read(values, signal))
}

/// What a row asks at a place: nothing at the place that is left out.
fn asked(row: &[u8], left_out: usize, at: usize) -> u8
    requires { at < length row.now }
    ensures { result ≡ get_or (set row.now left_out 45) at 0 }
{
    if at == left_out { 45 } else { row[at] }
}

/// The valuations at which a row fits, but for what it asks at the place that is left out. It is made from the last input to
/// the first, so that each diagram is built once from below.
fn row_diagram(
    store: &mut Store,
    inputs: &[u32],
    row: &[u8],
    left_out: usize,
    values: Span,
) -> Result<H, Spent>
    requires span { IsSpan store.old values }
    requires live { IsFilled store.old values }
    requires inputs { All (λ s. s < values.len) inputs.now }
    requires width { length row.now ≡ length inputs.now }
    ensures gives { Gives store.old store.new (λ v. row_fits (bits_in store.old values v) inputs.now (set row.now left_out 45)) result }
    ensures counts { (u : ℕ) → IsSpanWithin u store.old values → Counts u (literals_in row.now) store.old store.new result }
{
    store.sound();
    let mut fits = ONE;
    let mut at = inputs.len();
    'back: while at > 0 {
        at -= 1;
        let value = value_of(store, values, inputs[at]);
        let byte = asked(row, left_out, at);
        fits = match literal(store, byte, value, fits) {
            Ok(fits) => fits,
            Err(spent) => return Err(spent),
        };
    }
    Ok(fits)
}

/// The valuations at which a row fits, and those of the rows before it.
fn add_row(store: &mut Store, inputs: &[u32], row: &[u8], values: Span, sum: H) -> Result<H, Spent>
    requires span { IsSpan store.old values }
    requires live { IsFilled store.old values }
    requires inputs { All (λ s. s < values.len) inputs.now }
    requires width { length row.now ≡ length inputs.now }
    requires sum { IsLive store.old sum }
    ensures gives { Gives store.old store.new (λ v. function_of store.old sum v || row_fits (bits_in store.old values v) inputs.now row.now) result }
    ensures counts { (u : ℕ) → IsSpanWithin u store.old values → IsWithin u (function_of store.old sum) → Counts u (literals_in row.now + 1) store.old store.new result }
{
    store.sound();
    let one = match row_diagram(store, inputs, row, row.len(), values) {
        Ok(one) => one,
        Err(spent) => return Err(spent),
    };
    or(store, sum, one)
}

/// The valuations at which some row of a cover fits, row by row.
fn row_by_row(store: &mut Store, cover: &Cover, values: Span) -> Result<H, Spent>
    requires span { IsSpan store.old values }
    requires live { IsFilled store.old values }
    requires cover { IsCover values.len cover.now }
    ensures gives { Gives store.old store.new (λ v. some_row_fits (bits_in store.old values v) cover.now.inputs cover.now.rows) result }
    ensures counts { (u : ℕ) → IsSpanWithin u store.old values → Counts u (rows_operations cover.now.rows) store.old store.new result }
{
    store.sound();
    let mut sum = ZERO;
    for row in cover.rows.as_slice() {
        sum = match add_row(store, cover.inputs.as_slice(), row.as_bytes(), values, sum) {
            Ok(sum) => sum,
            Err(spent) => return Err(spent),
        };
    }
    Ok(sum)
}

/// A row of a cover, and no bytes past its rows.
pub(crate) fn row_at(rows: &[Text], at: usize) -> &[u8]
    ensures { result.now ≡ get_or rows.now at [] }
{
    if at < rows.len() {
        rows[at].as_bytes()
    } else {
        &[]
    }
}

/// Whether one of two bytes asks 0 and the other 1.
fn are_opposite(first: u8, second: u8) -> bool
    ensures { result ≡ are_opposite first second }
{
    match first {
        48 => second == 49,
        49 => second == 48,
        _ => false,
    }
}

/// Whether two rows ask opposite bits at a place.
fn differ(first: &[u8], second: &[u8], at: usize) -> bool
    ensures { IsTrue result → (at < length first.now) × (are_opposite (get_or first.now at 0) (get_or second.now at 0) ≡ true) }
{
    at < first.len() && at < second.len() && are_opposite(first[at], second[at])
}

/// A place at which two rows ask opposite bits, if there is one: of several that whose handle was made last, since of
/// the others the complement may be made, and a diagram has no node that was made after its handle.
fn proposed(store: &Store, inputs: &[u32], first: &[u8], second: &[u8], values: Span) -> usize
    requires span { IsSpan store.now values }
    requires inputs { All (λ s. s < values.len) inputs.now }
{
    let mut place = inputs.len();
    let mut last = 0;
    let mut at = 0;
    'on: while at < inputs.len() {
        let handle = value_of(store, values, inputs[at]).0;
        if last <= handle && differ(first, second, at) {
            place = at;
            last = handle;
        }
        at += 1;
    }
    place
}

/// Whether there are two rows.
fn is_pair(rows: &[Text]) -> bool
    ensures { result ≡ (length rows.now == 2) }
{
    rows.len() == 2
}

/// The place of an input of which the two rows of a cover ask opposite bits, if the cover has two rows and there is one.
fn selector(store: &Store, cover: &Cover, values: Span) -> Option<usize>
    requires span { IsSpan store.now values }
    requires cover { IsCover values.len cover.now }
    ensures { IfSome result (IsSelector cover.now) }
{
    let rows = cover.rows.as_slice();
    if !is_pair(rows) {
        return None;
    }
    let first = row_at(rows, 0);
    let second = row_at(rows, 1);
    let at = proposed(store, cover.inputs.as_slice(), first, second, values);
    if differ(first, second, at) {
        Some(at)
    } else {
        None
    }
}

/// Whether a row asks 1 at a place.
fn asks_one(row: &[u8], at: usize) -> bool
    requires { at < length row.now }
    ensures { result ≡ (get_or row.now at 0 == 49) }
{
    row[at] == 49
}

/// `one` where the input at a place has the bit `asks`, and elsewhere the valuations at which a row fits, but for what it
/// asks at this place.
fn beside(
    store: &mut Store,
    inputs: &[u32],
    row: &[u8],
    at: usize,
    values: Span,
    asks: bool,
    one: H,
) -> Result<H, Spent>
    requires span { IsSpan store.old values }
    requires live { IsFilled store.old values }
    requires inputs { All (λ s. s < values.len) inputs.now }
    requires width { length row.now ≡ length inputs.now }
    requires at { at < length inputs.now }
    requires one { IsLive store.old one }
    ensures gives { Gives store.old store.new (λ v. stored asks (bits_in store.old values v (get_or inputs.now at 0)) (function_of store.old one v) (row_fits (bits_in store.old values v) inputs.now (set row.now at 45))) result }
    ensures counts { (u : ℕ) → IsSpanWithin u store.old values → IsWithin u (function_of store.old one) → Counts u (literals_in row.now + 1) store.old store.new result }
{
    store.sound();
    let other = match row_diagram(store, inputs, row, at, values) {
        Ok(other) => other,
        Err(spent) => return Err(spent),
    };
    let value = value_of(store, values, inputs[at]);
    choose(store, asks, value, one, other)
}

/// The valuations at which one of two rows fits that ask opposite bits at a place: the input there selects which of them
/// asks the rest.
fn select(
    store: &mut Store,
    inputs: &[u32],
    first: &[u8],
    second: &[u8],
    at: usize,
    values: Span,
) -> Result<H, Spent>
    requires span { IsSpan store.old values }
    requires live { IsFilled store.old values }
    requires inputs { All (λ s. s < values.len) inputs.now }
    requires first { length first.now ≡ length inputs.now }
    requires second { length second.now ≡ length inputs.now }
    requires at { at < length inputs.now }
    requires opposite { are_opposite (get_or first.now at 0) (get_or second.now at 0) ≡ true }
    ensures gives { Gives store.old store.new (λ v. row_fits (bits_in store.old values v) inputs.now first.now || row_fits (bits_in store.old values v) inputs.now second.now) result }
    ensures counts { (u : ℕ) → IsSpanWithin u store.old values → Counts u (literals_in first.now + (literals_in second.now + 1)) store.old store.new result }
{
    store.sound();
    let one = match row_diagram(store, inputs, first, at, values) {
        Ok(one) => one,
        Err(spent) => return Err(spent),
    };
    let asks = asks_one(first, at);
    beside(store, inputs, second, at, values, asks, one)
}

/// The valuations at which one of the two rows of a cover fits, by an input that selects.
fn selected(store: &mut Store, cover: &Cover, at: usize, values: Span) -> Result<H, Spent>
    requires span { IsSpan store.old values }
    requires live { IsFilled store.old values }
    requires cover { IsCover values.len cover.now }
    requires at { IsSelector cover.now at }
    ensures gives { Gives store.old store.new (λ v. some_row_fits (bits_in store.old values v) cover.now.inputs cover.now.rows) result }
    ensures counts { (u : ℕ) → IsSpanWithin u store.old values → Counts u (rows_operations cover.now.rows) store.old store.new result }
{
    let rows = cover.rows.as_slice();
    let inputs = cover.inputs.as_slice();
    let first = row_at(rows, 0);
    let second = row_at(rows, 1);
    select(store, inputs, first, second, at, values)
}

/// The valuations at which some row of a cover fits. Two rows that ask opposite bits of an input, as those of an exclusive
/// or and of a selection do, are taken by one `ite`, and several rows that ask a bit of every input by a tree of them.
fn rows_diagram(store: &mut Store, cover: &Cover, values: Span) -> Result<H, Spent>
    requires span { IsSpan store.old values }
    requires live { IsFilled store.old values }
    requires cover { IsCover values.len cover.now }
    ensures gives { Gives store.old store.new (λ v. some_row_fits (bits_in store.old values v) cover.now.inputs cover.now.rows) result }
    ensures counts { (u : ℕ) → IsSpanWithin u store.old values → Counts u (rows_operations cover.now.rows) store.old store.new result }
{
    if let Some(at) = selector(store, cover, values) {
        return selected(store, cover, at, values);
    }
    if is_tree(cover) {
        tree_diagram(store, cover, values)
    } else {
        row_by_row(store, cover, values)
    }
}

/// Whether a cover is 1 where some row fits: it has rows of the on-set, or no rows.
pub(crate) fn is_of_rows(cover: &Cover) -> bool
    ensures { result ≡ (cover.now.on || is_empty cover.now.rows) }
{
    cover.on || cover.rows.is_empty()
}

/// The function of a cover, from the functions of its inputs: with rows of the on-set, or with no rows, 1 where some row
/// fits, and with rows of the off-set 1 where none fits. `values` holds a handle for each signal. Rows are built from
/// their last input to their first. Of one row of the off-set, as a NAND gate has, the valuations at which it does not
/// fit are built, and of two inputs that with the older handle is complemented. Where a cover has two rows and these ask
/// opposite bits of an input, as those of an exclusive or, of its complement and of a selection do, this input selects
/// between them by one `ite`. Of three to sixteen rows that ask a bit of every input, as those of the sum of three bits
/// do, each input selects, from the first to the last, which of the rows are left.
///
/// It takes at most one operation for each literal, which is a `0` or a `1` of a row, and two for each row. Where the
/// handles read only the first `u` variables, each operation adds fewer than `2 ^ u` nodes, and `Spent` comes only where
/// the budget is less than all of these with the nodes that were there.
pub fn cover_diagram(store: &mut Store, cover: &Cover, values: Span) -> Result<H, Spent>
    requires span { IsSpan store.old values }
    requires live { IsFilled store.old values }
    requires cover { IsCover values.len cover.now }
    ensures gives { Gives store.old store.new (λ v. cover_bit (bits_in store.old values v) cover.now) result }
    ensures counts { (u : ℕ) → IsSpanWithin u store.old values → Counts u (operations_of cover.now) store.old store.new result }
{
    store.sound();
    if is_off_row(cover) {
        return off_row(store, cover, values);
    }
    let sum = match rows_diagram(store, cover, values) {
        Ok(sum) => sum,
        Err(spent) => return Err(spent),
    };
    if is_of_rows(cover) {
        Ok(sum)
    } else {
        not(store, sum)
    }
}
