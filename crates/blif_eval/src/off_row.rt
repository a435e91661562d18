//! The diagram of a cover with one row of the off-set, as that of a NAND gate: the valuations at which the row does not fit are made
//! without those at which it does.

ghost use Rattle.std.specs.Prelude.{◌≡◌, ℕ, ◌<◌, ◌||◌, All, IsTrue, false, get_or, length, not};
ghost use Rattle.bdd_core.specs.Diagram.{IsWithin};
ghost use Rattle.bdd_core.specs.Store.{Gives, IsLive, IsSpan, function_of};
ghost use Rattle.bdd_core.specs.Words.{IsFilled};
ghost use Rattle.bdd_ops.specs.Counting.{Counts, IsSpanWithin};
ghost use Rattle.blif_eval.specs.Operations.{literal_count, operations_of};
ghost use Rattle.blif_eval.specs.Settled.{bits_in};
ghost use Rattle.vrt_model.specs.Budget.{literals_in};
ghost use Rattle.vrt_model.specs.Covers.{byte_fits, cover_bit, row_fits};
ghost use Rattle.vrt_model.specs.FlatModels.{IsCover};

use crate::cover::{row_at, value_of};
use bdd_core::{H, ONE, Spent, Store, ZERO};
use node_pool::Span;
use vrt_model::Cover;

/// Whether a cover is 0 where its one row fits.
pub(crate) fn is_off_row(cover: &Cover) -> bool
    ensures { IsTrue result → (cover.now.on ≡ false) × (length cover.now.rows ≡ 1) }
{
    !cover.on && cover.rows.len() == 1
}

/// What a literal does not fit, and what the rest of its row does not: 48 asks 0 of the value, 49 asks 1, any other byte asks nothing.
fn misfit(store: &mut Store, byte: u8, value: H, rest: H) -> Result<H, Spent>
    requires { IsLive store.old value × IsLive store.old rest }
    ensures gives { Gives store.old store.new (λ v. not (byte_fits byte (function_of store.old value v)) || function_of store.old rest v) result }
    ensures counts { (u : ℕ) → IsWithin u (function_of store.old value) → IsWithin u (function_of store.old rest) → Counts u (literal_count byte) store.old store.new result }
{
    store.sound();
    match byte {
        48 => store.ite(value, ONE, rest),
        49 => store.ite(value, rest, ONE),
        _ => Ok(rest),
    }
}

/// What a row asks at a place.
fn byte_at(row: &[u8], at: usize) -> u8
    requires { at < length row.now }
    ensures { result ≡ get_or row.now at 0 }
{
    row[at]
}

/// The valuations at which a row does not fit. It is made from the last input to the first, so that each diagram is built once from
/// below.
fn misfits(store: &mut Store, inputs: &[u32], row: &[u8], values: Span) -> Result<H, Spent>
    requires span { IsSpan store.old values }
    requires live { IsFilled store.old values }
    requires inputs { All (λ s. s < values.len) inputs.now }
    requires width { length row.now ≡ length inputs.now }
    ensures gives { Gives store.old store.new (λ v. not (row_fits (bits_in store.old values v) inputs.now row.now)) result }
    ensures counts { (u : ℕ) → IsSpanWithin u store.old values → Counts u (literals_in row.now) store.old store.new result }
{
    store.sound();
    let mut rest = ZERO;
    let mut at = inputs.len();
    'back: while at > 0 {
        at -= 1;
        let value = value_of(store, values, inputs[at]);
        let byte = byte_at(row, at);
        rest = match misfit(store, byte, value, rest) {
            Ok(rest) => rest,
            Err(spent) => return Err(spent),
        };
    }
    Ok(rest)
}

/// Whether there are two inputs, and the first has the older handle.
fn is_older_first(store: &Store, inputs: &[u32], values: Span) -> bool
    requires span { IsSpan store.now values }
    requires inputs { All (λ s. s < values.len) inputs.now }
    ensures { IsTrue result → length inputs.now ≡ 2 }
{
    inputs.len() == 2 && value_of(store, values, inputs[0]).0 < value_of(store, values, inputs[1]).0
}

/// The valuations at which a row of two bytes does not fit, made from the first input on.
fn misfits_of_two(store: &mut Store, inputs: &[u32], row: &[u8], values: Span) -> Result<H, Spent>
    requires span { IsSpan store.old values }
    requires live { IsFilled store.old values }
    requires inputs { All (λ s. s < values.len) inputs.now × (length inputs.now ≡ 2) }
    requires width { length row.now ≡ 2 }
    ensures gives { Gives store.old store.new (λ v. not (row_fits (bits_in store.old values v) inputs.now row.now)) result }
    ensures counts { (u : ℕ) → IsSpanWithin u store.old values → Counts u (literals_in row.now) store.old store.new result }
{
    let turned = [inputs[1], inputs[0]];
    let bytes = [row[1], row[0]];
    misfits(store, &turned, &bytes, values)
}

/// The valuations at which a row does not fit. Of two inputs the complement of the one with the older handle is made.
fn row_misfits(store: &mut Store, inputs: &[u32], row: &[u8], values: Span) -> Result<H, Spent>
    requires span { IsSpan store.old values }
    requires live { IsFilled store.old values }
    requires inputs { All (λ s. s < values.len) inputs.now }
    requires width { length row.now ≡ length inputs.now }
    ensures gives { Gives store.old store.new (λ v. not (row_fits (bits_in store.old values v) inputs.now row.now)) result }
    ensures counts { (u : ℕ) → IsSpanWithin u store.old values → Counts u (literals_in row.now) store.old store.new result }
{
    if is_older_first(store, inputs, values) {
        return misfits_of_two(store, inputs, row, values);
    }
    misfits(store, inputs, row, values)
}

/// The function of a cover with one row of the off-set.
pub(crate) fn off_row(store: &mut Store, cover: &Cover, values: Span) -> Result<H, Spent>
    requires span { IsSpan store.old values }
    requires live { IsFilled store.old values }
    requires cover { IsCover values.len cover.now }
    requires off { (cover.now.on ≡ false) × (length cover.now.rows ≡ 1) }
    ensures gives { Gives store.old store.new (λ v. cover_bit (bits_in store.old values v) cover.now) result }
    ensures counts { (u : ℕ) → IsSpanWithin u store.old values → Counts u (operations_of cover.now) store.old store.new result }
{
    row_misfits(
        store,
        cover.inputs.as_slice(),
        row_at(cover.rows.as_slice(), 0),
        values,
    )
}
