//! What is known of the bits of a model's signals, and the output of a cover that reads known bits alone.

ghost use Rattle.std.specs.Prelude.{All, ◌≡◌, ◌+◌, ◌<◌, ◌&&◌, Option, Some, true, false, length, set};
ghost use Rattle.blif_eval.specs.KnownBits.{HasLearned, all_entries, bit_in, is_entry, teaches};
ghost use Rattle.blif_eval.specs.Plans.{entry_of};
ghost use Rattle.vrt_model.specs.Covers.{byte_fits, cover_bit, row_fits, some_row_fits};
ghost use Rattle.vrt_model.specs.FlatModels.{IsRow};

use crate::cover::is_of_rows;
use vrt_model::Cover;

/// What a table of bits has at a place, and nothing past its end.
pub(crate) fn entry(bits: &[Option<bool>], at: usize) -> Option<bool>
    ensures { result ≡ entry_of bits.now at }
{
    match bits.get(at) {
        Some(bit) => *bit,
        None => None,
    }
}

/// Whether a signal has a bit.
pub(crate) fn is_known(bits: &[Option<bool>], signal: u32) -> bool
    ensures { result ≡ is_entry bits.now signal }
{
    entry(bits, signal as usize).is_some()
}

/// The bit of a signal, and 0 where it has none.
fn bit_at(bits: &[Option<bool>], signal: u32) -> bool
    ensures { result ≡ bit_in bits.now signal }
{
    match entry(bits, signal as usize) {
        Some(bit) => bit,
        None => false,
    }
}

/// Whether all signals of a list have bits.
fn are_known(bits: &[Option<bool>], signals: &[u32]) -> bool
    ensures { result ≡ all_entries bits.now signals.now }
{
    let mut at = 0;
    'on: while at < signals.len() {
        if !is_known(bits, signals[at]) {
            return false;
        }
        at += 1;
    }
    true
}

/// Whether a bit is the one that a byte of a row asks for.
fn byte_fits(byte: u8, bit: bool) -> bool
    ensures { result ≡ byte_fits byte bit }
{
    match byte {
        48 => !bit,
        49 => bit,
        _ => true,
    }
}

/// Whether a row fits the bits of its inputs.
fn row_fits(bits: &[Option<bool>], inputs: &[u32], row: &[u8]) -> bool
    requires { length row.now ≡ length inputs.now }
    ensures { result ≡ row_fits (bit_in bits.now) inputs.now row.now }
{
    let mut at = 0;
    'on: while at < inputs.len() {
        let bit = bit_at(bits, inputs[at]);
        if !byte_fits(row[at], bit) {
            return false;
        }
        at += 1;
    }
    true
}

/// Whether some row of a cover fits.
fn some_row_fits(bits: &[Option<bool>], cover: &Cover) -> bool
    requires { All (IsRow (length cover.now.inputs)) cover.now.rows }
    ensures { result ≡ some_row_fits (bit_in bits.now) cover.now.inputs cover.now.rows }
{
    for row in cover.rows.as_slice() {
        if row_fits(bits, cover.inputs.as_slice(), row.as_bytes()) {
            return true;
        }
    }
    false
}

/// The bit of a cover by those of its inputs.
fn cover_bit(bits: &[Option<bool>], cover: &Cover) -> bool
    requires { All (IsRow (length cover.now.inputs)) cover.now.rows }
    ensures { result ≡ cover_bit (bit_in bits.now) cover.now }
{
    let some = some_row_fits(bits, cover);
    if is_of_rows(cover) { some } else { !some }
}

/// Whether the output of a cover has no bit yet, and all its inputs have bits.
fn teaches(bits: &[Option<bool>], cover: &Cover) -> bool
    ensures { result ≡ teaches bits.now cover.now }
{
    !is_known(bits, cover.output) && are_known(bits, cover.inputs.as_slice())
}

/// Writes the bit of a signal.
fn set_bit(bits: &mut Vec<Option<bool>>, signal: u32, bit: bool)
    requires { signal < length bits.old.items }
    ensures { bits.new.items ≡ set bits.old.items signal (Some bit) }
{
    bits[signal as usize] = Some(bit);
}

/// Learns the output of a cover, if all inputs are known and it is not.
pub(crate) fn learn(bits: &mut Vec<Option<bool>>, cover: &Cover)
    requires output { cover.now.output < length bits.old.items }
    requires rows { All (IsRow (length cover.now.inputs)) cover.now.rows }
    ensures { HasLearned cover.now bits.old.items bits.new.items }
{
    if !teaches(bits.as_slice(), cover) {
        return;
    }
    let bit = cover_bit(bits.as_slice(), cover);
    set_bit(bits, cover.output, bit);
}
