//! Texts with marks: `%HH` is the byte of two hexadecimal digits, `%#` a number, and `%+` the one after it.

use crate::page::Page;

/// Adds a text with what its marks stand for.
pub fn add_marked(into: &mut Page, text: &str, number: u32) {
    let mut is_marked = false;
    for piece in text.split('%') {
        if is_marked {
            add_mark(into, piece, number);
        } else {
            into.word(piece);
        }
        is_marked = true;
    }
}

/// Adds what stands behind a `%`.
fn add_mark(into: &mut Page, piece: &str, number: u32) {
    if let Some(rest) = piece.strip_prefix("#") {
        return add_number(into, number, rest);
    }
    if let Some(rest) = piece.strip_prefix("+") {
        return add_number(into, number.saturating_add(1), rest);
    }
    if let Some((digits, rest)) = piece.split_at_checked(2) {
        add_byte(into, digits, rest);
    }
}

/// Adds a number, and what stands behind it.
fn add_number(into: &mut Page, number: u32, rest: &str) {
    into.number(number);
    into.word(rest);
}

/// Adds the byte of two digits, and what stands behind them.
fn add_byte(into: &mut Page, digits: &str, rest: &str) {
    if let Ok(byte) = u8::from_str_radix(digits, 16) {
        into.bytes(&[byte]);
    }
    into.word(rest);
}
