//! The first token of a text, and what is behind it.

ghost use Rattle.std.specs.Prelude.{◌≡◌, ◌≤◌, ◌∷◌, [], drop, length, map, option_map};
ghost use Rattle.text_lines.specs.Bytes.{is_text_byte};
ghost use Rattle.text_lines.specs.Groups.{up_to};
ghost use Rattle.verilog_tokens.specs.Runs.{ends_run};
ghost use Rattle.verilog_tokens.specs.Signs.{part_of, sign_of};
ghost use Rattle.verilog_tokens.specs.Words.{behind_run, byte_sign, constant_sign, cut_at, cut_of, double_cut, ends_constant, ends_name, escaped_sign, is_double, is_space, other_byte, part_sign, statement_sign, word_sign};
ghost use Rattle.verilog_tokens.specs.Signs.Sign.{Unsupported};

use crate::runs::{Run, begins_name_byte, is_digit_byte, run_length};
use crate::token::{Kind, PartKind};
use crate::words::{constant_kind, word_kind};
use text_lines::is_text_line;

/// A token, and what is behind it.
#[derive(Clone, Copy)]
pub struct Cut<'a> {
    /// Of which kind the token is.
    pub kind: Kind,
    /// Its bytes, those of an escaped name without the `\`.
    pub bytes: &'a [u8],
    /// What is behind it.
    pub rest: &'a [u8],
}

/// A run of bytes with the byte before it, and what is behind it.
fn cut_run<'a>(run: Run, text: &'a [u8], first: u8, behind: &[u8]) -> (&'a [u8], &'a [u8])
    requires { text.now ≡ first ∷ behind.now }
    ensures word { result.0.now ≡ first ∷ up_to (ends_run run) behind.now }
    ensures rest { result.1.now ≡ behind_run (ends_run run) behind.now }
{
    let count = run_length(run, behind);
    (&text[..count + 1], &text[count + 1..])
}

/// A word, which begins with a letter or `_`.
fn cut_word<'a>(text: &'a [u8], first: u8, behind: &[u8]) -> Cut<'a>
    requires { text.now ≡ first ∷ behind.now }
    ensures { cut_of (sign_of result.kind result.bytes.now) result.rest.now ≡ cut_of (word_sign (first ∷ up_to ends_name behind.now)) (behind_run ends_name behind.now) }
{
    let (bytes, rest) = cut_run(Run::Name, text, first, behind);
    Cut {
        kind: word_kind(bytes),
        bytes,
        rest,
    }
}

/// What begins with a digit: a constant, or what is not supported.
fn cut_constant<'a>(text: &'a [u8], first: u8, behind: &[u8]) -> Cut<'a>
    requires { text.now ≡ first ∷ behind.now }
    ensures { cut_of (sign_of result.kind result.bytes.now) result.rest.now ≡ cut_of (constant_sign (first ∷ up_to ends_constant behind.now)) (behind_run ends_constant behind.now) }
{
    let (bytes, rest) = cut_run(Run::Constant, text, first, behind);
    Cut {
        kind: constant_kind(bytes),
        bytes,
        rest,
    }
}

/// A directive, which is not supported here.
fn cut_directive<'a>(text: &'a [u8], first: u8, behind: &[u8]) -> Cut<'a>
    requires { text.now ≡ first ∷ behind.now }
    ensures { cut_of (sign_of result.kind result.bytes.now) result.rest.now ≡ cut_of (Unsupported (first ∷ up_to ends_name behind.now)) (behind_run ends_name behind.now) }
{
    let (bytes, rest) = cut_run(Run::Name, text, first, behind);
    Cut {
        kind: Kind::Unsupported,
        bytes,
        rest,
    }
}

/// An escaped name, of which the `\` is cut off.
fn cut_escaped(behind: &[u8]) -> Cut<'_>
    ensures { cut_of (sign_of result.kind result.bytes.now) result.rest.now ≡ cut_of (escaped_sign (up_to is_space behind.now)) (behind_run is_space behind.now) }
{
    let count = run_length(Run::Escaped, behind);
    let bytes = &behind[..count];
    let rest = &behind[count..];
    let kind = if is_text_line(bytes) {
        Kind::Part(PartKind::Name)
    } else {
        Kind::NotText
    };
    Cut { kind, bytes, rest }
}

/// Whether two bytes are one sign, which is not supported.
fn is_double_sign(b: u8, c: u8) -> bool
    ensures { result ≡ is_double b c }
{
    b == b'~' && (c == b'^' || c == b'&' || c == b'|')
        || b == b'^' && c == b'~'
        || b == b'&' && c == b'&'
        || b == b'|' && c == b'|'
}

/// The sign of an expression.
fn part(b: u8) -> Option<PartKind>
    ensures { option_map (λ kind. part_of kind (b ∷ [])) result ≡ part_sign b }
{
    match b {
        b'~' => Some(PartKind::Tilde),
        b'&' => Some(PartKind::Ampersand),
        b'^' => Some(PartKind::Caret),
        b'|' => Some(PartKind::Bar),
        b'?' => Some(PartKind::Question),
        b':' => Some(PartKind::Colon),
        b'(' => Some(PartKind::Opening),
        b')' => Some(PartKind::Closing),
        _ => None,
    }
}

/// A sign between expressions.
fn between(b: u8) -> Option<Kind>
    ensures { option_map (λ kind. sign_of kind (b ∷ [])) result ≡ statement_sign b }
{
    match b {
        b',' => Some(Kind::Comma),
        b';' => Some(Kind::Semicolon),
        b'.' => Some(Kind::Dot),
        b'=' => Some(Kind::Equals),
        _ => None,
    }
}

/// A byte that begins no token.
fn other(b: u8) -> Kind
    ensures { sign_of result (b ∷ []) ≡ other_byte b }
{
    if b == b'\t' || 32 <= b && b <= 126 {
        Kind::Unsupported
    } else {
        Kind::NotText
    }
}

/// Of which kind a byte is that begins no word and no constant.
fn byte_kind(b: u8) -> Kind
    ensures { sign_of result (b ∷ []) ≡ byte_sign b }
{
    if let Some(kind) = part(b) {
        return Kind::Part(kind);
    }
    if let Some(kind) = between(b) {
        return kind;
    }
    other(b)
}

/// A sign of one byte, or one of two, which is not supported.
fn cut_sign<'a>(text: &'a [u8], first: u8, behind: &'a [u8]) -> Cut<'a>
    requires { text.now ≡ first ∷ behind.now }
    ensures { cut_of (sign_of result.kind result.bytes.now) result.rest.now ≡ double_cut first behind.now }
{
    if let Some((second, rest)) = behind.split_first() {
        if is_double_sign(first, *second) {
            return Cut {
                kind: Kind::Unsupported,
                bytes: &text[..2],
                rest,
            };
        }
    }
    Cut {
        kind: byte_kind(first),
        bytes: &text[..1],
        rest: behind,
    }
}

/// The first token of a text that does not begin with what is passed over.
pub fn cut_token<'a>(text: &'a [u8], first: u8, behind: &'a [u8]) -> Cut<'a>
    requires { text.now ≡ first ∷ behind.now }
    ensures { cut_of (sign_of result.kind result.bytes.now) result.rest.now ≡ cut_at first behind.now }
{
    if begins_name_byte(first) {
        return cut_word(text, first, behind);
    }
    if is_digit_byte(first) {
        return cut_constant(text, first, behind);
    }
    if first == b'\\' {
        return cut_escaped(behind);
    }
    if first == b'`' {
        return cut_directive(text, first, behind);
    }
    cut_sign(text, first, behind)
}
