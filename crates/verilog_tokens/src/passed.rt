//! What is passed over between tokens.

ghost use Rattle.std.specs.Prelude.{◌≡◌, ◌≤◌, ◌<◌, ◌+◌, ◌^◌, drop, if◌then◌else◌, length, true, IfSome, MatchOption, None, Some};
ghost use Rattle.text_lines.specs.Groups.{up_to};
ghost use Rattle.vrt_model.specs.Lists.{has_name};
ghost use Rattle.verilog_tokens.specs.Passed.{behind_close, comment, line_behind, passed_directives, passing, place_at, rest_of_line};
ghost use Rattle.verilog_tokens.specs.Passed.Passing.{Over};
ghost use Rattle.verilog_tokens.specs.Told.{told};
ghost use Rattle.verilog_tokens.specs.Words.{ends_name, is_feed, starts_with};

use crate::runs::{Run, is_space_byte, run_length};
use crate::words::is_passed_directive;

/// A place in a text that is read from the front.
pub struct Place<'a> {
    /// The number of its line, from 1.
    pub line: u32,
    /// Whether there are only blanks before it on the line.
    pub is_fresh: bool,
    /// What is not read yet.
    pub bytes: &'a [u8],
}

/// What was passed over at a place.
#[derive(Clone, Copy)]
pub enum Passed {
    /// Something.
    Over,
    /// A comment that does not end, of which nothing is passed.
    Endless,
    /// Nothing: here is a token or the end of the text.
    Stays,
}

/// Whether a text begins with a byte.
fn starts(byte: u8, text: &[u8]) -> bool
    ensures { result ≡ starts_with byte text.now }
{
    match text.first() {
        Some(first) => *first == byte,
        None => false,
    }
}

/// What is behind the first `*` with this byte behind it, and the number of its line.
fn find_close(close: u8, line: u32, text: &[u8]) -> Option<(u32, &[u8])>
    requires { line + length text.now < 2 ^ 32 }
    ensures found { MatchOption result (behind_close close line text.now ≡ None) (λ p. behind_close close line text.now ≡ Some (p.0, p.1.now)) }
    ensures room { IfSome result (λ p. p.0 + length p.1.now < line + length text.now) }
{
    let mut number = line;
    let mut rest = text;
    'bytes: while let Some((first, behind)) = rest.split_first() {
        if *first == b'*' && starts(close, behind) {
            return Some((number, &behind[1..]));
        }
        if *first == b'\n' {
            number += 1;
        }
        rest = behind;
    }
    None
}

/// Passes over a comment, of which the first two bytes are read.
fn pass_comment<'a>(place: &mut Place<'a>, close: u8, text: &'a [u8]) -> Passed
    requires room { place.old.line + length place.old.bytes.now < 2 ^ 32 }
    requires within { length text.now ≤ length place.old.bytes.now }
    ensures passed { comment close (place_at place.old.line place.old.is_fresh place.old.bytes.now) text.now ≡ told result (place_at place.new.line place.new.is_fresh place.new.bytes.now) }
    ensures room { place.new.line + length place.new.bytes.now ≤ place.old.line + length place.old.bytes.now }
{
    match find_close(close, place.line, text) {
        Some((line, behind)) => {
            place.line = line;
            place.is_fresh = false;
            place.bytes = behind;
            Passed::Over
        }
        None => Passed::Endless,
    }
}

/// Passes over a blank.
fn pass_blank<'a>(place: &mut Place<'a>, blank: u8, behind: &'a [u8])
    requires room { place.old.line + length place.old.bytes.now < 2 ^ 32 }
    requires within { length behind.now < length place.old.bytes.now }
    ensures passed { place_at place.new.line place.new.is_fresh place.new.bytes.now ≡ place_at (line_behind place.old.line blank) (if is_feed blank then true else place.old.is_fresh) behind.now }
    ensures room { place.new.line + length place.new.bytes.now ≤ place.old.line + length place.old.bytes.now }
{
    if blank == b'\n' {
        place.line += 1;
        place.is_fresh = true;
    }
    place.bytes = behind;
}

/// Passes over the rest of a line, up to its line feed.
fn pass_line<'a>(place: &mut Place<'a>, text: &'a [u8])
    requires { length text.now ≤ length place.old.bytes.now }
    ensures passed { Over (place_at place.new.line place.new.is_fresh place.new.bytes.now) ≡ rest_of_line (place_at place.old.line place.old.is_fresh place.old.bytes.now) text.now }
    ensures room { place.new.line + length place.new.bytes.now ≤ place.old.line + length place.old.bytes.now }
{
    place.is_fresh = false;
    place.bytes = &text[run_length(Run::Line, text)..];
}

/// Whether what is behind a `` ` `` is the name of a directive whose line is passed over.
fn begins_directive(text: &[u8]) -> bool
    ensures { result ≡ has_name passed_directives (up_to ends_name text.now) }
{
    is_passed_directive(&text[..run_length(Run::Name, text)])
}

/// Passes over what stands at a place, if it is no token and not the end: a blank, a comment, an attribute, or the line
/// of some directives.
pub fn pass(place: &mut Place) -> Passed
    requires { place.old.line + length place.old.bytes.now < 2 ^ 32 }
    ensures passed { passing (place_at place.old.line place.old.is_fresh place.old.bytes.now) ≡ told result (place_at place.new.line place.new.is_fresh place.new.bytes.now) }
    ensures room { place.new.line + length place.new.bytes.now ≤ place.old.line + length place.old.bytes.now }
{
    let Some((first, behind)) = place.bytes.split_first() else {
        return Passed::Stays;
    };
    let first = *first;
    if is_space_byte(first) {
        pass_blank(place, first, behind);
        return Passed::Over;
    }
    if first == b'/' && starts(b'/', behind) {
        pass_line(place, behind);
        return Passed::Over;
    }
    if first == b'/' && starts(b'*', behind) {
        return pass_comment(place, b'/', &behind[1..]);
    }
    if first == b'(' && starts(b'*', behind) {
        return pass_comment(place, b')', &behind[1..]);
    }
    if first == b'`' && place.is_fresh && begins_directive(behind) {
        pass_line(place, behind);
        return Passed::Over;
    }
    Passed::Stays
}
