//! The tokens of a text, one by one.

ghost use Rattle.std.specs.Prelude.{◌≡◌, ◌≤◌, ◌<◌, ◌+◌, ◌^◌, ◌∷◌, length, true};
ghost use Rattle.verilog_tokens.specs.Passed.{place_at};
ghost use Rattle.verilog_tokens.specs.Signs.{token_of};
ghost use Rattle.verilog_tokens.specs.Tokens.{tokens_at, tokens_behind, tokens_from, tokens_of};

use crate::cuts::cut_token;
use crate::passed::{Passed, Place, pass};
use crate::token::{Kind, Token};

/// The token at a place at which nothing is passed over.
fn take_token<'a>(place: &mut Place<'a>) -> Token<'a>
    ensures token { tokens_at tokens_from place.old.line place.old.bytes.now ≡ token_of result.line result.kind result.bytes.now ∷ tokens_behind (token_of result.line result.kind result.bytes.now) (place_at place.new.line place.new.is_fresh place.new.bytes.now) }
    ensures room { place.new.line + length place.new.bytes.now ≤ place.old.line + length place.old.bytes.now }
{
    let line = place.line;
    let text = place.bytes;
    match text.split_first() {
        None => Token {
            line,
            kind: Kind::End,
            bytes: text,
        },
        Some((first, behind)) => {
            let found = cut_token(text, *first, behind);
            place.is_fresh = false;
            place.bytes = found.rest;
            Token {
                line,
                kind: found.kind,
                bytes: found.bytes,
            }
        }
    }
}

/// Reads the next token. The last is the end of the text, or a comment that does not end.
pub fn next_token<'a>(place: &mut Place<'a>) -> Token<'a>
    requires { place.old.line + length place.old.bytes.now < 2 ^ 32 }
    ensures token { tokens_from (place_at place.old.line place.old.is_fresh place.old.bytes.now) ≡ token_of result.line result.kind result.bytes.now ∷ tokens_behind (token_of result.line result.kind result.bytes.now) (place_at place.new.line place.new.is_fresh place.new.bytes.now) }
    ensures room { place.new.line + length place.new.bytes.now ≤ place.old.line + length place.old.bytes.now }
{
    'passed: loop {
        match pass(place) {
            Passed::Over => {}
            Passed::Endless => {
                return Token {
                    line: place.line,
                    kind: Kind::OpenComment,
                    bytes: place.bytes,
                };
            }
            Passed::Stays => return take_token(place),
        }
    }
}

/// The beginning of a text.
pub fn begin(text: &[u8]) -> Place<'_>
    ensures { tokens_from (place_at result.line result.is_fresh result.bytes.now) ≡ tokens_of text.now }
{
    Place {
        line: 1,
        is_fresh: true,
        bytes: text,
    }
}
