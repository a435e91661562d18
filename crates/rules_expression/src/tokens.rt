//! The tokens of an expression, read one by one from the bytes of its line.

ghost use Rattle.std.specs.Prelude.{◌≡◌, ◌<◌, ◌≤◌, ◌||◌, ◌∷◌, [], drop, length, is_some, IfOk, IfSome, IfNone};
ghost use Rattle.text_lines.specs.Bytes.{is_blank, lowered, words_of};
ghost use Rattle.text_lines.specs.Groups.{up_to};
ghost use Rattle.rules_expression.specs.Tokens.{sign_of, tokens_of};
ghost use Rattle.rules_expression.specs.Pieces.{ends_name, sign_at, line_tokens, token_of};
ghost use Rattle.rules_expression.specs.declared.tokens.Token.TheVariants.{Name};

use std::alloc::Global;
use std::marker::Model;
use text_lines::{is_blank_byte, without_blanks};
use vrt_model::{NoMemory, Text};

/// A name, or one of `!`, `&`, `^`, `|`, `(` and `)`.
#[derive(Drop)]
pub enum Token {
    /// A name, in lower case.
    Name(Text),
    /// `!`
    Bang,
    /// `&`
    Ampersand,
    /// `^`
    Caret,
    /// `|`
    Bar,
    /// `(`
    Opening,
    /// `)`
    Closing,
}

/// The sign of a byte, none for a byte of a name.
fn sign(b: u8) -> Option<Token>
    ensures { result ≡ sign_of b }
{
    if b == b'!' {
        return Some(Token::Bang);
    }
    if b == b'&' {
        return Some(Token::Ampersand);
    }
    if b == b'^' {
        return Some(Token::Caret);
    }
    if b == b'|' {
        return Some(Token::Bar);
    }
    if b == b'(' {
        return Some(Token::Opening);
    }
    if b == b')' {
        return Some(Token::Closing);
    }
    None
}

/// Whether a byte ends a name: a blank or a sign.
fn is_end(b: u8) -> bool
    ensures { result ≡ ends_name b }
{
    is_blank_byte(b) || sign(b).is_some()
}

/// What stands before the first byte that ends a name.
fn name_before(text: &[u8]) -> &[u8]
    ensures name { result.now ≡ up_to ends_name text.now }
    ensures within { length result.now ≤ length text.now }
{
    let mut at = 0;
    'bytes: while at < text.len() {
        if is_end(text[at]) {
            return &text[..at];
        }
        at += 1;
    }
    text
}

/// A name at the front, and what is behind it.
fn cut_name(text: &[u8]) -> (&[u8], &[u8])
    ensures { (result.0.now ≡ up_to ends_name text.now) × (result.1.now ≡ drop (length (up_to ends_name text.now)) text.now) }
{
    let name = name_before(text);
    (name, &text[name.len()..])
}

/// The bytes of the first token, and what is behind them. None exactly where nothing but blanks is left.
pub(crate) fn first_piece(text: &[u8]) -> Option<(&[u8], &[u8])>
    ensures piece { IfSome result (λ p. (length p.1.now < length text.now) × (line_tokens text.now ≡ token_of p.0.now ∷ line_tokens p.1.now)) }
    ensures none { IfNone result (line_tokens text.now ≡ []) }
{
    let rest = without_blanks(text);
    match rest.split_first() {
        None => None,
        Some((b, behind)) => match sign(*b) {
            Some(_) => Some((&rest[..1], behind)),
            None => Some(cut_name(rest)),
        },
    }
}

/// The sign that a piece is, none for a name.
pub(crate) fn piece_sign(piece: &[u8]) -> Option<Token>
    ensures { result ≡ sign_at piece.now }
{
    match piece {
        [] => None,
        [b, ..] => sign(*b),
    }
}

/// A name, lowered.
fn lower(alloc: Global, name: &[u8]) -> Result<Text, NoMemory>
    ensures { IfOk result (λ text. text ≡ lowered name.now) }
{
    let mut text = Text::new(alloc);
    for b in name {
        if text.push(b.to_ascii_lowercase()).is_err() {
            return Err(NoMemory);
        }
    }
    Ok(text)
}

/// The token of a piece. A name is lowered.
pub(crate) fn piece_token(alloc: Global, piece: &[u8]) -> Result<Token, NoMemory>
    ensures { IfOk result (λ token. token ≡ token_of piece.now) }
{
    match piece_sign(piece) {
        Some(token) => Ok(token),
        None => {
            let name = lower(alloc, piece)?;
            Ok(Token::Name(name))
        }
    }
}

/// The tokens of a line. They are kept as its bytes, and each is read from these anew.
pub struct Tokens {
    line: Text,
}

/// By hand, so that letting go of them is a call.
impl Drop for Tokens {
    fn drop(self) {
        let Tokens { line: _line } = self;
    }
}

impl Model for Tokens {
    ghost use Rattle.std.specs.Prelude.{List};
    ghost use Rattle.rules_expression.specs.declared.tokens.Token.{Token};

    ghost Value = { List Token };

    ghost use Rattle.rules_expression.specs.Pieces.{line_tokens};

    ghost view = { λ t. line_tokens t.line };
}

impl Tokens {
    /// The tokens of the words of a line. Names are lowered.
    pub fn of_line(alloc: Global, line: &[u8]) -> Result<Self, NoMemory>
        ensures { IfOk result (λ tokens. tokens ≡ tokens_of (words_of line.now)) }
    {
        let line = Text::from_bytes(alloc, line)?;
        Ok(Tokens { line })
    }

    /// The line.
    pub(crate) fn as_bytes(&self) -> &[u8]
        ensures { line_tokens result.now ≡ self.now }
    {
        self.line.as_bytes()
    }
}
