//! A card, and what the bytes of its lines are.

ghost use Rattle.std.specs.Prelude.{ℕ, List, Some, None, ◌≡◌, ◌<◌, ◌+◌, ◌++◌, ◌∷◌, [], true, length, map, IfOk, IfSome, IfNone, OnOk};
ghost use Rattle.spice_reader.specs.Cards.{joined_at_equals, trimmed, card_words, card_from};

use crate::card_words::CardWords;
use crate::line::without_end;
use std::alloc::Global;
use text_lines::{first_place, is_text_line, without_blanks};
use vrt_model::{NoMemory, Text};

/// A card: the number of its first line, whether it continues nothing, whether its bytes are text, and its words.
pub struct Card {
    /// The number of its first line, from 1, which faults tell.
    pub line: u32,
    /// Whether it is a `+` line behind no card, which is a fault.
    pub is_orphan: bool,
    /// Whether each byte outside comments is a tab or from the space to the tilde.
    pub is_all_text: bool,
    /// Its words in lower case, without comments and without blanks around `=`.
    pub words: CardWords,
}

/// By hand, so that letting go of one is a call.
impl Drop for Card {
    fn drop(self) {
        let Card {
            line: _line,
            is_orphan: _is_orphan,
            is_all_text: _is_all_text,
            words: _words,
        } = self;
    }
}

/// A card that may go on: the number of its first line, and the bytes of its lines.
#[derive(Drop)]
pub struct Open {
    /// The number of its first line, from 1.
    pub line: u32,
    /// The bytes of its lines so far, without comments, a blank in place of each `+`.
    pub bytes: Text,
}

/// What stands before and behind the first `=`.
fn cut_equals(text: &[u8]) -> Option<(&[u8], &[u8])>
    ensures cut { IfSome result (λ p. (length p.1.now < length text.now) × (joined_at_equals text.now ≡ trimmed p.0.now ++ 61 ∷ joined_at_equals p.1.now)) }
    ensures last { IfNone result (joined_at_equals text.now ≡ trimmed text.now) }
{
    match first_place(b'=', text) {
        Some(count) => Some((&text[..count], &text[count + 1..])),
        None => None,
    }
}

/// A part without blanks at both ends.
fn without_blanks_around(part: &[u8]) -> &[u8]
    ensures { result.now ≡ trimmed part.now }
{
    without_end(without_blanks(part))
}

/// Adds bytes without the blanks on both sides of `=`.
fn add_joined(out: &mut Text, text: &[u8]) -> Result<(), NoMemory>
    ensures { OnOk result (out.new ≡ out.old ++ joined_at_equals text.now) }
{
    let mut rest = text;
    'cuts: while let Some((part, behind)) = cut_equals(rest) {
        out.extend(without_blanks_around(part))?;
        if out.push(b'=').is_err() {
            return Err(NoMemory);
        }
        rest = behind;
    }
    out.extend(without_blanks_around(rest))
}

/// Whether nothing is to be taken out of bytes: no `=` stands among them, and no blank at their ends.
fn is_whole(text: &[u8]) -> bool
    ensures { result ≡ true → joined_at_equals text.now ≡ text.now }
{
    match cut_equals(text) {
        Some(_) => false,
        None => without_blanks_around(text).len() == text.len(),
    }
}

/// The words of the bytes of a card.
#[tactic(auto, unfolding(crate::specs::Cards::card_words))]
fn words_of_card(alloc: Global, bytes: Text) -> Result<CardWords, NoMemory>
    ensures { IfOk result (λ words. words ≡ card_words bytes) }
{
    let mut lower = bytes;
    lower.make_ascii_lowercase();
    if is_whole(lower.as_bytes()) {
        return CardWords::of_line(alloc, lower);
    }
    let mut joined = Text::new(alloc);
    add_joined(&mut joined, lower.as_bytes())?;
    CardWords::of_line(alloc, joined)
}

/// The card of a line, from the bytes of all its lines.
pub fn card_of_bytes(alloc: Global, line: u32, bytes: Text) -> Result<Card, NoMemory>
    ensures { IfOk result (λ card. card ≡ card_from line bytes) }
{
    let is_all_text = is_text_line(bytes.as_bytes());
    let words = words_of_card(alloc, bytes)?;
    Ok(Card {
        line,
        is_orphan: false,
        is_all_text,
        words,
    })
}
