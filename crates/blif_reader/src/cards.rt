//! The cards of a text, one by one.

ghost use Rattle.std.specs.Prelude.{ℕ, List, Some, None, ◌≡◌, ◌≤◌, ◌<◌, ◌+◌, ◌^◌, ◌++◌, ◌∷◌, [], length, map, filter, option_to_list, IfOk, IfSome, IfNone, ◌==◌, false, true};
ghost use Rattle.std.specs.List.{list_any};
ghost use Rattle.text_lines.specs.Groups.{up_to};
ghost use Rattle.text_lines.specs.Reading.{ComesFirst};
ghost use Rattle.text_lines.specs.Words.{but_last};
ghost use Rattle.blif_reader.specs.Cards.{card_of, ends_with_backslash, has_words, is_hash, uncommented};
ghost use Rattle.blif_reader.specs.Opened.{cards_behind, cards_left, numbered, with_line};

use crate::card_words::CardWords;
use std::alloc::Global;
use text_lines::{first_line, first_word, is_text_line};
use vrt_model::{NoMemory, Text};

/// A card: the number of its first line, from 1, whether all its bytes are text, and its words.
pub struct Card {
    /// The number of its first line, from 1, which faults tell.
    pub line: u32,
    /// Whether each byte outside comments is a tab or from the space to the tilde.
    pub is_all_text: bool,
    /// Its words as written, without comments, at least one.
    pub words: CardWords,
}

/// By hand, so that letting go of one is a call.
impl Drop for Card {
    fn drop(self) {
        let Card {
            line: _line,
            is_all_text: _is_all_text,
            words: _words,
        } = self;
    }
}

/// Lines that are to be joined with the next: the number of the first, and their bytes.
#[derive(Drop)]
pub struct Open {
    /// The number of the first of the lines, from 1.
    pub line: u32,
    /// The bytes of the lines so far, without comments and without the `\` at their ends.
    pub bytes: Text,
}

/// Whether a line has a byte that begins a comment.
fn has_comment(line: &[u8]) -> bool
    ensures { result ≡ list_any is_hash line.now }
{
    // without an early exit, which takes longer than the few bytes that it would spare
    let mut some = false;
    for b in line {
        some = *b == b'#' || some;
    }
    some
}

/// A line without its comment.
fn without_comment(line: &[u8]) -> &[u8]
    ensures { result.now ≡ uncommented line.now }
{
    if !has_comment(line) {
        return line;
    }
    let mut at = 0;
    'bytes: while at < line.len() {
        if line[at] == b'#' {
            return &line[..at];
        }
        at += 1;
    }
    line
}

/// What stands before the `\` at the end, none where there is no such byte.
fn before_backslash(bytes: &[u8]) -> Option<&[u8]>
    ensures joins { IfSome result (λ front. (ends_with_backslash bytes.now ≡ true) × (front.now ≡ but_last bytes.now)) }
    ensures ends { IfNone result (ends_with_backslash bytes.now ≡ false) }
{
    match bytes.split_last() {
        Some((last, front)) => { if *last == b'\\' { Some(front) } else { None } }
        None => None,
    }
}

/// The card of a line, or of several that are joined, none where it is blank.
fn worded(alloc: Global, line: u32, bytes: &[u8]) -> Result<Option<Card>, NoMemory>
    ensures { IfOk result (λ card. option_to_list card ≡ filter has_words (card_of (line, bytes.now) ∷ [])) }
{
    let Some((first, rest)) = first_word(bytes) else {
        return Ok(None);
    };
    let words = CardWords::of_parts(alloc, first, rest)?;
    Ok(Some(Card {
        line,
        is_all_text: is_text_line(bytes),
        words,
    }))
}

/// The lines so far, with a line more.
fn add_line(
    alloc: Global,
    number: u32,
    bytes: &[u8],
    opened: Option<Open>,
) -> Result<Open, NoMemory>
    ensures { IfOk result (λ now. now ≡ with_line opened number bytes.now) }
{
    match opened {
        None => Ok(Open {
            line: number,
            bytes: Text::from_bytes(alloc, bytes)?,
        }),
        Some(first) => go_on(first.line, first.bytes, bytes),
    }
}

/// The lines so far, with the bytes of a line more.
fn go_on(first: u32, so_far: Text, line: &[u8]) -> Result<Open, NoMemory>
    ensures { IfOk result (λ now. now ≡ record { line = first; bytes = so_far ++ line.now }) }
{
    let mut bytes = so_far;
    bytes.extend(line)?;
    Ok(Open { line: first, bytes })
}

/// The card that a line ends, none where it is blank.
fn take_last(
    alloc: Global,
    number: u32,
    bytes: &[u8],
    opened: Option<Open>,
) -> Result<Option<Card>, NoMemory>
    ensures { IfOk result (λ card. option_to_list card ≡ filter has_words (card_of (numbered (with_line opened number bytes.now)) ∷ [])) }
{
    match opened {
        None => worded(alloc, number, bytes),
        Some(first) => {
            let all = go_on(first.line, first.bytes, bytes)?;
            worded(alloc, all.line, all.bytes.as_bytes())
        }
    }
}

/// Takes a line, and answers the card that it ends, if it ends one that is not blank.
fn take_line(
    alloc: Global,
    number: u32,
    line: &[u8],
    opened: &mut Option<Open>,
) -> Result<Option<Card>, NoMemory>
    ensures { IfOk result (λ card. (rest : List (ℕ × List ℕ)) → option_to_list card ++ cards_behind opened.new rest ≡ cards_behind opened.old ((number, line.now) ∷ rest)) }
{
    let bytes = without_comment(line);
    let so_far = opened.take();
    match before_backslash(bytes) {
        Some(front) => {
            let now = add_line(alloc, number, front, so_far)?;
            *opened = Some(now);
            Ok(None)
        }
        None => {
            let card = take_last(alloc, number, bytes, so_far)?;
            Ok(card)
        }
    }
}

/// The card whose last line ends in `\`, if there is one that is not blank.
#[tactic(auto, unfolding(crate::specs::Opened::cards_behind))]
fn end_last(alloc: Global, opened: Option<Open>) -> Result<Option<Card>, NoMemory>
    ensures { IfOk result (λ card. option_to_list card ≡ cards_behind opened []) }
{
    match opened {
        None => Ok(None),
        Some(first) => worded(alloc, first.line, first.bytes.as_bytes()),
    }
}

/// A text as it is read from the front. No more than the lines that are to be joined with the next are kept of what is
/// read.
#[derive(Drop)]
pub struct Reading<'a> {
    /// The number of the next line, from 1.
    pub number: u32,
    /// The lines that are not read yet.
    pub bytes: &'a [u8],
    /// The lines that are to be joined with the next.
    pub opened: Option<Open>,
}

/// The next card that is not blank, none behind the last.
pub fn next_card(alloc: Global, reading: &mut Reading) -> Result<Option<Card>, NoMemory>
    requires { reading.old.number + length reading.old.bytes.now < 2 ^ 32 }
    ensures card { IfOk result (λ card. ComesFirst card (cards_left reading.old.number reading.old.bytes.now reading.old.opened) (cards_left reading.new.number reading.new.bytes.now reading.new.opened)) }
    ensures room { reading.new.number + length reading.new.bytes.now ≤ reading.old.number + length reading.old.bytes.now }
{
    'lines: while let Some((line, behind)) = first_line(reading.bytes) {
        let number = reading.number;
        reading.number = number + 1;
        reading.bytes = behind;
        let card = take_line(alloc, number, line, &mut reading.opened)?;
        match card {
            Some(card) => return Ok(Some(card)),
            None => {}
        }
    }
    let opened = reading.opened.take();
    let card = end_last(alloc, opened)?;
    Ok(card)
}
