//! The covers of a model.

ghost use Rattle.std.specs.Prelude.{◌≡◌, ◌++◌, ◌∷◌, [], true, length, map, unwrap_or, codes, bytes_eq, IfOk, OnOk};
ghost use Rattle.text_lines.specs.Bytes.{words_of};
ghost use Rattle.text_lines.specs.Groups.{groups, up_to};
ghost use Rattle.text_lines.specs.Words.{but_last};
ghost use Rattle.blif_reader.specs.Models.{cover_inputs, cover_output, cover_of, covers_in, first_output, is_cover, is_dotted, is_on, row_inputs};

use crate::cards::Card;
use crate::words::{has_dot, is_cover_card, last_of};
use std::alloc::Global;
use text_lines::{count_words, first_word};
use vrt_model::{CoverLine, NoMemory, Seq, Text};

/// How many inputs a cover has.
#[tactic(auto, using(crate::proofs::WordLaws::all_but_last))]
pub fn input_count(card: &Card) -> usize
    ensures { result ≡ length (cover_inputs card.now) }
{
    let (_, rest) = card.words.parts();
    match first_word(rest) {
        Some((_, behind)) => count_words(behind),
        None => 0,
    }
}

/// Whether the output of a row is 1.
pub fn is_on_row(row: &Card) -> bool
    ensures { result ≡ is_on row.now }
{
    let (first, rest) = row.words.parts();
    last_of(first, rest) == b"1".as_slice()
}

/// The rows of a cover: the cards before the next one that begins with `.`.
fn rows_before(cards: &[Card]) -> &[Card]
    ensures { result.now ≡ up_to is_dotted cards.now }
{
    let mut at = 0;
    'cards: while at < cards.len() {
        if has_dot(&cards[at]) {
            return &cards[..at];
        }
        at += 1;
    }
    cards
}

/// Whether rows are those of the on-set.
fn is_on_set(rows: &[Card]) -> bool
    ensures { result ≡ unwrap_or (first_output rows.now) true }
{
    match rows.first() {
        Some(row) => is_on_row(row),
        None => true,
    }
}

/// The inputs of a row.
fn bits_of(row: &Card) -> &[u8]
    ensures { result.now ≡ row_inputs row.now }
{
    let (first, rest) = row.words.parts();
    match first_word(rest) {
        Some(_) => first,
        None => &[],
    }
}

/// Adds a text of these bytes.
fn add_text(alloc: Global, texts: &mut Seq<Text>, bytes: &[u8]) -> Result<(), NoMemory>
    ensures { OnOk result (texts.new ≡ texts.old ++ bytes.now ∷ []) }
{
    let text = Text::from_bytes(alloc, bytes)?;
    texts.append(text)?;
    Ok(())
}

/// The inputs of rows.
fn bits_of_rows(alloc: Global, rows: &[Card]) -> Result<Seq<Text>, NoMemory>
    ensures { IfOk result (λ found. found ≡ map row_inputs rows.now) }
{
    let mut found = Seq::new(alloc);
    for row in rows {
        add_text(alloc, &mut found, bits_of(row))?;
    }
    Ok(found)
}

/// The words of a line but the last.
fn all_but_last(alloc: Global, line: &[u8]) -> Result<Seq<Text>, NoMemory>
    ensures { IfOk result (λ texts. texts ≡ but_last (words_of line.now)) }
{
    let mut texts = Seq::new(alloc);
    let Some((first, behind)) = first_word(line) else {
        return Ok(texts);
    };
    let mut last = first;
    let mut left = behind;
    'words: while let Some((found, behind)) = first_word(left) {
        add_text(alloc, &mut texts, last)?;
        last = found;
        left = behind;
    }
    Ok(texts)
}

/// The cover of its first card and its rows.
#[tactic(auto, using(crate::proofs::WordLaws::last_behind_none))]
fn cover(alloc: Global, card: &Card, rows: &[Card]) -> Result<CoverLine, NoMemory>
    ensures { IfOk result (λ c. c ≡ cover_of (card.now, rows.now)) }
{
    let (_, rest) = card.words.parts();
    Ok(CoverLine {
        line: card.line,
        inputs: all_but_last(alloc, rest)?,
        output: Text::from_bytes(alloc, last_of(&[], rest))?,
        on: is_on_set(rows),
        rows: bits_of_rows(alloc, rows)?,
    })
}

/// Adds the cover of a card, if it begins one, with the cards behind it.
fn add_cover(
    alloc: Global,
    found: &mut Seq<CoverLine>,
    card: &Card,
    behind: &[Card],
) -> Result<(), NoMemory>
    ensures { OnOk result (found.new ++ map cover_of (groups is_cover is_dotted behind.now) ≡ found.old ++ map cover_of (groups is_cover is_dotted (card.now ∷ behind.now))) }
{
    if !is_cover_card(card) {
        return Ok(());
    }
    let one = cover(alloc, card, rows_before(behind))?;
    match found.push(one) {
        Ok(()) => Ok(()),
        Err(_) => Err(NoMemory),
    }
}

/// The covers of cards.
pub fn covers_of(alloc: Global, body: &[Card]) -> Result<Seq<CoverLine>, NoMemory>
    ensures { IfOk result (λ found. found ≡ covers_in body.now) }
{
    let mut found = Seq::new(alloc);
    let mut at = 0;
    'cards: while at < body.len() {
        add_cover(alloc, &mut found, &body[at], &body[at + 1..])?;
        at += 1;
    }
    Ok(found)
}
