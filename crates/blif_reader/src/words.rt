//! The words of a card.

ghost use Rattle.std.specs.Prelude.{◌≡◌, ◌∷◌, drop, codes};
ghost use Rattle.text_lines.specs.Bytes.{starts, words_of};
ghost use Rattle.text_lines.specs.Words.{last_word, word_at};
ghost use Rattle.blif_reader.specs.Cards.{has_first};
ghost use Rattle.blif_reader.specs.Models.{begins_model, ends_model, is_cover, is_dotted, is_exdc, is_latch, is_sub, model_name};

use crate::cards::Card;
use text_lines::first_word;

/// Whether the first word is this.
pub fn is_first(card: &Card, text: &[u8]) -> bool
    ensures { result ≡ has_first text.now card.now }
{
    card.words.first() == text
}

/// Whether the card begins a model.
pub fn opens(card: &Card) -> bool
    ensures { result ≡ begins_model card.now }
{
    is_first(card, b".model".as_slice())
}

/// Whether the card ends a model.
pub fn shuts(card: &Card) -> bool
    ensures { result ≡ ends_model card.now }
{
    opens(card) || is_first(card, b".end".as_slice())
}

/// Whether the card begins a cover.
pub fn is_cover_card(card: &Card) -> bool
    ensures { result ≡ is_cover card.now }
{
    is_first(card, b".names".as_slice())
}

/// Whether the card is a latch.
pub fn is_latch_card(card: &Card) -> bool
    ensures { result ≡ is_latch card.now }
{
    is_first(card, b".latch".as_slice())
}

/// Whether the card is a sub-model.
pub fn is_sub_card(card: &Card) -> bool
    ensures { result ≡ is_sub card.now }
{
    is_first(card, b".subckt".as_slice())
}

/// Whether the card begins a don't-care network.
pub fn is_exdc_card(card: &Card) -> bool
    ensures { result ≡ is_exdc card.now }
{
    is_first(card, b".exdc".as_slice())
}

/// Whether the card begins with `.`, so that it is no row.
pub fn has_dot(card: &Card) -> bool
    ensures { result ≡ is_dotted card.now }
{
    match card.words.first().first() {
        Some(first) => b'.' == *first,
        None => false,
    }
}

/// The name that a `.model` card gives.
pub fn name_of(card: &Card) -> &[u8]
    ensures { result.now ≡ model_name card.now }
{
    let (_, rest) = card.words.parts();
    word(rest, 0)
}

/// A line behind its first words, so many of them.
pub fn words_behind(line: &[u8], count: usize) -> &[u8]
    ensures { words_of result.now ≡ drop count (words_of line.now) }
{
    let mut left = count;
    let mut rest = line;
    'words: while left > 0 {
        let Some((_, behind)) = first_word(rest) else {
            return rest;
        };
        left -= 1;
        rest = behind;
    }
    rest
}

/// The word of a line at a place, empty where there is none.
pub fn word(line: &[u8], at: usize) -> &[u8]
    ensures { result.now ≡ word_at (words_of line.now) at }
{
    match first_word(words_behind(line, at)) {
        Some((found, _)) => found,
        None => &[],
    }
}

/// The last of a word and those of a line behind it.
pub fn last_of<'a>(first: &'a [u8], rest: &'a [u8]) -> &'a [u8]
    ensures { result.now ≡ last_word (first.now ∷ words_of rest.now) }
{
    let mut last = first;
    let mut left = rest;
    'words: while let Some((found, behind)) = first_word(left) {
        last = found;
        left = behind;
    }
    last
}
