//! What the words of a card say.

ghost use Rattle.std.specs.Prelude.{◌≡◌, ◌∷◌, [], length, drop, IfOk, codes, nat_lt, ◌==◌};
ghost use Rattle.text_lines.specs.Bytes.{starts, words_of};
ghost use Rattle.text_lines.specs.Words.{behind, word_at};
ghost use Rattle.vrt_model.specs.Lists.{is_empty};
ghost use Rattle.spice_reader.specs.Cards.{first_word, has_first};
ghost use Rattle.spice_reader.specs.Netlist.{begins_cell, ends_cell, is_model, is_element, is_parameter, plain_words, head_words, cell_name, cell_ports};

use crate::card::Card;
use crate::card_words::CardWords;
use text_lines::{first_word, first_words, has_byte};

/// The word of a line at a place, empty where there is none.
pub fn nth_word(line: &[u8], at: usize) -> &[u8]
    ensures { result.now ≡ word_at (words_of line.now) at }
{
    let mut left = at;
    let mut rest = line;
    'words: while let Some((found, behind)) = first_word(rest) {
        if left == 0 {
            return found;
        }
        left -= 1;
        rest = behind;
    }
    &[]
}

/// The word of a card at a place, empty where there is none.
pub fn word(words: &CardWords, at: usize) -> &[u8]
    ensures { result.now ≡ word_at words.now at }
{
    nth_word(words.as_line(), at)
}

/// The first word, empty where there is none.
pub fn first(card: &Card) -> &[u8]
    ensures { result.now ≡ first_word card.now }
{
    card.words.first()
}

/// Whether the first word is this.
pub fn is_first(card: &Card, text: &[u8]) -> bool
    ensures { result ≡ has_first text.now card.now }
{
    first(card) == text
}

/// Whether the first word begins with this letter.
pub fn has_letter(card: &Card, letter: u8) -> bool
    ensures { result ≡ starts letter (first_word card.now) }
{
    match first(card).first() {
        Some(found) => letter == *found,
        None => false,
    }
}

/// Whether the card begins a cell.
pub fn opens(card: &Card) -> bool
    ensures { result ≡ begins_cell card.now }
{
    is_first(card, b".subckt".as_slice())
}

/// Whether the card ends a cell.
pub fn shuts(card: &Card) -> bool
    ensures { result ≡ ends_cell card.now }
{
    is_first(card, b".ends".as_slice())
}

/// Whether the card is `.end`, behind which nothing is read.
pub fn is_end_card(card: &Card) -> bool
    ensures { result ≡ has_first (codes ".end") card.now }
{
    is_first(card, b".end".as_slice())
}

/// Whether the card is a device model.
pub fn is_model_card(card: &Card) -> bool
    ensures { result ≡ is_model card.now }
{
    is_first(card, b".model".as_slice())
}

/// Whether the card is a transistor or an instance.
pub fn is_element_card(card: &Card) -> bool
    ensures { result ≡ is_element card.now }
{
    has_letter(card, b'm') || has_letter(card, b'x')
}

/// Whether a word is a parameter.
fn is_parameter_word(text: &[u8]) -> bool
    ensures { result ≡ is_parameter text.now }
{
    has_byte(b'=', text) || text == b"params:".as_slice()
}

/// The first word, empty where there is none, and the line behind it.
pub fn cut_word(line: &[u8]) -> (&[u8], &[u8])
    ensures word { result.0.now ≡ word_at (words_of line.now) 0 }
    ensures rest { words_of result.1.now ≡ behind (words_of line.now) }
{
    match first_word(line) {
        Some((word, rest)) => (word, rest),
        None => (&[], line),
    }
}

/// The words behind the first.
pub fn tail(line: &[u8]) -> &[u8]
    ensures { words_of result.now ≡ behind (words_of line.now) }
{
    let (_, rest) = cut_word(line);
    rest
}

/// How many words stand before the first that is a parameter.
pub fn plain_count(line: &[u8]) -> usize
    ensures { result ≡ length (plain_words (words_of line.now)) }
{
    let mut count = 0usize;
    let mut rest = line;
    'words: while let Some((word, behind)) = first_word(rest) {
        if is_parameter_word(word) {
            return count;
        }
        count += 1;
        rest = behind;
    }
    count
}

/// The words before the first that is a parameter.
pub fn plain(line: &[u8]) -> &[u8]
    ensures { words_of result.now ≡ plain_words (words_of line.now) }
{
    first_words(plain_count(line), line)
}

/// The name and the ports of a `.subckt` card.
pub fn head(card: &Card) -> &[u8]
    ensures { words_of result.now ≡ head_words card.now }
{
    plain(tail(card.words.as_line()))
}

/// The name of the cell that a `.subckt` card begins.
pub fn name_of(card: &Card) -> &[u8]
    ensures { result.now ≡ cell_name card.now }
{
    nth_word(head(card), 0)
}

/// The ports of the cell that a `.subckt` card begins.
pub fn ports_of(card: &Card) -> &[u8]
    ensures { words_of result.now ≡ cell_ports card.now }
{
    tail(head(card))
}

/// Whether there is no word.
pub fn has_no_words(line: &[u8]) -> bool
    ensures { result ≡ is_empty (words_of line.now) }
{
    match first_word(line) {
        Some(_) => false,
        None => true,
    }
}

/// Whether there are fewer words than this. No more than so many are gone over.
pub fn has_fewer(line: &[u8], count: usize) -> bool
    ensures { result ≡ nat_lt (length (words_of line.now)) count }
{
    let mut left = count;
    let mut rest = line;
    'words: while left > 0 {
        let Some((_, behind)) = first_word(rest) else {
            return true;
        };
        left -= 1;
        rest = behind;
    }
    false
}
