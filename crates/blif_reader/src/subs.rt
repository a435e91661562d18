//! The sub-models of a model.

ghost use Rattle.std.specs.Prelude.{◌≡◌, ◌++◌, ◌∷◌, [], drop, filter, map, IfOk, OnOk};
ghost use Rattle.text_lines.specs.Bytes.{words_of};
ghost use Rattle.text_lines.specs.Groups.{up_to};
ghost use Rattle.blif_reader.specs.Models.{behind_equals, is_equals, is_sub, sub_of, tie_of};
ghost use Rattle.blif_reader.specs.Refused.{is_bad_tie};

use crate::cards::Card;
use crate::words::{is_sub_card, word, words_behind};
use std::alloc::Global;
use text_lines::first_word;
use vrt_model::{NoMemory, Seq, SubLine, Text, Tie};

/// What stands before and behind the first `=`.
fn cut_tie(word: &[u8]) -> (&[u8], &[u8])
    ensures formal { result.0.now ≡ up_to is_equals word.now }
    ensures actual { result.1.now ≡ behind_equals word.now }
{
    let mut at = 0;
    'bytes: while at < word.len() {
        if word[at] == b'=' {
            return (&word[..at], &word[at + 1..]);
        }
        at += 1;
    }
    (word, &[])
}

/// Whether a tie has no `=`, or an empty side.
pub fn is_bad_tie_word(word: &[u8]) -> bool
    ensures { result ≡ is_bad_tie word.now }
{
    let (formal, actual) = cut_tie(word);
    formal.is_empty() || actual.is_empty()
}

/// The tie of a word.
fn tie(alloc: Global, word: &[u8]) -> Result<Tie, NoMemory>
    ensures { IfOk result (λ t. t ≡ tie_of word.now) }
{
    let (formal, actual) = cut_tie(word);
    Ok(Tie {
        formal: Text::from_bytes(alloc, formal)?,
        actual: Text::from_bytes(alloc, actual)?,
    })
}

/// The ties of the words of a line.
fn ties_of(alloc: Global, line: &[u8]) -> Result<Seq<Tie>, NoMemory>
    ensures { IfOk result (λ ties. ties ≡ map tie_of (words_of line.now)) }
{
    let mut ties = Seq::new(alloc);
    let mut left = line;
    'words: while let Some((word, behind)) = first_word(left) {
        let one = tie(alloc, word)?;
        ties.append(one)?;
        left = behind;
    }
    Ok(ties)
}

/// The sub-model of a card.
fn sub(alloc: Global, card: &Card) -> Result<SubLine, NoMemory>
    ensures { IfOk result (λ s. s ≡ sub_of card.now) }
{
    let (_, rest) = card.words.parts();
    Ok(SubLine {
        line: card.line,
        model: Text::from_bytes(alloc, word(rest, 0))?,
        ties: ties_of(alloc, words_behind(rest, 1))?,
    })
}

/// Adds the sub-model of a card, if it is one.
fn add_sub(alloc: Global, found: &mut Seq<SubLine>, card: &Card) -> Result<(), NoMemory>
    ensures { OnOk result (found.new ≡ found.old ++ map sub_of (filter is_sub (card.now ∷ []))) }
{
    if !is_sub_card(card) {
        return Ok(());
    }
    let one = sub(alloc, card)?;
    match found.push(one) {
        Ok(()) => Ok(()),
        Err(_) => Err(NoMemory),
    }
}

/// The sub-models of the cards of a model.
pub fn subs_of(alloc: Global, body: &[Card]) -> Result<Seq<SubLine>, NoMemory>
    ensures { IfOk result (λ found. found ≡ map sub_of (filter is_sub body.now)) }
{
    let mut found = Seq::new(alloc);
    for card in body {
        add_sub(alloc, &mut found, card)?;
    }
    Ok(found)
}
