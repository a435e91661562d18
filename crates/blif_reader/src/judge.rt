//! The fault of a card, by what the cards before it tell.

ghost use Rattle.std.specs.Prelude.{◌≡◌, ◌⊎◌, ℕ, List, [], ◌∷◌, codes, is_none};
ghost use Rattle.std.specs.List.{list_all, list_any};
ghost use Rattle.vrt_model.specs.Lists.{has_name};
ghost use Rattle.blif_reader.specs.Cards.{first_word};
ghost use Rattle.blif_reader.specs.Models.{model_name};
ghost use Rattle.blif_reader.specs.Refused.{differs_from, differs_in, fault_by, fits, goes_there, has_bad_tie, is_as_latch, is_bad_latch, is_bad_row, is_bad_tie, is_input_byte, is_known, is_known_there, is_mixed, is_model_twice, is_other, is_output_word, is_outside, is_row, is_short, passes_limit};
ghost use Rattle.text_lines.specs.Bytes.{words_of};
ghost use Rattle.text_lines.specs.Faults.{Judges};

use crate::BlifFault;
use crate::cards::Card;
use crate::covers::{input_count, is_on_row};
use crate::known::{Known, OpenCover};
use crate::latches::has_latch_form;
use crate::subs::is_bad_tie_word;
use crate::words::{
    has_dot, is_cover_card, is_first, is_latch_card, is_sub_card, name_of, opens, shuts, word,
    words_behind,
};
use std::alloc::Global;
use text_lines::first_word;
use vrt_model::Text;

/// Whether the profile has a card of this first word.
fn is_card_known(card: &Card) -> bool
    ensures { result ≡ is_known card.now }
{
    is_first(card, b".model".as_slice())
        || is_first(card, b".end".as_slice())
        || is_first(card, b".inputs".as_slice())
        || is_first(card, b".clock".as_slice())
        || is_first(card, b".outputs".as_slice())
        || is_first(card, b".names".as_slice())
        || is_first(card, b".latch".as_slice())
        || is_first(card, b".subckt".as_slice())
        || is_first(card, b".exdc".as_slice())
}

/// Whether a don't-care network has a card of this first word, or ends with it.
fn is_card_known_there(card: &Card) -> bool
    ensures { result ≡ is_known_there card.now }
{
    is_first(card, b".model".as_slice())
        || is_first(card, b".end".as_slice())
        || is_first(card, b".inputs".as_slice())
        || is_first(card, b".outputs".as_slice())
        || is_first(card, b".names".as_slice())
}

/// Whether a card has a place in a don't-care network, behind this cover.
fn has_place(cover: &Option<OpenCover>, card: &Card) -> bool
    ensures { result ≡ goes_there cover.now card.now }
{
    if has_dot(card) {
        return is_card_known_there(card);
    }
    cover.is_some()
}

fn is_other_card(known: &Known, card: &Card) -> bool
    ensures { result ≡ is_other known.now card.now }
{
    if known.in_network {
        return !has_place(&known.cover, card);
    }
    has_dot(card) && !is_card_known(card)
}

fn is_asynchronous(card: &Card) -> bool
    ensures { result ≡ is_as_latch card.now }
{
    let (_, rest) = card.words.parts();
    is_latch_card(card)
        && (card.words.len() == 5 || card.words.len() == 6)
        && word(rest, 2) == b"as".as_slice()
}

fn is_outside_model(known: &Known, card: &Card) -> bool
    ensures { result ≡ is_outside known.now card.now }
{
    !known.is_inside && !shuts(card)
}

fn is_bit_or_dash(b: u8) -> bool
    ensures { result ≡ is_input_byte b }
{
    b == b'0' || b == b'1' || b == b'-'
}

fn is_bit(word: &[u8]) -> bool
    ensures { result ≡ is_output_word word.now }
{
    word == b"0".as_slice() || word == b"1".as_slice()
}

fn are_inputs(bits: &[u8]) -> bool
    ensures { result ≡ list_all is_input_byte bits.now }
{
    // without an early exit, which takes longer than the few bytes that it would spare
    let mut all = true;
    for b in bits {
        all = is_bit_or_dash(*b) && all;
    }
    all
}

/// Whether words are a row of a cover with so many inputs: one, and those of a line behind it.
fn is_row_of(width: usize, first: &[u8], rest: &[u8]) -> bool
    ensures { result ≡ is_row width (first.now ∷ words_of rest.now) }
{
    match first_word(rest) {
        None => width == 0 && is_bit(first),
        Some((out, more)) => {
            first_word(more).is_none()
                && width != 0
                && first.len() == width
                && are_inputs(first)
                && is_bit(out)
        }
    }
}

fn fits_cover(cover: &Option<OpenCover>, card: &Card) -> bool
    ensures { result ≡ fits cover.now card.now }
{
    match cover {
        Some(cover) => {
            let (first, rest) = card.words.parts();
            is_row_of(cover.width, first, rest)
        }
        None => false,
    }
}

fn is_row_refused(known: &Known, card: &Card) -> bool
    ensures { result ≡ is_bad_row known.now card.now }
{
    !has_dot(card) && !fits_cover(&known.cover, card)
}

fn differs(first: Option<bool>, on: bool) -> bool
    ensures { result ≡ differs_from first on }
{
    match first {
        None => false,
        Some(true) => !on,
        Some(false) => on,
    }
}

fn differs_in_cover(cover: &Option<OpenCover>, card: &Card) -> bool
    ensures { result ≡ differs_in cover.now card.now }
{
    match cover {
        Some(cover) => differs(cover.first, is_on_row(card)),
        None => false,
    }
}

fn is_row_mixed(known: &Known, card: &Card) -> bool
    ensures { result ≡ is_mixed known.now card.now }
{
    !has_dot(card) && differs_in_cover(&known.cover, card)
}

fn is_latch_refused(card: &Card) -> bool
    ensures { result ≡ is_bad_latch card.now }
{
    let (_, rest) = card.words.parts();
    is_latch_card(card) && card.words.len() >= 3 && !has_latch_form(words_behind(rest, 2))
}

fn has_bad_tie_among(line: &[u8]) -> bool
    ensures { result ≡ list_any is_bad_tie (words_of line.now) }
{
    let mut left = line;
    'words: while let Some((word, behind)) = first_word(left) {
        if is_bad_tie_word(word) {
            return true;
        }
        left = behind;
    }
    false
}

fn has_tie_refused(card: &Card) -> bool
    ensures { result ≡ has_bad_tie card.now }
{
    let (_, rest) = card.words.parts();
    is_sub_card(card) && has_bad_tie_among(words_behind(rest, 1))
}

fn is_second_model(known: &Known, card: &Card) -> bool
    ensures { result ≡ is_model_twice known.now card.now }
{
    opens(card) && card.words.len() >= 2 && known.models.contains(name_of(card))
}

fn is_too_short(card: &Card) -> bool
    ensures { result ≡ is_short card.now }
{
    (opens(card) || is_cover_card(card) || is_sub_card(card)) && card.words.len() < 2
        || is_latch_card(card) && card.words.len() < 3
}

fn is_past_limit(known: &Known, card: &Card) -> bool
    ensures { result ≡ passes_limit known.now card.now }
{
    opens(card) && known.models.len() >= 4096 || is_cover_card(card) && input_count(card) > 1000
}

/// The fault of a card that is not supported.
fn unsupported(alloc: Global, line: u32, word: &[u8]) -> BlifFault
    ensures { (result ≡ BlifFault.NoMemory) ⊎ (result ≡ BlifFault.Unsupported line word.now) }
{
    match Text::from_bytes(alloc, word) {
        Ok(word) => BlifFault::Unsupported { line, word },
        Err(_) => BlifFault::NoMemory,
    }
}

/// The fault of a second model of a name.
fn model_twice(alloc: Global, card: &Card) -> BlifFault
    ensures { (result ≡ BlifFault.NoMemory) ⊎ (result ≡ BlifFault.ModelTwice card.now.line (model_name card.now)) }
{
    match Text::from_bytes(alloc, name_of(card)) {
        Ok(name) => BlifFault::ModelTwice {
            line: card.line,
            name,
        },
        Err(_) => BlifFault::NoMemory,
    }
}

/// Refuses a card with its fault, if it has one. Of several it is the one of the lowest number.
#[tactic(auto, unfolding(crate::specs::Refused::fault_by))]
pub fn judge(alloc: Global, known: &Known, card: &Card) -> Result<(), BlifFault>
    ensures { Judges BlifFault.NoMemory result (fault_by known.now card.now) }
{
    let line = card.line;
    if !card.is_all_text {
        return Err(BlifFault::NotText { line });
    }
    if is_other_card(known, card) {
        return Err(unsupported(alloc, line, card.words.first()));
    }
    if is_asynchronous(card) {
        return Err(unsupported(alloc, line, b"as".as_slice()));
    }
    if is_outside_model(known, card) {
        return Err(BlifFault::OutsideModel { line });
    }
    if is_row_refused(known, card) {
        return Err(BlifFault::Row { line });
    }
    if is_row_mixed(known, card) {
        return Err(BlifFault::MixedRows { line });
    }
    if is_latch_refused(card) {
        return Err(BlifFault::LatchForm { line });
    }
    if has_tie_refused(card) {
        return Err(BlifFault::Formal { line });
    }
    if is_second_model(known, card) {
        return Err(model_twice(alloc, card));
    }
    if is_too_short(card) {
        return Err(BlifFault::Short { line });
    }
    if is_past_limit(known, card) {
        return Err(BlifFault::Limit { line });
    }
    Ok(())
}
