//! The cards of a text, up to the first fault.

ghost use Rattle.std.specs.Prelude.{◌≡◌, ◌≤◌, ◌<◌, ◌+◌, ◌^◌, ◌⊎◌, ◌++◌, ◌∷◌, [], length, OnOk, IfOk, IfErr};
ghost use Rattle.text_lines.specs.Faults.{IsClean, IsFirst, Judges};
ghost use Rattle.blif_reader.specs.Cards.{cards_of};
ghost use Rattle.blif_reader.specs.Opened.{cards_left};
ghost use Rattle.blif_reader.specs.Refused.{ends_network, fault_by, fault_of, known_by};
ghost use Rattle.blif_reader.specs.Learned.{cover_behind, learned, models_behind, open_behind, Reads, with_row};
ghost use Rattle.blif_reader.specs.Models.{begins_model, ends_model, is_exdc};

use crate::BlifFault;
use crate::cards::{Card, Reading, next_card};
use crate::covers::{input_count, is_on_row};
use crate::judge::judge;
use crate::known::{Known, OpenCover};
use crate::words::{has_dot, is_cover_card, is_exdc_card, name_of, opens, shuts};
use names::Names;
use std::alloc::Global;
use vrt_model::{NoMemory, Seq};

/// Adds the name of a model, if the card begins one.
fn learn_model(models: &mut Names, card: &Card) -> Result<(), NoMemory>
    ensures { OnOk result (models.new ≡ models_behind models.old card.now) }
{
    if !opens(card) {
        return Ok(());
    }
    models.number(name_of(card))?;
    Ok(())
}

/// Whether a model is open behind a card.
fn is_inside_behind(is_inside: bool, card: &Card) -> bool
    ensures { result ≡ open_behind begins_model ends_model is_inside card.now }
{
    if opens(card) {
        return true;
    }
    if shuts(card) {
        return false;
    }
    is_inside
}

/// Whether a don't-care network is open behind a card.
fn in_network_behind(in_network: bool, card: &Card) -> bool
    ensures { result ≡ open_behind is_exdc ends_network in_network card.now }
{
    if is_exdc_card(card) {
        return true;
    }
    if shuts(card) {
        return false;
    }
    in_network
}

/// A cover with a row more.
fn with_row_more(cover: OpenCover, row: &Card) -> OpenCover
    ensures { result ≡ with_row row.now cover }
{
    let first = match cover.first {
        Some(first) => first,
        None => is_on_row(row),
    };
    OpenCover {
        width: cover.width,
        first: Some(first),
    }
}

/// The cover that goes on behind a card.
fn cover_after(cover: Option<OpenCover>, card: &Card) -> Option<OpenCover>
    ensures { result ≡ cover_behind cover card.now }
{
    if is_cover_card(card) {
        return Some(OpenCover {
            width: input_count(card),
            first: None,
        });
    }
    if has_dot(card) {
        return None;
    }
    match cover {
        Some(cover) => Some(with_row_more(cover, card)),
        None => None,
    }
}

/// What is known behind a card.
fn learn(known: &mut Known, card: &Card) -> Result<(), NoMemory>
    ensures { OnOk result (known.new ≡ learned known.old card.now) }
{
    learn_model(&mut known.models, card)?;
    known.is_inside = is_inside_behind(known.is_inside, card);
    known.in_network = in_network_behind(known.in_network, card);
    known.cover = cover_after(known.cover, card);
    Ok(())
}

/// Judges a card, and learns and keeps it if it has no fault.
fn take_card(
    alloc: Global,
    known: &mut Known,
    cards: &mut Seq<Card>,
    card: Card,
) -> Result<(), BlifFault>
    ensures fault { Judges BlifFault.NoMemory result (fault_by known.old card) }
    ensures next { OnOk result (known.new ≡ learned known.old card) }
    ensures cards { OnOk result (cards.new ≡ cards.old ++ card ∷ []) }
{
    judge(alloc, known, &card)?;
    if learn(known, &card).is_err() {
        return Err(BlifFault::NoMemory);
    }
    match cards.append(card) {
        Ok(()) => Ok(()),
        Err(_) => Err(BlifFault::NoMemory),
    }
}

/// Takes all cards that are left, up to the first with a fault.
fn take_all(
    alloc: Global,
    reading: &mut Reading,
    known: &mut Known,
    cards: &mut Seq<Card>,
) -> Result<(), BlifFault>
    requires room { reading.old.number + length reading.old.bytes.now < 2 ^ 32 }
    requires known { known.old ≡ known_by [] }
    requires cards { cards.old ≡ [] }
    ensures ok { OnOk result (Reads (cards_left reading.old.number reading.old.bytes.now reading.old.opened) [] known.new cards.new) }
    ensures err { IfErr result (λ fault. (fault ≡ BlifFault.NoMemory) ⊎ IsFirst fault_of (cards_left reading.old.number reading.old.bytes.now reading.old.opened) fault) }
{
    'cards: loop {
        let Ok(card) = next_card(alloc, reading) else {
            return Err(BlifFault::NoMemory);
        };
        match card {
            Some(card) => take_card(alloc, known, cards, card)?,
            None => return Ok(()),
        }
    }
}

/// Takes the cards of a text, up to the first with a fault.
fn take_text(
    alloc: Global,
    text: &[u8],
    known: &mut Known,
    cards: &mut Seq<Card>,
) -> Result<(), BlifFault>
    requires text { length text.now ≤ 16777216 }
    requires known { known.old ≡ known_by [] }
    requires cards { cards.old ≡ [] }
    ensures ok { OnOk result (IsClean fault_of (cards_of text.now)) }
    ensures cards { OnOk result (cards.new ≡ cards_of text.now) }
    ensures err { IfErr result (λ fault. (fault ≡ BlifFault.NoMemory) ⊎ IsFirst fault_of (cards_of text.now) fault) }
{
    let mut reading = Reading {
        number: 1,
        bytes: text,
        opened: None,
    };
    take_all(alloc, &mut reading, known, cards)?;
    Ok(())
}

/// The cards of a text, blank ones left out, where none has a fault; else the first fault.
pub fn read_cards(alloc: Global, text: &[u8]) -> Result<Seq<Card>, BlifFault>
    requires { length text.now ≤ 16777216 }
    ensures ok { IfOk result (λ cards. IsClean fault_of (cards_of text.now) × (cards ≡ cards_of text.now)) }
    ensures err { IfErr result (λ fault. (fault ≡ BlifFault.NoMemory) ⊎ IsFirst fault_of (cards_of text.now) fault) }
{
    let mut known = Known {
        models: Names::new(alloc),
        is_inside: false,
        in_network: false,
        cover: None,
    };
    let mut cards = Seq::new(alloc);
    take_text(alloc, text, &mut known, &mut cards)?;
    Ok(cards)
}
