//! The models of cards.

ghost use Rattle.std.specs.Prelude.{◌≡◌, ◌++◌, ◌∷◌, filter, flat_map, map, IfOk, OnOk};
ghost use Rattle.text_lines.specs.Groups.{groups, up_to};
ghost use Rattle.blif_reader.specs.Models.{begins_model, blif_of, covers_in, ends_model, is_sub, latches_in, model_of, network_cards, own_cards, sub_of};

use crate::cards::Card;
use crate::covers::covers_of;
use crate::latches::latches_of;
use crate::signals::signals_of;
use crate::subs::subs_of;
use crate::words::{is_exdc_card, name_of, opens, shuts};
use std::alloc::Global;
use vrt_model::{Blif, BlifModel, CoverLine, LatchLine, NoMemory, Seq, SubLine, Text};

/// The cards before the end of a model.
fn before_end(cards: &[Card]) -> &[Card]
    ensures { result.now ≡ up_to ends_model cards.now }
{
    let mut at = 0;
    'cards: while at < cards.len() {
        if shuts(&cards[at]) {
            return &cards[..at];
        }
        at += 1;
    }
    cards
}

/// The cards of a model before its don't-care network, and those of the network.
fn cut_network(body: &[Card]) -> (&[Card], &[Card])
    ensures own { result.0.now ≡ own_cards body.now }
    ensures network { result.1.now ≡ network_cards body.now }
{
    let mut at = 0;
    'cards: while at < body.len() {
        if is_exdc_card(&body[at]) {
            return (&body[..at], &body[at + 1..]);
        }
        at += 1;
    }
    (body, &[])
}

/// The covers, the latches and the sub-models on cards.
fn parts_of(
    alloc: Global,
    body: &[Card],
) -> Result<(Seq<CoverLine>, Seq<LatchLine>, Seq<SubLine>), NoMemory>
    ensures { IfOk result (λ three. (three.0 ≡ covers_in body.now) × (three.1 ≡ flat_map latches_in body.now) × (three.2 ≡ map sub_of (filter is_sub body.now))) }
{
    let covers = covers_of(alloc, body)?;
    let latches = latches_of(alloc, body)?;
    let subs = subs_of(alloc, body)?;
    Ok((covers, latches, subs))
}

/// The model of its first card and the cards up to its end. What has the most parts comes last.
fn model(alloc: Global, first: &Card, body: &[Card]) -> Result<BlifModel, NoMemory>
    ensures { IfOk result (λ m. m ≡ model_of (first.now, body.now)) }
{
    let (own, network) = cut_network(body);
    let name = Text::from_bytes(alloc, name_of(first))?;
    let (inputs, input_lines) = signals_of(alloc, b".inputs".as_slice(), own)?;
    let (clocks, clock_lines) = signals_of(alloc, b".clock".as_slice(), own)?;
    let (outputs, output_lines) = signals_of(alloc, b".outputs".as_slice(), own)?;
    let exdc = covers_of(alloc, network)?;
    let (covers, latches, subs) = parts_of(alloc, own)?;
    Ok(BlifModel {
        line: first.line,
        name,
        inputs,
        input_lines,
        clocks,
        clock_lines,
        outputs,
        output_lines,
        covers,
        latches,
        subs,
        exdc,
    })
}

/// Adds the model of a card, if it begins one, with the cards behind it.
fn add_model(
    alloc: Global,
    models: &mut Seq<BlifModel>,
    card: &Card,
    behind: &[Card],
) -> Result<(), NoMemory>
    ensures { OnOk result (models.new ++ map model_of (groups begins_model ends_model behind.now) ≡ models.old ++ map model_of (groups begins_model ends_model (card.now ∷ behind.now))) }
{
    if !opens(card) {
        return Ok(());
    }
    let one = model(alloc, card, before_end(behind))?;
    match models.push(one) {
        Ok(()) => Ok(()),
        Err(_) => Err(NoMemory),
    }
}

/// The models of cards.
#[tactic(auto, unfolding(crate::specs::Models::blif_of))]
pub fn build(alloc: Global, cards: &[Card]) -> Result<Blif, NoMemory>
    ensures { IfOk result (λ blif. blif ≡ blif_of cards.now) }
{
    let mut models = Seq::new(alloc);
    let mut at = 0;
    'cards: while at < cards.len() {
        add_model(alloc, &mut models, &cards[at], &cards[at + 1..])?;
        at += 1;
    }
    Ok(Blif { models })
}
