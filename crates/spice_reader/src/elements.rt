//! The transistors and instances of a cell.

ghost use Rattle.std.specs.Prelude.{◌≡◌, ◌++◌, ◌∷◌, [], map, filter, OnOk, IfOk};
ghost use Rattle.text_lines.specs.Bytes.{words_of};
ghost use Rattle.text_lines.specs.Words.{but_last, last_word};
ghost use Rattle.spice_reader.specs.Netlist.{is_device, is_instance, device_of, instance_of, without_slash, tied_words};

use crate::card::Card;
use crate::words::{cut_word, first, has_letter, nth_word, plain, tail};
use std::alloc::Global;
use text_lines::{count_words, first_words, line_words};
use vrt_model::{DeviceCard, InstanceCard, NoMemory, Seq, Text};

/// The transistor of a card.
fn device(alloc: Global, card: &Card) -> Result<DeviceCard, NoMemory>
    ensures { IfOk result (λ d. d ≡ device_of card.now) }
{
    let (drain, rest) = cut_word(tail(card.words.as_line()));
    let (gate, rest) = cut_word(rest);
    let (source, rest) = cut_word(rest);
    let (bulk, rest) = cut_word(rest);
    let (model, _) = cut_word(rest);
    Ok(DeviceCard {
        line: card.line,
        name: Text::from_bytes(alloc, first(card))?,
        drain: Text::from_bytes(alloc, drain)?,
        gate: Text::from_bytes(alloc, gate)?,
        source: Text::from_bytes(alloc, source)?,
        bulk: Text::from_bytes(alloc, bulk)?,
        model: Text::from_bytes(alloc, model)?,
    })
}

/// Adds the transistor of a card, if it is one.
fn add_device(alloc: Global, found: &mut Seq<DeviceCard>, card: &Card) -> Result<(), NoMemory>
    ensures { OnOk result (found.new ≡ found.old ++ map device_of (filter is_device (card.now ∷ []))) }
{
    if !has_letter(card, b'm') {
        return Ok(());
    }
    let one = device(alloc, card)?;
    match found.push(one) {
        Ok(()) => Ok(()),
        Err(_) => Err(NoMemory),
    }
}

/// The transistors of the cards of a cell.
pub fn devices(alloc: Global, body: &[Card]) -> Result<Seq<DeviceCard>, NoMemory>
    ensures { IfOk result (λ ds. ds ≡ map device_of (filter is_device body.now)) }
{
    let mut found = Seq::new(alloc);
    for card in body {
        add_device(alloc, &mut found, card)?;
    }
    Ok(found)
}

/// The words but the last.
fn front(line: &[u8]) -> &[u8]
    ensures { words_of result.now ≡ but_last (words_of line.now) }
{
    first_words(count_words(line).saturating_sub(1), line)
}

/// The last word, empty where there is none.
fn end(line: &[u8]) -> &[u8]
    ensures { result.now ≡ last_word (words_of line.now) }
{
    nth_word(line, count_words(line).saturating_sub(1))
}

/// Nets without a lone slash behind them.
fn nets_alone(nets: &[u8]) -> &[u8]
    ensures { words_of result.now ≡ without_slash (words_of nets.now) }
{
    if end(nets) == b"/".as_slice() {
        front(nets)
    } else {
        nets
    }
}

/// The words of an instance card behind its name.
fn tied(card: &Card) -> &[u8]
    ensures { words_of result.now ≡ tied_words card.now }
{
    tail(plain(card.words.as_line()))
}

/// The instance of a card.
fn instance(alloc: Global, card: &Card) -> Result<InstanceCard, NoMemory>
    ensures { IfOk result (λ i. i ≡ instance_of card.now) }
{
    let tied = tied(card);
    Ok(InstanceCard {
        line: card.line,
        name: Text::from_bytes(alloc, first(card))?,
        nets: line_words(alloc, nets_alone(front(tied)))?,
        cell: Text::from_bytes(alloc, end(tied))?,
    })
}

/// Adds the instance of a card, if it is one.
fn add_instance(alloc: Global, found: &mut Seq<InstanceCard>, card: &Card) -> Result<(), NoMemory>
    ensures { OnOk result (found.new ≡ found.old ++ map instance_of (filter is_instance (card.now ∷ []))) }
{
    if !has_letter(card, b'x') {
        return Ok(());
    }
    let one = instance(alloc, card)?;
    match found.push(one) {
        Ok(()) => Ok(()),
        Err(_) => Err(NoMemory),
    }
}

/// The instances of the cards of a cell.
pub fn instances(alloc: Global, body: &[Card]) -> Result<Seq<InstanceCard>, NoMemory>
    ensures { IfOk result (λ found. found ≡ map instance_of (filter is_instance body.now)) }
{
    let mut found = Seq::new(alloc);
    for card in body {
        add_instance(alloc, &mut found, card)?;
    }
    Ok(found)
}
