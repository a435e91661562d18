//! Lists of signals: the inputs, the clocks and the outputs of a model.

ghost use Rattle.std.specs.Prelude.{◌≡◌, List, map, IfOk, OnOk};
ghost use Rattle.text_lines.specs.Bytes.{words_of};
ghost use Rattle.blif_reader.specs.Built.{AreListed, with_signal, with_signals};
ghost use Rattle.blif_reader.specs.Models.{Listed, listed, listed_on, signals_on, names, lines};

use crate::cards::Card;
use crate::words::is_first;
use names::Names;
use std::alloc::Global;
use text_lines::first_word;
use vrt_model::{NoMemory, Seq, Text};

/// Adds a signal and the line of the card that lists it, unless it is there.
fn add_signal(
    seen: &mut Names,
    numbers: &mut Seq<u32>,
    line: u32,
    name: &[u8],
) -> Result<(), NoMemory>
    ensures { OnOk result ((found : List Listed) → AreListed seen.old numbers.old found → AreListed seen.new numbers.new (with_signal found (listed_on line name.now))) }
{
    let count = seen.len();
    seen.number(name)?;
    if seen.len() == count {
        return Ok(());
    }
    match numbers.push(line) {
        Ok(()) => Ok(()),
        Err(_) => Err(NoMemory),
    }
}

/// Adds the signals of a card, those that are not there.
fn add_signals(
    seen: &mut Names,
    numbers: &mut Seq<u32>,
    line: u32,
    listing: &[u8],
) -> Result<(), NoMemory>
    ensures { OnOk result ((found : List Listed) → AreListed seen.old numbers.old found → AreListed seen.new numbers.new (with_signals found (map (listed_on line) (words_of listing.now)))) }
{
    let mut left = listing;
    'names: while let Some((name, behind)) = first_word(left) {
        add_signal(seen, numbers, line, name)?;
        left = behind;
    }
    Ok(())
}

/// Adds the signals that a card lists, if it is a card of this first word.
fn add_card(
    seen: &mut Names,
    numbers: &mut Seq<u32>,
    word: &[u8],
    card: &Card,
) -> Result<(), NoMemory>
    ensures { OnOk result ((found : List Listed) → AreListed seen.old numbers.old found → AreListed seen.new numbers.new (with_signals found (signals_on word.now card.now))) }
{
    if !is_first(card, word) {
        return Ok(());
    }
    let (_, listing) = card.words.parts();
    add_signals(seen, numbers, card.line, listing)
}

/// The signals that the cards of this first word list, each once: their names, and the line that lists each first.
fn list_signals(alloc: Global, word: &[u8], body: &[Card]) -> Result<(Names, Seq<u32>), NoMemory>
    ensures { IfOk result (λ two. AreListed two.0 two.1 (listed word.now body.now)) }
{
    let mut seen = Names::new(alloc);
    let mut numbers = Seq::new(alloc);
    for card in body {
        add_card(&mut seen, &mut numbers, word, card)?;
    }
    Ok((seen, numbers))
}

/// The signals that the cards of this first word list, each once, and the line that lists each first.
pub fn signals_of(
    alloc: Global,
    word: &[u8],
    body: &[Card],
) -> Result<(Seq<Text>, Seq<u32>), NoMemory>
    ensures { IfOk result (λ two. (two.0 ≡ names (listed word.now body.now)) × (two.1 ≡ lines (listed word.now body.now))) }
{
    let (seen, numbers) = list_signals(alloc, word, body)?;
    let texts = seen.to_texts(alloc)?;
    Ok((texts, numbers))
}
