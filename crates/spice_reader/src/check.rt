//! The first fault of the cards of a netlist, and those of which its design tells.

ghost use Rattle.std.specs.Prelude.{◌≡◌, ◌≤◌, ◌<◌, ◌+◌, ◌^◌, ◌⊎◌, [], length, OnOk, IfOk, IfErr};
ghost use Rattle.spice_reader.specs.Cards.{cards_of};
ghost use Rattle.spice_reader.specs.Netlist.{design_of};
ghost use Rattle.spice_reader.specs.Opened.{cards_left};
ghost use Rattle.spice_reader.specs.Refused.{IsNetlist, IsFaultOf, fault_by, known_by};
ghost use Rattle.text_lines.specs.Faults.{Judges};
ghost use Rattle.spice_reader.specs.Learned.{is_told, learned, with_card, Reads};

use crate::SpiceFault;
use crate::card::Card;
use crate::cards::{Reading, next_card};
use crate::judge::judge;
use crate::known::{Known, is_within, learn};
use crate::words::{is_element_card, is_first, is_model_card, opens, shuts};
use names::Names;
use std::alloc::Global;
use vrt_model::Seq;

/// Whether the design tells of a card: of a cell, of global nets or of a model, or a transistor or an instance inside a
/// cell.
fn is_told(known: &Known, card: &Card) -> bool
    ensures { result ≡ is_told known.now card.now }
{
    opens(card)
        || shuts(card)
        || is_model_card(card)
        || is_first(card, b".global".as_slice())
        || is_within(known) && is_element_card(card)
}

/// Keeps a card, if the design tells of it.
fn keep(kept: &mut Seq<Card>, card: Card, is_told: bool) -> Result<(), SpiceFault>
    ensures kept { OnOk result (kept.new ≡ with_card is_told kept.old card) }
    ensures err { IfErr result (λ fault. fault ≡ SpiceFault.NoMemory) }
{
    if !is_told {
        return Ok(());
    }
    match kept.append(card) {
        Ok(()) => Ok(()),
        Err(_) => Err(SpiceFault::NoMemory),
    }
}

/// Judges a card, learns it if it has no fault, and keeps it if the design tells of it.
fn take_card(
    alloc: Global,
    known: &mut Known,
    kept: &mut Seq<Card>,
    card: Card,
) -> Result<(), SpiceFault>
    ensures fault { Judges SpiceFault.NoMemory result (fault_by known.old card) }
    ensures next { OnOk result (known.new ≡ learned known.old card) }
    ensures kept { OnOk result (kept.new ≡ with_card (is_told known.old card) kept.old card) }
{
    let told = is_told(known, &card);
    judge(alloc, known, &card)?;
    match learn(alloc, known, &card) {
        Ok(()) => keep(kept, card, told),
        Err(_) => Err(SpiceFault::NoMemory),
    }
}

/// Takes all cards that are left, up to the first with a fault.
fn take_all(
    alloc: Global,
    reading: &mut Reading,
    known: &mut Known,
    kept: &mut Seq<Card>,
) -> Result<(), SpiceFault>
    requires room { reading.old.number + length reading.old.bytes.now < 2 ^ 32 }
    requires known { known.old ≡ known_by [] }
    requires kept { kept.old ≡ [] }
    ensures ok { OnOk result (Reads (cards_left reading.old.number reading.old.bytes.now reading.old.opened) [] known.new kept.new) }
    ensures err { IfErr result (λ fault. (fault ≡ SpiceFault.NoMemory) ⊎ IsFaultOf (cards_left reading.old.number reading.old.bytes.now reading.old.opened) fault) }
{
    'cards: loop {
        let Ok(card) = next_card(alloc, reading) else {
            return Err(SpiceFault::NoMemory);
        };
        match card {
            Some(card) => take_card(alloc, known, kept, card)?,
            None => return Ok(()),
        }
    }
}

/// Takes all cards of a netlist. A cell that is open at the end is a fault, where no other stands.
fn take_netlist(
    alloc: Global,
    text: &[u8],
    known: &mut Known,
    kept: &mut Seq<Card>,
) -> Result<(), SpiceFault>
    requires text { length text.now ≤ 16777216 }
    requires known { known.old ≡ known_by [] }
    requires kept { kept.old ≡ [] }
    ensures ok { OnOk result (IsNetlist (cards_of text.now) × (design_of kept.new ≡ design_of (cards_of text.now))) }
    ensures err { IfErr result (λ fault. (fault ≡ SpiceFault.NoMemory) ⊎ IsFaultOf (cards_of text.now) fault) }
{
    let mut reading = Reading {
        number: 1,
        bytes: text,
        opened: None,
    };
    take_all(alloc, &mut reading, known, kept)?;
    match &known.inside {
        Some(cell) => Err(SpiceFault::Unfinished { line: cell.line }),
        None => Ok(()),
    }
}

/// The cards of a netlist of which its design tells. Ok exactly where no fault stands. Else the first fault, and an open
/// cell only where no other stands.
pub fn read_cards(alloc: Global, text: &[u8]) -> Result<Seq<Card>, SpiceFault>
    requires { length text.now ≤ 16777216 }
    ensures ok { IfOk result (λ kept. IsNetlist (cards_of text.now) × (design_of kept ≡ design_of (cards_of text.now))) }
    ensures err { IfErr result (λ fault. (fault ≡ SpiceFault.NoMemory) ⊎ IsFaultOf (cards_of text.now) fault) }
{
    let mut known = Known {
        cells: Names::new(alloc),
        inside: None,
        elements: Names::new(alloc),
    };
    let mut kept = Seq::new(alloc);
    take_netlist(alloc, text, &mut known, &mut kept)?;
    Ok(kept)
}
