//! The lines of a text, up to the first fault.

ghost use Rattle.std.specs.Prelude.{◌≡◌, ◌≤◌, ◌<◌, ◌+◌, ◌^◌, ◌++◌, ◌∷◌, ◌⊎◌, [], length, OnOk, IfErr};
ghost use Rattle.text_lines.specs.Faults.{IsClean, IsFirst, Judges};
ghost use Rattle.rules_reader.specs.Entries.{cards_left, cards_of};
ghost use Rattle.rules_reader.specs.Learned.{Reads, learned};
ghost use Rattle.rules_reader.specs.Refused.{fault_by, fault_of, known_by};

use crate::cards::{Card, Reading, next_card};
use crate::faults::RulesFault;
use crate::judge::judge;
use crate::known::Known;
use std::alloc::Global;
use vrt_model::Seq;

/// Judges a line, and learns and keeps it if it has no fault.
fn take_card(
    alloc: Global,
    known: &mut Known,
    cards: &mut Seq<Card>,
    card: Card,
) -> Result<(), RulesFault>
    ensures fault { Judges RulesFault.NoMemory result (fault_by (length cards.old) known.old card) }
    ensures next { OnOk result (known.new ≡ learned known.old card) }
    ensures cards { OnOk result (cards.new ≡ cards.old ++ card ∷ []) }
{
    judge(alloc, cards.len(), known, &card)?;
    match cards.append(card) {
        Ok(()) => Ok(()),
        Err(_) => Err(RulesFault::NoMemory),
    }
}

/// Takes all lines that are left, up to the first with a fault.
fn take_all(
    alloc: Global,
    reading: &mut Reading,
    known: &mut Known,
    cards: &mut Seq<Card>,
) -> Result<(), RulesFault>
    requires room { reading.old.number + length reading.old.bytes.now < 2 ^ 32 }
    requires known { known.old ≡ known_by [] }
    requires cards { cards.old ≡ [] }
    ensures ok { OnOk result (Reads (cards_left reading.old.number reading.old.bytes.now) [] known.new cards.new) }
    ensures err { IfErr result (λ fault. (fault ≡ RulesFault.NoMemory) ⊎ IsFirst fault_of (cards_left reading.old.number reading.old.bytes.now) fault) }
{
    'cards: loop {
        let Ok(card) = next_card(alloc, reading) else {
            return Err(RulesFault::NoMemory);
        };
        match card {
            Some(card) => take_card(alloc, known, cards, card)?,
            None => return Ok(()),
        }
    }
}

/// The lines of a text that are not passed over, and what they tell, where none has a fault; else the first fault.
pub fn read_cards(
    alloc: Global,
    text: &[u8],
    known: &mut Known,
    cards: &mut Seq<Card>,
) -> Result<(), RulesFault>
    requires text { length text.now ≤ 16777216 }
    requires known { known.old ≡ known_by [] }
    requires cards { cards.old ≡ [] }
    ensures ok { OnOk result (IsClean fault_of (cards_of text.now)) }
    ensures known { OnOk result (known.new ≡ known_by (cards_of text.now)) }
    ensures cards { OnOk result (cards.new ≡ cards_of text.now) }
    ensures err { IfErr result (λ fault. (fault ≡ RulesFault.NoMemory) ⊎ IsFirst fault_of (cards_of text.now) fault) }
{
    let mut reading = Reading {
        number: 1,
        bytes: text,
    };
    take_all(alloc, &mut reading, known, cards)?;
    Ok(())
}
