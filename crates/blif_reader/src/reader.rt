//! The reader.

ghost use Rattle.std.specs.Prelude.{◌≡◌, ◌≤◌, ◌⊎◌, length, IfOk, IfErr};
ghost use Rattle.text_lines.specs.Faults.{IsClean, IsFirst};
ghost use Rattle.vrt_model.specs.Inputs.{IsBlif};
ghost use Rattle.blif_reader.specs.Cards.{cards_of};
ghost use Rattle.blif_reader.specs.Models.{blif_of};
ghost use Rattle.blif_reader.specs.Refused.{fault_of};

use crate::BlifFault;
use crate::build::build;
use crate::check::read_cards;
use std::alloc::Global;
use vrt_model::Blif;

/// Reads a text of Berkeley BLIF models with covers, latches and sub-models. The text has at most 16,777,216 bytes. It
/// takes time and memory in proportion to them.
pub fn read_blif(alloc: Global, text: &[u8]) -> Result<Blif, BlifFault>
    requires { length text.now ≤ 16777216 }
    // Taken only where no fault stands, and then these are the models of the cards.
    ensures ok { IfOk result (λ blif. IsClean fault_of (cards_of text.now) × (blif ≡ blif_of (cards_of text.now))) }
    // The models are then such as the calls above take: names that differ, rows that fit, and the limits.
    ensures fit { IfOk result IsBlif }
    // Refused only with the first fault, or for want of memory.
    ensures err { IfErr result (λ fault. (fault ≡ BlifFault.NoMemory) ⊎ IsFirst fault_of (cards_of text.now) fault) }
{
    let cards = read_cards(alloc, text)?;
    match build(alloc, cards.as_slice()) {
        Ok(blif) => Ok(blif),
        Err(_) => Err(BlifFault::NoMemory),
    }
}
