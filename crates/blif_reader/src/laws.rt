//! What the computed fault is.

ghost use Rattle.std.specs.Prelude.{◌≡◌, List, None, Some};
ghost use Rattle.text_lines.specs.Faults.{IsClean, IsFirst};
ghost use Rattle.blif_reader.specs.Refused.{blif_fault, fault_of};
ghost use Rattle.blif_reader.specs.declared.cards.Card.{Card};
ghost use Rattle.blif_reader.specs.declared.faults.BlifFault.{BlifFault};

/// The fault that is computed from cards is the first that stands, and none is computed only where none does.
#[tactic(auto, using(crate::proofs::CheckLaws::fault_is, crate::proofs::CheckLaws::no_fault_is))]
pub fn computed_fault()
    ensures some { (cards : List Card) (f : BlifFault) → blif_fault cards ≡ Some f → IsFirst fault_of cards f }
    ensures none { (cards : List Card) → blif_fault cards ≡ None → IsClean fault_of cards }
{}
