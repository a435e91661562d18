//! What the computed fault is.

ghost use Rattle.std.specs.Prelude.{◌≡◌, List, None, Some};
ghost use Rattle.text_lines.specs.Faults.{IsClean, IsFirst};
ghost use Rattle.rules_reader.specs.Refused.{fault_of, rules_fault};
ghost use Rattle.rules_reader.specs.declared.cards.Card.{Card};
ghost use Rattle.rules_reader.specs.declared.faults.RulesFault.{RulesFault};

/// The fault that is computed from lines is the first that stands, and none is computed only where none does.
#[tactic(auto, using(crate::proofs::CheckLaws::fault_is, crate::proofs::CheckLaws::no_fault_is))]
pub fn computed_fault()
    ensures some { (cards : List Card) (f : RulesFault) → rules_fault cards ≡ Some f → IsFirst fault_of cards f }
    ensures none { (cards : List Card) → rules_fault cards ≡ None → IsClean fault_of cards }
{}
