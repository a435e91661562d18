//! The reader.

ghost use Rattle.std.specs.Prelude.{◌≡◌, ◌≤◌, ◌⊎◌, length, IfOk, IfErr};
ghost use Rattle.text_lines.specs.Faults.{IsClean, IsFirst};
ghost use Rattle.vrt_model.specs.Inputs.{AreRules};
ghost use Rattle.rules_reader.specs.Entries.{cards_of};
ghost use Rattle.rules_reader.specs.Refused.{fault_of};
ghost use Rattle.rules_reader.specs.Tables.{AreRulesOf};

use crate::RulesFault;
use crate::build::build;
use crate::check::read_cards;
use crate::known::Known;
use names::Names;
use std::alloc::Global;
use vrt_model::{Rules, Seq, USUAL_SCALE};

/// Reads a rules file. The text has at most 16,777,216 bytes. It takes time and memory in proportion to them, but for
/// lines of a `keeper` or a `phase` with a long name, which is copied for each word behind it.
pub fn read_rules(alloc: Global, text: &[u8]) -> Result<Rules, RulesFault>
    requires { length text.now ≤ 16777216 }
    // Taken only where no fault stands, and then these are the rules of the lines.
    ensures ok { IfOk result (λ rules. IsClean fault_of (cards_of text.now) × AreRulesOf (cards_of text.now) rules) }
    // The rules are then such as the calls above take: keys that differ, numbers in their ranges, and the limits.
    ensures fit { IfOk result AreRules }
    // Refused only with the first fault, or for want of memory.
    ensures err { IfErr result (λ fault. (fault ≡ RulesFault.NoMemory) ⊎ IsFirst fault_of (cards_of text.now) fault) }
{
    let mut known = Known {
        clocks: Names::new(alloc),
        phases: Names::new(alloc),
        keys: Names::new(alloc),
        is_phase_named: false,
        scale: USUAL_SCALE,
        has_levels: false,
    };
    let mut cards = Seq::new(alloc);
    read_cards(alloc, text, &mut known, &mut cards)?;
    match build(alloc, &known, cards.as_slice()) {
        Ok(rules) => Ok(rules),
        Err(_) => Err(RulesFault::NoMemory),
    }
}
