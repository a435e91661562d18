//! The earliest of several things that stand on lines of a text. Laws alone, each the contract of a function that does nothing.
#![tactic(auto)]

ghost use Rattle.line_laws.specs.Lines.{EarliestIsFirst};

/// The earliest of some places, each on a line, is the first of them before whose line no other stands.
pub fn earliest_is_first()
    ensures { EarliestIsFirst }
{}
