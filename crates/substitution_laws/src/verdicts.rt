//! Verdicts of the checked circuit.

ghost use Rattle.substitution_laws.specs.Verdicts.{ChainHasNoMoreWork, ChainNeedsNoMore, CheckedVerdictsHold};

/// A budget that is always enough for the flat circuit is enough for each circuit of its chain.
pub fn chain_needs_no_more()
    ensures { ChainNeedsNoMore }
{}

/// A phase of such a circuit, with the models of its whole instances, has no more work than one of the flat circuit.
pub fn chain_has_no_more_work()
    ensures { ChainHasNoMoreWork }
{}

/// What the checked circuit is found to be, the cell is; its first fault is the cell's, at the same place and with the same words.
pub fn checked_verdicts_hold()
    ensures { CheckedVerdictsHold }
{}
