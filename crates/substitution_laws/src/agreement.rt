//! The flat circuit and the checked one.

ghost use Rattle.substitution_laws.specs.Agreement.{ChainIsAlwaysSolved, CheckedCircuitsAgree};

/// Each circuit between the two has exactly one solution in each phase at each valuation.
pub fn chain_is_always_solved()
    ensures { ChainIsAlwaysSolved }
{}

/// The same valuations meet the constraints, and nothing is wrong in the one exactly where nothing is wrong in the other.
pub fn checked_circuits_agree()
    ensures { CheckedCircuitsAgree }
{}
