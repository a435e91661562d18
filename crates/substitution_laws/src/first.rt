//! The first fault of the checked circuit, where it is found while the nets are solved.

ghost use Rattle.substitution_laws.specs.FirstFaults.{ChainCircuitsAreOrdered, FirstFaultsStandBelow};

/// In the checked circuit the order of faults rests on what the law of firm ground asks: solutions have the bits of known nets, and what
/// constraints name is observed and linked.
pub fn chain_circuits_are_ordered()
    ensures { ChainCircuitsAreOrdered }
{}

/// If it is a fight, a float or a broken constraint, it is a fault of the flat circuit, at the same place, and described by the same words.
pub fn first_faults_stand_below()
    ensures { FirstFaultsStandBelow }
{}
