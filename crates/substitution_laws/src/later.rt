//! The first fault of the checked circuit, where it is found once all nets are solved.

ghost use Rattle.substitution_laws.specs.LaterFaults.{LaterFaultsStandBelow};

/// It is one of the flat circuit too, at the same place, and described by the same words.
pub fn later_faults_stand_below()
    ensures { LaterFaultsStandBelow }
{}
