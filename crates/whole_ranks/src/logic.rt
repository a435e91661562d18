//! Models without latches.

ghost use Rattle.whole_ranks.specs.Logic.{LogicHasAssignments, SignalsFollowCovers};

/// A model without latches and cycles, each signal of which has one driver, has an assignment whatever the bits of its inputs are.
pub fn logic_has_assignments()
    ensures { LogicHasAssignments }
{}

/// A signal has the same bit in two assignments of such a model where the inputs from which covers lead to it have the same bits.
pub fn signals_follow_covers()
    ensures { SignalsFollowCovers }
{}
