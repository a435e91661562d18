//! What is found in the phases of a checked circuit.

ghost use Rattle.checked_cells.specs.Verdicts.{CheckedVariablesAreSame, FlatVerdictsHold, FoundVerdictsHold};

/// The variables of a phase are those of the flat circuit, with the same names.
pub fn checked_variables_are_same()
    ensures { CheckedVariablesAreSame }
{}

/// What is found in the checked circuit is the cell's verdict; the budget may stand in its place where it may be passed in the flat
/// circuit.
pub fn found_verdicts_hold()
    ensures { FoundVerdictsHold }
{}

/// The verdict of the flat circuit is the cell's where no instance is left whole.
pub fn flat_verdicts_hold()
    ensures { FlatVerdictsHold }
{}
