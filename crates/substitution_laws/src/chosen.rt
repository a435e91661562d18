//! Instances that are chosen by facts.

ghost use Rattle.substitution_laws.specs.Chosen.{ChosenCellsAreLogic, ChosenInstancesAreSteps};

/// A chosen instance is one more step, and its cell is supported.
pub fn chosen_instances_are_steps()
    ensures { ChosenInstancesAreSteps }
{}

/// Its cell is a logic cell: it is equal, and has neither holds nor latches, and no channel meets its inputs.
pub fn chosen_cells_are_logic()
    ensures { ChosenCellsAreLogic }
{}
