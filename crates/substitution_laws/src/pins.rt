//! Output pins before and after a step.

ghost use Rattle.substitution_laws.specs.Pins.{StepHasCellPins, StepHasOneMoreWhole};

/// Where one more instance is whole, the pins that were there keep their signals, and those at plain nets of its cell are its own.
pub fn step_has_cell_pins()
    ensures { StepHasCellPins }
{}

/// Whole instances stay, each with its model, inputs, outputs and links, and the instance is one more.
pub fn step_has_one_more_whole()
    ensures { StepHasOneMoreWhole }
{}
