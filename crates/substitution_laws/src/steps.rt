//! A step.

ghost use Rattle.substitution_laws.specs.Steps.{StepsAreOneMoreWhole};

/// It leaves one more instance whole, as the laws of `replaced_cells` ask.
pub fn steps_are_one_more_whole()
    ensures { StepsAreOneMoreWhole }
{}
