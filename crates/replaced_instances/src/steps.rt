//! The instances of a circuit in which one further instance is left whole.

ghost use Rattle.replaced_instances.specs.Shown.{StepHasLeftInstances};

/// Instances inside the cell are gone, and all others stay; whole instances stay, and the cell is one more, with an observed pin at each
/// observed input.
pub fn step_has_left_instances()
    ensures { StepHasLeftInstances }
{}
