//! One further instance is left whole, whatever its outputs meet.

ghost use Rattle.replaced_instances.specs.Shown.{ChosenStepHidesItsNets};
ghost use Rattle.replaced_instances.specs.Steps.{ChosenPortsArePlaced, ChosenStepIsLeftWhole, ChosenStepIsPlaced};

/// In the circuit before, the ports of its cell are as they have to be where it is to stand there: other devices and outputs are at
/// exposed outputs alone, and not above their drives.
pub fn chosen_ports_are_placed()
    ensures { ChosenPortsArePlaced }
{}

/// So the flat circuit of its cell stands in the circuit before.
pub fn chosen_step_is_placed()
    ensures { ChosenStepIsPlaced }
{}

/// What is left of that circuit is the circuit after: no other device goes, holds stay, the pins that were there keep their places
/// and drives, and each exposed output has a pin of its drive.
pub fn chosen_step_is_left_whole()
    ensures { ChosenStepIsLeftWhole }
{}

/// Each net that is hidden is a plain net of the cell, those that remain of these are observed outputs, and all ports are at nets
/// that remain.
pub fn chosen_step_hides_its_nets()
    ensures { ChosenStepHidesItsNets }
{}
