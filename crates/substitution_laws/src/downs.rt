//! A step down.

ghost use Rattle.substitution_laws.specs.StepDowns.{StepsGoDown};

/// From the circuit in which one more instance is whole to that in which its cell stands, a step is one down, as the laws of firm ground
/// ask, and the further whole instance stands for the one at this place.
pub fn steps_go_down()
    ensures { StepsGoDown }
{}
