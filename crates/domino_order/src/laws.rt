//! Single steps by bits, each law the contract of a function that does nothing.

ghost use Rattle.domino_order.specs.StepBits.{FailingSteps, StepsByBits};
ghost use Rattle.domino_order.specs.ThreeSettings.{ThreeSettings};

/// Where each step holds, by the bits of a valuation and of the arrivals, every order goes well.
pub fn steps_by_bits()
    ensures { StepsByBits }
{}

/// Where a step fails, some order does not go well.
pub fn failing_steps()
    ensures { FailingSteps }
{}

/// A step holds where the circuit settles at its three settings, at the last two to the same bits, and fails where it does not.
#[tactic(auto, using(crate::proofs::ThreeSettings::three_settings))]
pub fn three_settings()
    ensures { ThreeSettings }
{}
