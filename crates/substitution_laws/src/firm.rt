//! Firm ground.

ghost use Rattle.substitution_laws.specs.FirmDown.{FirmGroundReachesFlat};

/// What is on firm ground in a circuit of the chain is on firm ground in the flat one, at the same net or instance.
pub fn firm_ground_reaches_flat()
    ensures { FirmGroundReachesFlat }
{}
