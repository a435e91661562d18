//! Settled nets, and faults on firm ground.

ghost use Rattle.firm_faults.specs.FirmGround.{FirmGroundStands, FirstFaultIsFirm};
ghost use Rattle.firm_faults.specs.Settled.{SettledNetsStand};

/// A net that is settled in a state always responds as in it, with each solution: it is given, or in a region whose base is settled
/// and shows its own bits, where the other outputs of a whole instance that are linked to one there do not fight.
pub fn settled_nets_stand()
    ensures { SettledNetsStand }
{}

/// What is on firm ground stands: a settled net that fights or floats in some state does so with each solution, and a constraint that is
/// broken there at settled nets is broken with each.
pub fn firm_ground_stands()
    ensures { FirmGroundStands }
{}

/// The first fault of a phase is on firm ground, where it is a fight, a float or a broken constraint: nothing of lower rank is wrong, so
/// all that it rests on has a bit.
pub fn first_fault_is_firm()
    ensures { FirstFaultIsFirm }
{}
