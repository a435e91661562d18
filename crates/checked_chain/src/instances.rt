//! Where instances stand in a circuit in which some are whole.

ghost use Rattle.checked_chain.specs.Instances.{InstancesAreShown, InstancesMove, InstancesStayApart};

/// An instance that is shown stands at its place there, with its path, its cell and its nets.
pub fn instances_move()
    ensures { InstancesMove }
{}

/// Each instance that stands there is one that is shown.
pub fn instances_are_shown()
    ensures { InstancesAreShown }
{}

/// No two instances that are shown have one place.
pub fn instances_stay_apart()
    ensures { InstancesStayApart }
{}
