//! The paths of the places of an unrolled cell: how they go on from one another, and that the instances of a cell have different names. Its
//! proofs have cells by their names too. Laws alone, each the contract of a function that does nothing.
#![tactic(auto)]

ghost use Rattle.place_paths.specs.Paths.{InstancesAreApart, PathsGoOn};

/// No two instance cards of a cell have one name.
pub fn instances_are_apart()
    ensures { InstancesAreApart }
{}

/// The path to a place inside another goes on from that one's, and over the step of an instance card where it is another place.
pub fn paths_go_on()
    ensures { PathsGoOn }
{}
