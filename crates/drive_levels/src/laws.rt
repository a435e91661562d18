//! What is found of nets and output ports in all phases together.

ghost use Rattle.drive_levels.specs.PortLevels.{FoundDrivesAreTold, LevelsAreJoined};

/// What `join_levels` leaves after so many phases are the levels of the ports in these.
pub fn levels_are_joined()
    ensures { LevelsAreJoined }
{}

/// The drive by what is found of an output port is what the facts of its cell say of it.
pub fn found_drives_are_told()
    ensures { FoundDrivesAreTold }
{}
