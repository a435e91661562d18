//! The drives of the outputs of whole instances, where one more instance is whole.

ghost use Rattle.checked_chain.specs.Drives.{DrivesStay};

/// Each output that was there has the drive that it had, soft or not, where the outputs of the instance that comes in stand where its
/// devices met anything.
pub fn drives_stay()
    ensures { DrivesStay }
{}
