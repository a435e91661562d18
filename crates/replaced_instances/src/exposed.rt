//! The exposed outputs of an instance that comes to be whole, inside its cell.

ghost use Rattle.replaced_instances.specs.Exposed.{ExposedDrivesAreTrue, ExposedOutputsAreApart, ExposedOutputsHaveDrives};

/// An exposed output has a level in its cell that is its drive, and is alone there, as it is told.
pub fn exposed_drives_are_true()
    ensures { ExposedDrivesAreTrue }
{}

/// So no two exposed outputs are in one part of the cell, bare or kept.
pub fn exposed_outputs_are_apart()
    ensures { ExposedOutputsAreApart }
{}

/// In each state of the cell that agrees with its solution, an exposed output has the strength of its drive, above 0.
pub fn exposed_outputs_have_drives()
    ensures { ExposedOutputsHaveDrives }
{}
