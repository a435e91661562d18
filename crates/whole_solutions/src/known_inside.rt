//! Nets of a cell that are known before anything is solved, in a circuit around the cell.

ghost use Rattle.whole_solutions.specs.KnownInside.{KnownInsideIsAssured, KnownInsideIsSolved, KnownInsideShows, UnknownOutputsAreUnsettled};

/// A net that is known in a cell shows its bit in each state of a circuit in which the cell stands, where the known gates of the
/// cell have theirs. No exposed net may be in a shut set whose gates are known.
pub fn known_inside_shows()
    ensures { KnownInsideShows }
{}

/// Each solution of the circuit has the bits of the nets that are known in the cell, where it has those of the cell's clock ports.
pub fn known_inside_is_solved()
    ensures { KnownInsideIsSolved }
{}

/// A plain net that is known in the cell shows its bit in the cell alone, and conducting devices join it to no exposed net. So its
/// bit is assured with the cell whole, also where an output fights.
pub fn known_inside_is_assured()
    ensures { KnownInsideIsAssured }
{}

/// No exposed net is in a shut set whose gates are known, where none is known, and in one state of the cell each shows a bit, as
/// all outputs of a cell that is equal do.
pub fn unknown_outputs_are_unsettled()
    ensures { UnknownOutputsAreUnsettled }
{}
