//! A cell in a circuit: what is outside it, and what that changes inside.

ghost use Rattle.cell_inside.specs.Inside.{OutsideChangesNothing};
ghost use Rattle.cell_inside.specs.Placed.{PlacedCellStandsAlone};

/// Where no path that comes in from outside is stronger, at an exposed output, than what the cell alone gives that output, each
/// net inside has the strength that it has in the cell alone, and each value that reaches it there reaches it in the circuit.
/// No other value reaches it, unless both values reach some exposed output. At one reading, for any two networks of which one
/// stands in the other. An output is exposed where it meets channels or roots outside, and not gates alone.
pub fn outside_changes_nothing()
    ensures { OutsideChangesNothing }
{}

/// The same for the flat circuit of a cell, without holds and whole instances, that stands in a circuit, where no device and no
/// drive outside is stronger than the exposed output at which it is: in each state of the circuit, bare or kept.
pub fn placed_cell_stands_alone()
    ensures { PlacedCellStandsAlone }
{}
