//! Roots that stand for a cell: each exposed output is driven, with the one value and at the level that the cell alone gives
//! it, and the cell's devices are gone.

ghost use Rattle.cell_inside.specs.LeftWhole.{LeftWholeIsSame};
ghost use Rattle.cell_inside.specs.Replaced.{WholeStandsForCell, WholeStandsForUnjoinedOutputs};
ghost use Rattle.cell_inside.specs.Unjoined.{PartedOutputsAreUnjoined};

/// With roots in place of the cell each net outside, exposed outputs among them, has the strength that it has with the cell,
/// and each value that reaches it reaches it with the cell too. Where no exposed output fights with the roots, no other value
/// reaches it with the cell, and the same values reach each net inside as in the cell alone. At one reading, for all networks.
pub fn whole_stands_for_cell()
    ensures { WholeStandsForCell }
{}

/// Where conducting devices of the cell join no two exposed outputs, exactly the same values reach each net outside with roots
/// in place of the cell as with the cell, also where an output fights. A value that reaches a net inside reaches it in the cell
/// alone, or the net is joined to an output that fights.
pub fn whole_stands_for_unjoined_outputs()
    ensures { WholeStandsForUnjoinedOutputs }
{}

/// The same for a circuit with the flat circuit of a cell in it, and the circuit in which this instance is left whole, in
/// states that correspond, bare or kept.
pub fn left_whole_is_same()
    ensures { LeftWholeIsSame }
{}

/// Where no two exposed outputs are in one part of the cell, and the gates that are known in a phase have their bits, no
/// conducting devices of the cell join two exposed outputs.
pub fn parted_outputs_are_unjoined()
    ensures { PartedOutputsAreUnjoined }
{}
