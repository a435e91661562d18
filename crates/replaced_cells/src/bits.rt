//! The bits of both circuits.

ghost use Rattle.replaced_cells.specs.Agreement.{BitsGoDown};

/// Where a solution with the instance whole has a bit at each observed net, no exposed output always fights, and no constraint of the
/// instance is broken, both circuits have solutions with the same bits at the nets that remain, and that of the circuit has the cell's own
/// solution inside.
pub fn bits_go_down()
    ensures { BitsGoDown }
{}
