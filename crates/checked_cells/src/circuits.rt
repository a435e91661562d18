//! What a checked circuit shares with the flat one.

ghost use Rattle.checked_cells.specs.Circuits.{CheckedCircuitsAreFormed, CheckedCircuitsShare};

/// It has the nets, as many holds, the groups of holds, and instances of the flat one alone.
pub fn checked_circuits_share()
    ensures { CheckedCircuitsShare }
{}

/// It is well formed.
pub fn checked_circuits_are_formed()
    ensures { CheckedCircuitsAreFormed }
{}
