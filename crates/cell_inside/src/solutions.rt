//! Solutions of a circuit, by one of its states.

ghost use Rattle.cell_inside.specs.OneState.{OneStateSaysAll};

/// Where a partial assignment has a bit at each observed net, all gates are observed, and the bits settle what drives the
/// output pins, each net always responds as it does in any one state that agrees with the assignment; which is a solution
/// exactly where each observed net shows its bit in that state.
pub fn one_state_says_all()
    ensures { OneStateSaysAll }
{}
