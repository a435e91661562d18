//! What a checked circuit is made of.

ghost use Rattle.checked_cells.specs.Given.{CheckedCellsAreByFacts, NothingIsWhole};

/// The checked circuit of a supported cell is made of a sound netlist, and of instances that are chosen by what is known of the cells
/// below, where this is true.
pub fn checked_cells_are_by_facts()
    ensures { CheckedCellsAreByFacts }
{}

/// Where no instance is of a cell that is known as equal and stateless, none is left whole, and the checked circuit is the flat one.
pub fn nothing_is_whole()
    ensures { NothingIsWhole }
{}
