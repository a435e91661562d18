//! Laws of the table of cells, each the contract of a function that does nothing.

ghost use Rattle.whole_cells.specs.Entered.{EnteredAreApart, EnteredAreWholeCells};

/// Where each chosen instance has an entry in the table, the table has what the instances left whole have in common.
pub fn entered_are_whole_cells()
    ensures { EnteredAreWholeCells }
{}

/// And the outputs of each cell with such an instance have different signals.
pub fn entered_are_apart()
    ensures { EnteredAreApart }
{}
