//! Supported cells.

ghost use Rattle.formed_cells.specs.Formed.{SupportedCellsAreFormed};

/// Where models and rules are as their readers give them, the comparison of each supported cell is well formed.
pub fn supported_cells_are_formed()
    ensures { SupportedCellsAreFormed }
{}
