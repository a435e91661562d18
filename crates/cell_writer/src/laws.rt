//! What is written stands for the model of the cell.

ghost use Rattle.cell_writer.specs.Standing.{WrittenCellsStand};

/// The text that is written of an equal cell is read, and with it in the place of all models the cell is supported and equal.
pub fn written_cells_stand()
    ensures { WrittenCellsStand }
{}
