//! The numbers of cells by their names.

ghost use Rattle.std.specs.Prelude.{◌≡◌, ℕ, List, OnOk};
ghost use Rattle.name_tables.specs.Firsts.{IsFresh, value_in};
ghost use Rattle.rule_index.specs.Tables.{cell_numbered};

use name_tables::FirstValues;
use vrt_model::{Cell, NoMemory};

/// Notes the numbers of cells, in a table with nothing noted.
pub(crate) fn note_cells(table: &mut FirstValues<usize>, cells: &[Cell]) -> Result<(), NoMemory>
    requires { IsFresh table.old }
    ensures { OnOk result ((name : List ℕ) → value_in table.new name ≡ cell_numbered cells.now name) }
{
    for (number, cell) in cells.iter().enumerate() {
        table.note(cell.name.as_bytes(), number)?;
    }
    Ok(())
}
