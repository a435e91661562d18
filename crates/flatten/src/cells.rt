//! Cells by their numbers.

ghost use Rattle.std.specs.Prelude.{◌≡◌, ◌<◌, [], true, length, unwrap_or};
ghost use Rattle.rule_index.specs.Firsts.{value_in};
ghost use Rattle.vrt_model.specs.Comparison.{cell_at};

use rule_index::FirstValues;
use vrt_model::{Cell, Design};

/// A cell by its number.
pub fn cell_of(design: &Design, cell: u32) -> &Cell
    requires { cell < length design.now.cells }
    ensures { result.now ≡ cell_at design.now cell }
{
    &design.cells.as_slice()[cell as usize]
}

/// The number of a cell by its name, 0 where there is none of it.
pub fn cell_number(cells: &FirstValues<usize>, name: &[u8]) -> usize
    ensures { result ≡ unwrap_or (value_in cells.now name.now) 0 }
{
    match cells.get(name) {
        Some(number) => *number,
        None => 0,
    }
}

/// Whether a cell is there and has no instances.
pub fn is_leaf(design: &Design, cell: u32) -> bool
    ensures there { result ≡ true → cell < length design.now.cells }
    ensures leaf { result ≡ true → (cell_at design.now cell).instances ≡ [] }
{
    match design.cells.get(cell as usize) {
        Some(found) => found.instances.is_empty(),
        None => false,
    }
}
