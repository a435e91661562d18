//! What is looked up by name in a netlist.

ghost use Rattle.std.specs.Prelude.{◌≡◌, map, IfOk};
ghost use Rattle.vrt_model.specs.Lists.{distinct};
ghost use Rattle.vrt_model.specs.Inputs.{IsDesign};
ghost use Rattle.hierarchy.specs.Tables.{AreNames};

use names::Names;
use std::alloc::Global;
use vrt_model::{Cell, Design, NoMemory};

/// The names of cells, each once.
fn names_of(alloc: Global, cells: &[Cell]) -> Result<Names, NoMemory>
    ensures { IfOk result (λ names. names ≡ distinct (map (λ c. c.name) cells.now)) }
{
    let mut names = Names::new(alloc);
    for cell in cells {
        names.number(cell.name.as_bytes())?;
    }
    Ok(names)
}

/// The names of the cells of a netlist. The place of a name is the number of its cell.
pub(crate) fn cell_names(alloc: Global, design: &Design) -> Result<Names, NoMemory>
    requires { IsDesign design.now }
    ensures { IfOk result (AreNames design.now) }
{
    let names = names_of(alloc, design.cells.as_slice())?;
    Ok(names)
}
