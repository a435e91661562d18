//! What is looked up by name in every cell.

ghost use Rattle.std.specs.Prelude.{◌≡◌, [], OnOk, IfOk, map};
ghost use Rattle.net_tables.specs.Names.{AreShared, IsFresh, cell_in, shared_in};
ghost use Rattle.vrt_model.specs.Inputs.{IsDesign};
ghost use Rattle.vrt_model.specs.Lists.{distinct};

use crate::types::CellNet;
use names::Names;
use rule_index::{FirstValues, note_supplies, supply};
use std::alloc::Global;
use vrt_model::{Cell, Design, NoMemory, Rules};

/// The names that are the same in every cell.
pub struct SharedNames {
    /// The names of the cells. The place of a name is the number of its cell.
    pub(crate) cells: Names,
    /// The names of the supplies.
    pub(crate) supplies: FirstValues<bool>,
    /// The names on `.global` cards.
    pub(crate) globals: Names,
}

/// By hand, so that letting go of one is a call.
impl Drop for SharedNames {
    fn drop(self) {
        let SharedNames {
            cells: _cells,
            supplies: _supplies,
            globals: _globals,
        } = self;
    }
}

/// Adds the names of cells, to none.
fn add_cells(names: &mut Names, cells: &[Cell]) -> Result<(), NoMemory>
    requires { names.old ≡ [] }
    ensures { OnOk result (names.new ≡ distinct (map (λ c. c.name) cells.now)) }
{
    for cell in cells {
        names.number(cell.name.as_bytes())?;
    }
    Ok(())
}

impl SharedNames {
    /// With no name. It takes no memory.
    pub(crate) fn new(alloc: Global) -> Self
        ensures { IsFresh result }
    {
        SharedNames {
            cells: Names::new(alloc),
            supplies: FirstValues::new(alloc),
            globals: Names::new(alloc),
        }
    }

    /// Adds the names of a netlist and its rules, to none.
    pub(crate) fn fill(&mut self, design: &Design, rules: &Rules) -> Result<(), NoMemory>
        requires netlist { IsDesign design.now }
        requires fresh { IsFresh self.old }
        ensures { OnOk result (AreShared design.now rules.now self.new) }
    {
        add_cells(&mut self.cells, design.cells.as_slice())?;
        note_supplies(&mut self.supplies, rules.supplies.as_slice())?;
        self.globals.add_all(design.globals.as_slice())?;
        Ok(())
    }

    /// The number of the cell of a name, 0 where there is none.
    pub(crate) fn cell(&self, name: &[u8]) -> usize
        ensures { result ≡ cell_in self.now name.now }
    {
        self.cells.place(name).unwrap_or(0)
    }

    /// The net of a name in a cell with some ports, unless it is an own net of the cell.
    pub(crate) fn net(&self, ports: &Names, name: &[u8]) -> Option<CellNet>
        ensures { result ≡ shared_in self.now ports.now name.now }
    {
        if let Some(value) = supply(&self.supplies, name) {
            return Some(CellNet::Supply(value));
        }
        if let Some(place) = ports.place(name) {
            return Some(CellNet::Port(place));
        }
        match self.globals.place(name) {
            Some(place) => Some(CellNet::Global(place)),
            None => None,
        }
    }
}
