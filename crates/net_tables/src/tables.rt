//! The nets of all cells of a netlist, made once.

ghost use Rattle.std.specs.Prelude.{◌≡◌, ◌<◌, [], length, IfOk, OnOk};
ghost use Rattle.net_tables.specs.Names.{IsFresh};
ghost use Rattle.net_tables.specs.Nets.{net_in};
ghost use Rattle.net_tables.specs.Tables.{AreNetTables};
ghost use Rattle.vrt_model.specs.Comparison.{cell_at};
ghost use Rattle.vrt_model.specs.Inputs.{IsDesign};
ghost use Rattle.vrt_model.specs.declared.design.Design.{Design as DesignValue};
ghost use Rattle.vrt_model.specs.declared.rules.Rules.{Rules as RulesValue};

use crate::cards::net;
use crate::cell_nets::all_cell_nets;
use crate::shared::SharedNames;
use crate::types::{CellNet, CellNets};
use std::alloc::Global;
use vrt_model::{Design, NoMemory, Rules, Seq};

/// The nets of each cell, and what is looked up by name in every cell.
pub struct NetTables {
    /// The names of the cells, the supplies and the global nets.
    pub shared: SharedNames,
    /// The nets of the cells, by their numbers.
    pub cells: Seq<CellNets>,
}

/// By hand, so that letting go of one is a call.
impl Drop for NetTables {
    fn drop(self) {
        let NetTables {
            shared: _shared,
            cells: _cells,
        } = self;
    }
}

impl NetTables {
    /// With no name and no cell. It takes no memory.
    fn new(alloc: Global) -> Self
        ensures { IsFresh result.shared }
    {
        NetTables {
            shared: SharedNames::new(alloc),
            cells: Seq::new(alloc),
        }
    }

    /// Adds the names and the cells of a netlist and its rules, to none.
    fn fill(&mut self, alloc: Global, design: &Design, rules: &Rules) -> Result<(), NoMemory>
        requires netlist { IsDesign design.now }
        requires fresh { IsFresh self.old.shared }
        ensures { OnOk result (AreNetTables design.now rules.now self.new) }
    {
        self.shared.fill(design, rules)?;
        self.cells = all_cell_nets(alloc, &self.shared, design.cells.as_slice())?;
        Ok(())
    }
}

/// The nets of all cells of a netlist, in a time that grows with the text of the netlist and its rules: for each cell its
/// own nets in the order of first mention, and for each card what its names are. What is said of a cell does not depend on
/// what stands around it.
pub fn net_tables(alloc: Global, design: &Design, rules: &Rules) -> Result<NetTables, NoMemory>
    requires { IsDesign design.now }
    ensures { IfOk result (AreNetTables design.now rules.now) }
{
    let mut tables = NetTables::new(alloc);
    tables.fill(alloc, design, rules)?;
    Ok(tables)
}

/// What a name in a cell is, as rules name nets: a supply, a port, a global net or an own net, by its place. A name that is
/// no net of the cell counts as its first own net.
pub fn find_net(tables: &NetTables, cell: usize, name: &[u8]) -> CellNet
    ensures { (design : DesignValue) (rules : RulesValue) → AreNetTables design rules tables.now → cell < length design.cells → result ≡ net_in design rules (cell_at design cell) name.now }
{
    match tables.cells.get(cell) {
        Some(nets) => net(&tables.shared, &nets.names, name),
        None => CellNet::Own(0),
    }
}
