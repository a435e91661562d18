//! Names that are looked up in a netlist.

ghost use Rattle.std.specs.Prelude.{◌≡◌, ◌∷◌, [], map, OnOk};
ghost use Rattle.vrt_model.specs.Expressions.{names_in};
ghost use Rattle.vrt_model.specs.Hierarchy.{asked, first_missing};
ghost use Rattle.vrt_model.specs.Inputs.{IsDesign};
ghost use Rattle.hierarchy.specs.Names.{AreTables, is_held, is_in, missing_assumed, missing_by, missing_cell, missing_held, missing_in, port_asked, sets_of};

use crate::held::held_nets;
use crate::sets::{Kind, all_names};
use crate::tables::cell_names;
use names::Names;
use std::alloc::Global;
use vrt_model::{Design, Expr, NoMemory, Rules, Seq};

/// A name on a line of the rules that is not there.
#[derive(Clone, Copy)]
pub struct MissingName<'a> {
    /// The line of the rules file, from 1.
    pub line: u32,
    /// The name of a cell, or of a device, an instance, a net or a port of a cell, in lower case.
    pub name: &'a [u8],
}

/// The names of the cells, and of what is in each.
pub(crate) struct Tables {
    /// The names of the cells. The place of a name is the number of its cell, from 0.
    pub(crate) cells: Names,
    /// For each cell, by its number, the names of its ports.
    pub(crate) ports: Seq<Names>,
    /// For each cell, by its number, the names of its transistors.
    pub(crate) devices: Seq<Names>,
    /// For each cell, by its number, the names of its instances.
    pub(crate) instances: Seq<Names>,
    /// For each cell, by its number, the names of its nets.
    pub(crate) nets: Seq<Names>,
    /// For each cell, by its number, the names on its `hold` lines.
    pub(crate) held: Vec<Names>,
}

/// By hand, so that letting go of one is a call.
impl Drop for Tables {
    fn drop(self) {
        let Tables {
            cells: _cells,
            ports: _ports,
            devices: _devices,
            instances: _instances,
            nets: _nets,
            held: _held,
        } = self;
    }
}

impl Tables {
    /// With no name. It takes no memory.
    pub(crate) fn new(alloc: Global) -> Self {
        Tables {
            cells: Names::new(alloc),
            ports: Seq::new(alloc),
            devices: Seq::new(alloc),
            instances: Seq::new(alloc),
            nets: Seq::new(alloc),
            held: Vec::new(alloc),
        }
    }

    /// What is looked up in a netlist and its rules.
    pub(crate) fn fill(
        &mut self,
        alloc: Global,
        design: &Design,
        rules: &Rules,
    ) -> Result<(), NoMemory>
        requires { IsDesign design.now }
        ensures { OnOk result (AreTables design.now rules.now self.new) }
    {
        let cells = design.cells.as_slice();
        self.cells = cell_names(alloc, design)?;
        self.ports = all_names(alloc, cells, Kind::Ports)?;
        self.devices = all_names(alloc, cells, Kind::Devices)?;
        self.instances = all_names(alloc, cells, Kind::Instances)?;
        self.nets = all_names(alloc, cells, Kind::Nets)?;
        self.held = held_nets(alloc, &self.cells, rules.holds.as_slice())?;
        Ok(())
    }
}

/// The sets of one kind.
fn sets_of(tables: &Tables, kind: Kind) -> &[Names]
    ensures { result.now ≡ sets_of kind tables.now }
{
    match kind {
        Kind::Ports => tables.ports.as_slice(),
        Kind::Devices => tables.devices.as_slice(),
        Kind::Instances => tables.instances.as_slice(),
        Kind::Nets => tables.nets.as_slice(),
    }
}

/// Whether a name is in the set of a cell.
fn is_in(cells: &Names, sets: &[Names], cell: &[u8], name: &[u8]) -> bool
    ensures { result ≡ is_in cells.now sets.now cell.now name.now }
{
    let Some(at) = cells.place(cell) else {
        return false;
    };
    match sets.get(at) {
        Some(names) => names.contains(name),
        None => false,
    }
}

/// The cell on a line, if it is not there.
pub(crate) fn find_cell<'a>(tables: &Tables, line: u32, cell: &'a [u8]) -> Option<MissingName<'a>>
    ensures { missing_in result ≡ missing_cell tables.now line cell.entry.now }
{
    if tables.cells.contains(cell) {
        None
    } else {
        Some(MissingName { line, name: cell })
    }
}

/// The cell on a line, if it is not there, else the name in it, if that is not there.
pub(crate) fn find_missing<'a>(
    tables: &Tables,
    kind: Kind,
    line: u32,
    cell: &'a [u8],
    name: &'a [u8],
) -> Option<MissingName<'a>>
    ensures { missing_in result ≡ missing_by tables.now kind line cell.entry.now name.entry.now }
{
    if !tables.cells.contains(cell) {
        return Some(MissingName { line, name: cell });
    }
    if !is_in(&tables.cells, sets_of(tables, kind), cell, name) {
        return Some(MissingName { line, name });
    }
    None
}

/// Whether a name is that of a net of a cell, and of one that keeps its charge.
fn is_held(tables: &Tables, cell: &[u8], net: &[u8]) -> bool
    ensures { result ≡ is_held tables.now cell.now net.now }
{
    is_in(&tables.cells, tables.nets.as_slice(), cell, net)
        && is_in(&tables.cells, tables.held.as_slice(), cell, net)
}

/// The cell on a line, if it is not there, else the net in it, if that is not there or has no `hold` line.
pub(crate) fn find_held<'a>(
    tables: &Tables,
    line: u32,
    cell: &'a [u8],
    net: &'a [u8],
) -> Option<MissingName<'a>>
    ensures { missing_in result ≡ missing_held tables.now line cell.entry.now net.entry.now }
{
    if !tables.cells.contains(cell) {
        return Some(MissingName { line, name: cell });
    }
    if !is_held(tables, cell, net) {
        return Some(MissingName { line, name: net });
    }
    None
}

/// A name in an expression, if it is no port of a cell.
fn find_port<'a>(tables: &Tables, line: u32, cell: &[u8], name: &'a [u8]) -> Option<MissingName<'a>>
    ensures { missing_in result ≡ first_missing line (asked name.entry.now (is_in tables.now.cells tables.now.ports cell.now name.entry.now) ∷ []) }
{
    if is_in(&tables.cells, tables.ports.as_slice(), cell, name) {
        None
    } else {
        Some(MissingName { line, name })
    }
}

/// The first name in an expression, from left to right, that is no port of a cell.
#[tactic(auto, using(crate::proofs::LookupLaws::left_asked, crate::proofs::LookupLaws::right_asked))]
fn find_in<'a>(
    tables: &Tables,
    line: u32,
    cell: &[u8],
    expression: &'a Expr,
) -> Option<MissingName<'a>>
    ensures { missing_in result ≡ first_missing line (map (port_asked tables.now cell.now) (names_in expression.entry.now)) }
{
    match expression {
        Expr::Port(name) => find_port(tables, line, cell, name.as_bytes()),
        Expr::Not(inner) => find_in(tables, line, cell, inner),
        Expr::And(left, right) => match find_in(tables, line, cell, left) {
            Some(missing) => Some(missing),
            None => find_in(tables, line, cell, right),
        },
        Expr::Xor(left, right) => match find_in(tables, line, cell, left) {
            Some(missing) => Some(missing),
            None => find_in(tables, line, cell, right),
        },
        Expr::Or(left, right) => match find_in(tables, line, cell, left) {
            Some(missing) => Some(missing),
            None => find_in(tables, line, cell, right),
        },
    }
}

/// The cell on a line, if it is not there, else the first name in an expression that is no port of it.
pub(crate) fn find_assumed<'a>(
    tables: &Tables,
    line: u32,
    cell: &'a [u8],
    expression: &'a Expr,
) -> Option<MissingName<'a>>
    ensures { missing_in result ≡ missing_assumed tables.now line cell.entry.now expression.entry.now }
{
    if !tables.cells.contains(cell) {
        return Some(MissingName { line, name: cell });
    }
    find_in(tables, line, cell, expression)
}
