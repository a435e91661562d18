//! The first instance of an unrolled cell that ties a supply to another net.

ghost use Rattle.std.specs.Prelude.{◌≡◌, ◌<◌, [], length, map, IfOk};
ghost use Rattle.names.specs.Names.{with_names};
ghost use Rattle.rule_index.specs.Tables.{supply_in};
ghost use Rattle.flatten.specs.Walks.{AreNumbered, are_apart, first_tie, is_apart, port_supply, spot_by, tie_from, tied_supply, top_spot};
ghost use Rattle.vrt_model.specs.Inputs.{IsDesign};
ghost use Rattle.vrt_model.specs.Lists.{path_name};

use crate::cells::{cell_number, cell_of};
use crate::lists::append;
use names::Names;
use rule_index::{FirstValues, supply};
use std::alloc::Global;
use vrt_model::{Cell, Design, InstanceCard, NoMemory, Seq, Text};

/// A cell in an unrolled netlist, by the supplies that its ports are tied to.
pub struct Spot {
    /// The number of the cell.
    pub cell: usize,
    /// The path of the instance, as `x1/x2`; empty for the outermost cell.
    pub path: Text,
    /// The value of the supply that each port is tied to, None where it is another net.
    pub values: Seq<Option<bool>>,
}

/// By hand, so that letting go of one is a call.
impl Drop for Spot {
    fn drop(self) {
        let Spot {
            cell: _cell,
            path: _path,
            values: _values,
        } = self;
    }
}

/// The supply that a port is tied to, supply 0 where its card has no net for it.
fn value_at(values: &[Option<bool>], place: Option<usize>) -> Option<bool>
    ensures { result ≡ port_supply values.now place }
{
    match place {
        Some(place) => if place < values.len() {
            values[place]
        } else {
            Some(false)
        },
        None => None,
    }
}

/// The supply that a name is in a cell, by its ports and what they are tied to.
fn tied_value(
    supplies: &FirstValues<bool>,
    ports: &Names,
    values: &[Option<bool>],
    name: &[u8],
) -> Option<bool>
    ensures { result ≡ tied_supply (supply_in supplies.now) ports.now values.now name.now }
{
    match supply(supplies, name) {
        Some(value) => Some(value),
        None => value_at(values, ports.place(name)),
    }
}

/// The supplies that names are in a cell.
fn tied_values(
    alloc: Global,
    supplies: &FirstValues<bool>,
    ports: &Names,
    values: &[Option<bool>],
    nets: &[Text],
) -> Result<Seq<Option<bool>>, NoMemory>
    ensures { IfOk result (λ tied. tied ≡ map (tied_supply (supply_in supplies.now) ports.now values.now) nets.now) }
{
    let mut tied = Seq::new(alloc);
    for net in nets {
        append(
            &mut tied,
            tied_value(supplies, ports, values, net.as_bytes()),
        )?;
    }
    Ok(tied)
}

/// The supplies that ports are by their names.
fn own_values(
    alloc: Global,
    supplies: &FirstValues<bool>,
    ports: &[Text],
) -> Result<Seq<Option<bool>>, NoMemory>
    ensures { IfOk result (λ values. values ≡ map (supply_in supplies.now) ports.now) }
{
    let mut values = Seq::new(alloc);
    for port in ports {
        append(&mut values, supply(supplies, port.as_bytes()))?;
    }
    Ok(values)
}

/// Whether a port that is a supply by its name is tied to something else.
fn is_tied_apart(named: Option<bool>, value: Option<bool>) -> bool
    ensures { result ≡ is_apart named value }
{
    match named {
        Some(supply) => match value {
            Some(value) => supply != value,
            None => true,
        },
        None => false,
    }
}

/// Whether some port that is a supply by its name is tied to something else.
fn ties_apart(supplies: &FirstValues<bool>, ports: &[Text], values: &[Option<bool>]) -> bool
    ensures { result ≡ are_apart (supply_in supplies.now) ports.now values.now }
{
    let mut left = ports;
    let mut ties = values;
    'ports: while let Some((port, ports_behind)) = left.split_first() {
        let Some((value, ties_behind)) = ties.split_first() else {
            return false;
        };
        if is_tied_apart(supply(supplies, port.as_bytes()), *value) {
            return true;
        }
        left = ports_behind;
        ties = ties_behind;
    }
    false
}

/// The path of something in an instance.
fn inner_path(alloc: Global, path: &Text, name: &[u8]) -> Result<Text, NoMemory>
    ensures { IfOk result (λ text. text ≡ path_name path.now name.now) }
{
    if path.is_empty() {
        return Text::from_bytes(alloc, name);
    }
    let mut text = Text::from_bytes(alloc, path.as_bytes())?;
    text.extend(b"/")?;
    text.extend(name)?;
    Ok(text)
}

/// The names of ports. The place of a name is that of its port.
fn port_names(alloc: Global, cell: &Cell) -> Result<Names, NoMemory>
    ensures { IfOk result (λ names. names ≡ with_names [] cell.now.ports) }
{
    let mut names = Names::new(alloc);
    names.add_all(cell.ports.as_slice())?;
    Ok(names)
}

/// An instance in a cell.
fn inner_spot(
    alloc: Global,
    cells: &FirstValues<usize>,
    supplies: &FirstValues<bool>,
    ports: &Names,
    at: &Spot,
    card: &InstanceCard,
) -> Result<Spot, NoMemory>
    ensures { IfOk result (λ spot. spot ≡ spot_by cells.now (supply_in supplies.now) ports.now at.now card.now) }
{
    let path = inner_path(alloc, &at.path, card.name.as_bytes())?;
    let values = at.values.as_slice();
    let values = tied_values(alloc, supplies, ports, values, card.nets.as_slice())?;
    let cell = cell_number(cells, card.cell.as_bytes());
    Ok(Spot { cell, path, values })
}

/// The path of the first instance that ties a supply to another net: the cell itself, then those in it, at most so deep. It
/// takes time in proportion to the cards that are unrolled.
fn first_from(
    alloc: Global,
    design: &Design,
    cells: &FirstValues<usize>,
    supplies: &FirstValues<bool>,
    at: &Spot,
    depth: u32,
) -> Result<Option<Text>, NoMemory>
    requires netlist { IsDesign design.now }
    requires numbered { AreNumbered design.now cells.now }
    ensures { IfOk result (λ path. path ≡ first_tie design.now (supply_in supplies.now) depth at.now) }
{
    let Some(cell) = design.cells.get(at.cell) else {
        return Ok(None);
    };
    if ties_apart(supplies, cell.ports.as_slice(), at.values.as_slice()) {
        let path = Text::from_bytes(alloc, at.path.as_bytes())?;
        return Ok(Some(path));
    }
    if depth == 0 {
        return Ok(None);
    }
    if cell.instances.is_empty() {
        return Ok(None);
    }
    let below = depth - 1;
    let ports = port_names(alloc, cell)?;
    for card in cell.instances.as_slice() {
        let inner = inner_spot(alloc, cells, supplies, &ports, at, card)?;
        let found = first_from(alloc, design, cells, supplies, &inner, below)?;
        if found.is_some() {
            return Ok(found);
        }
    }
    Ok(None)
}

/// The path of the first instance in a cell that ties a port named as a supply to another net than that supply.
pub fn tied_apart(
    alloc: Global,
    design: &Design,
    cells: &FirstValues<usize>,
    supplies: &FirstValues<bool>,
    cell: u32,
) -> Result<Option<Text>, NoMemory>
    requires netlist { IsDesign design.now }
    requires numbered { AreNumbered design.now cells.now }
    requires there { cell < length design.now.cells }
    ensures { IfOk result (λ path. path ≡ tie_from design.now (supply_in supplies.now) (top_spot design.now (supply_in supplies.now) cell)) }
{
    let found = cell_of(design, cell);
    let values = own_values(alloc, supplies, found.ports.as_slice())?;
    let top = Spot {
        cell: cell as usize,
        path: Text::new(alloc),
        values,
    };
    first_from(alloc, design, cells, supplies, &top, 32)
}
