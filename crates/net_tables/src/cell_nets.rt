//! The nets of each cell.

ghost use Rattle.std.specs.Prelude.{◌≡◌, [], IfOk, OnOk, map};
ghost use Rattle.net_tables.specs.Names.{names_by, nets_by};

use crate::cards::{all_device_nets, all_instance_nets};
use crate::own::add_own;
use crate::shared::SharedNames;
use crate::types::{CellNames, CellNets};
use std::alloc::Global;
use vrt_model::{Cell, NoMemory, Seq};

/// Adds the names of the ports and of the own nets of a cell, to none.
fn add_names(names: &mut CellNames, shared: &SharedNames, cell: &Cell) -> Result<(), NoMemory>
    requires ports { names.old.ports ≡ [] }
    requires own { names.old.own ≡ [] }
    ensures { OnOk result (names.new ≡ names_by shared.now cell.now) }
{
    names.ports.add_all(cell.ports.as_slice())?;
    add_own(&mut names.own, shared, &names.ports, cell)?;
    Ok(())
}

/// The nets of a cell.
fn cell_nets(alloc: Global, shared: &SharedNames, cell: &Cell) -> Result<CellNets, NoMemory>
    ensures { IfOk result (λ nets. nets ≡ nets_by shared.now cell.now) }
{
    let mut names = CellNames::new(alloc);
    add_names(&mut names, shared, cell)?;
    let devices = all_device_nets(alloc, shared, &names, cell.devices.as_slice())?;
    let instances = all_instance_nets(alloc, shared, &names, cell.instances.as_slice())?;
    Ok(CellNets {
        names,
        devices,
        instances,
    })
}

/// The nets of cells.
pub(crate) fn all_cell_nets(
    alloc: Global,
    shared: &SharedNames,
    cells: &[Cell],
) -> Result<Seq<CellNets>, NoMemory>
    ensures { IfOk result (λ nets. nets ≡ map (nets_by shared.now) cells.now) }
{
    let mut all = Seq::new(alloc);
    for cell in cells {
        let nets = cell_nets(alloc, shared, cell)?;
        all.append(nets)?;
    }
    Ok(all)
}
