//! The names of the things in each cell.

ghost use Rattle.std.specs.Prelude.{◌≡◌, flat_map, map, IfOk, OnOk};
ghost use Rattle.vrt_model.specs.Lists.{distinct};
ghost use Rattle.names.specs.Names.{with_names};
ghost use Rattle.vrt_model.specs.declared.design.DeviceCard.{DeviceCard as DeviceValue};
ghost use Rattle.vrt_model.specs.declared.design.InstanceCard.{InstanceCard as CardValue};
ghost use Rattle.hierarchy.specs.Sets.{device_nets, names_in};

use names::Names;
use std::alloc::Global;
use vrt_model::{Cell, DeviceCard, InstanceCard, NoMemory, Seq};

/// What has a name in a cell.
#[derive(Clone, Copy)]
pub(crate) enum Kind {
    /// Its ports.
    Ports,
    /// Its transistors.
    Devices,
    /// Its instances.
    Instances,
    /// Its nets: the ports, and what the cards name but for the bulk.
    Nets,
}

/// Adds the names of devices.
fn add_devices(names: &mut Names, devices: &[DeviceCard]) -> Result<(), NoMemory>
    ensures { OnOk result (names.new ≡ with_names names.old (map (λ (d : DeviceValue). d.name) devices.now)) }
{
    for device in devices {
        names.number(device.name.as_bytes())?;
    }
    Ok(())
}

/// Adds the names of instances.
fn add_instances(names: &mut Names, cards: &[InstanceCard]) -> Result<(), NoMemory>
    ensures { OnOk result (names.new ≡ with_names names.old (map (λ (i : CardValue). i.name) cards.now)) }
{
    for card in cards {
        names.number(card.name.as_bytes())?;
    }
    Ok(())
}

/// Adds the nets at the drain, the gate and the source of a device.
fn add_device_nets(names: &mut Names, device: &DeviceCard) -> Result<(), NoMemory>
    ensures { OnOk result (names.new ≡ with_names names.old (device_nets device.now)) }
{
    names.number(device.drain.as_bytes())?;
    names.number(device.gate.as_bytes())?;
    names.number(device.source.as_bytes())?;
    Ok(())
}

/// Adds the nets of devices.
fn add_driven(names: &mut Names, devices: &[DeviceCard]) -> Result<(), NoMemory>
    ensures { OnOk result (names.new ≡ with_names names.old (flat_map device_nets devices.now)) }
{
    for device in devices {
        add_device_nets(names, device)?;
    }
    Ok(())
}

/// Adds the nets of instances.
fn add_tied(names: &mut Names, cards: &[InstanceCard]) -> Result<(), NoMemory>
    ensures { OnOk result (names.new ≡ with_names names.old (flat_map (λ (i : CardValue). i.nets) cards.now)) }
{
    for card in cards {
        names.add_all(card.nets.as_slice())?;
    }
    Ok(())
}

/// Adds the nets of a cell.
fn add_nets(names: &mut Names, cell: &Cell) -> Result<(), NoMemory>
    ensures { OnOk result (names.new ≡ with_names names.old (names_in Kind.Nets cell.now)) }
{
    names.add_all(cell.ports.as_slice())?;
    add_driven(names, cell.devices.as_slice())?;
    add_tied(names, cell.instances.as_slice())?;
    Ok(())
}

/// Adds the names of one kind in a cell.
fn add_names(names: &mut Names, cell: &Cell, kind: Kind) -> Result<(), NoMemory>
    ensures { OnOk result (names.new ≡ with_names names.old (names_in kind cell.now)) }
{
    match kind {
        Kind::Ports => names.add_all(cell.ports.as_slice()),
        Kind::Devices => add_devices(names, cell.devices.as_slice()),
        Kind::Instances => add_instances(names, cell.instances.as_slice()),
        Kind::Nets => add_nets(names, cell),
    }
}

/// The names of one kind in a cell, each once.
fn names_in(alloc: Global, cell: &Cell, kind: Kind) -> Result<Names, NoMemory>
    ensures { IfOk result (λ names. names ≡ distinct (names_in kind cell.now)) }
{
    let mut names = Names::new(alloc);
    add_names(&mut names, cell, kind)?;
    Ok(names)
}

/// The names of one kind in each of some cells.
pub(crate) fn all_names(alloc: Global, cells: &[Cell], kind: Kind) -> Result<Seq<Names>, NoMemory>
    ensures { IfOk result (λ sets. sets ≡ map (λ c. distinct (names_in kind c)) cells.now) }
{
    let mut sets = Seq::new(alloc);
    for cell in cells {
        let names = names_in(alloc, cell, kind)?;
        if sets.push(names).is_err() {
            return Err(NoMemory);
        }
    }
    Ok(sets)
}
