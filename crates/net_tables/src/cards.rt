//! What the names on the cards of a cell are.

ghost use Rattle.std.specs.Prelude.{◌≡◌, IfOk, map};
ghost use Rattle.net_tables.specs.Names.{device_by, instance_by, net_by};

use crate::shared::SharedNames;
use crate::types::{CellNames, CellNet, DeviceNets, InstanceNets};
use std::alloc::Global;
use vrt_model::{DeviceCard, InstanceCard, NoMemory, Seq, Text};

/// What a name is: an own net by its place, else what it is in every cell with these ports.
pub(crate) fn net(shared: &SharedNames, names: &CellNames, name: &[u8]) -> CellNet
    ensures { result ≡ net_by shared.now names.now name.now }
{
    if let Some(place) = names.own.place(name) {
        return CellNet::Own(place);
    }
    match shared.net(&names.ports, name) {
        Some(net) => net,
        None => CellNet::Own(0),
    }
}

/// What some names are.
fn nets(
    alloc: Global,
    shared: &SharedNames,
    names: &CellNames,
    list: &[Text],
) -> Result<Seq<CellNet>, NoMemory>
    ensures { IfOk result (λ nets. nets ≡ map (net_by shared.now names.now) list.now) }
{
    let mut nets = Seq::new(alloc);
    for name in list {
        nets.append(net(shared, names, name.as_bytes()))?;
    }
    Ok(nets)
}

/// The nets at a transistor.
fn device_nets(shared: &SharedNames, names: &CellNames, card: &DeviceCard) -> DeviceNets
    ensures { result ≡ device_by shared.now names.now card.now }
{
    DeviceNets {
        drain: net(shared, names, card.drain.as_bytes()),
        gate: net(shared, names, card.gate.as_bytes()),
        source: net(shared, names, card.source.as_bytes()),
    }
}

/// The nets at transistors.
pub(crate) fn all_device_nets(
    alloc: Global,
    shared: &SharedNames,
    names: &CellNames,
    cards: &[DeviceCard],
) -> Result<Seq<DeviceNets>, NoMemory>
    ensures { IfOk result (λ devices. devices ≡ map (device_by shared.now names.now) cards.now) }
{
    let mut devices = Seq::new(alloc);
    for card in cards {
        devices.append(device_nets(shared, names, card))?;
    }
    Ok(devices)
}

/// The cell of an instance, and the nets at its ports.
fn instance_nets(
    alloc: Global,
    shared: &SharedNames,
    names: &CellNames,
    card: &InstanceCard,
) -> Result<InstanceNets, NoMemory>
    ensures { IfOk result (λ instance. instance ≡ instance_by shared.now names.now card.now) }
{
    let nets = nets(alloc, shared, names, card.nets.as_slice())?;
    Ok(InstanceNets {
        cell: shared.cell(card.cell.as_bytes()),
        nets,
    })
}

/// The cells of instances, and the nets at their ports.
pub(crate) fn all_instance_nets(
    alloc: Global,
    shared: &SharedNames,
    names: &CellNames,
    cards: &[InstanceCard],
) -> Result<Seq<InstanceNets>, NoMemory>
    ensures { IfOk result (λ instances. instances ≡ map (instance_by shared.now names.now) cards.now) }
{
    let mut instances = Seq::new(alloc);
    for card in cards {
        let instance = instance_nets(alloc, shared, names, card)?;
        instances.append(instance)?;
    }
    Ok(instances)
}
