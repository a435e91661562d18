//! The names of the own nets of a cell.

ghost use Rattle.std.specs.Prelude.{◌≡◌, OnOk, flat_map};
ghost use Rattle.net_tables.specs.Names.{device_names, shared_in, with_own, with_owns};
ghost use Rattle.vrt_model.specs.Unrolled.{mentions};
ghost use Rattle.vrt_model.specs.declared.design.InstanceCard.{InstanceCard as CardValue};

use crate::shared::SharedNames;
use names::Names;
use vrt_model::{Cell, DeviceCard, InstanceCard, NoMemory, Text};

/// Adds a name, the last, unless it is there or is no own net. One that is there is looked up once.
fn add_name(
    own: &mut Names,
    shared: &SharedNames,
    ports: &Names,
    name: &[u8],
) -> Result<(), NoMemory>
    ensures { OnOk result (own.new ≡ with_own (shared_in shared.now ports.now) own.old name.now) }
{
    if own.contains(name) {
        return Ok(());
    }
    if shared.net(ports, name).is_none() {
        own.number(name)?;
    }
    Ok(())
}

/// Adds those of some names.
fn add_names(
    own: &mut Names,
    shared: &SharedNames,
    ports: &Names,
    names: &[Text],
) -> Result<(), NoMemory>
    ensures { OnOk result (own.new ≡ with_owns (shared_in shared.now ports.now) own.old names.now) }
{
    for name in names {
        add_name(own, shared, ports, name.as_bytes())?;
    }
    Ok(())
}

/// Adds those that a transistor has at its drain, its gate and its source.
fn add_device(
    own: &mut Names,
    shared: &SharedNames,
    ports: &Names,
    card: &DeviceCard,
) -> Result<(), NoMemory>
    ensures { OnOk result (own.new ≡ with_owns (shared_in shared.now ports.now) own.old (device_names card.now)) }
{
    add_name(own, shared, ports, card.drain.as_bytes())?;
    add_name(own, shared, ports, card.gate.as_bytes())?;
    add_name(own, shared, ports, card.source.as_bytes())?;
    Ok(())
}

/// Adds those that transistors have.
fn add_devices(
    own: &mut Names,
    shared: &SharedNames,
    ports: &Names,
    cards: &[DeviceCard],
) -> Result<(), NoMemory>
    ensures { OnOk result (own.new ≡ with_owns (shared_in shared.now ports.now) own.old (flat_map device_names cards.now)) }
{
    for card in cards {
        add_device(own, shared, ports, card)?;
    }
    Ok(())
}

/// Adds those that are tied to instances.
fn add_instances(
    own: &mut Names,
    shared: &SharedNames,
    ports: &Names,
    cards: &[InstanceCard],
) -> Result<(), NoMemory>
    ensures { OnOk result (own.new ≡ with_owns (shared_in shared.now ports.now) own.old (flat_map (λ (i : CardValue). i.nets) cards.now)) }
{
    for card in cards {
        add_names(own, shared, ports, card.nets.as_slice())?;
    }
    Ok(())
}

/// Adds those that the cards of a cell have: its transistors first, then its instances.
pub(crate) fn add_own(
    own: &mut Names,
    shared: &SharedNames,
    ports: &Names,
    cell: &Cell,
) -> Result<(), NoMemory>
    ensures { OnOk result (own.new ≡ with_owns (shared_in shared.now ports.now) own.old (mentions cell.now)) }
{
    add_devices(own, shared, ports, cell.devices.as_slice())?;
    add_instances(own, shared, ports, cell.instances.as_slice())?;
    Ok(())
}
