//! The devices of the cards of a place.

ghost use Rattle.std.specs.Prelude.{◌≡◌, ◌<◌, ◌+◌, ◌^◌, ◌++◌, ◌∷◌, [], ℕ, IfOk, OnOk, flat_map, unwrap_or};
ghost use Rattle.flat_devices.specs.Devices.{device_by, pairwise};
ghost use Rattle.net_places.specs.Globals.{nets_on};
ghost use Rattle.net_places.specs.Places.{HasRoomFor, net_of};
ghost use Rattle.net_tables.specs.declared.types.CellNet.TheVariants.{Own};
ghost use Rattle.rule_index.specs.Tables.{kind_in};
ghost use Rattle.vrt_model.specs.Lists.{path_name};

use crate::device_tables::{DeviceTable, level};
use net_places::Place;
use net_tables::{CellNet, DeviceNets, place_net};
use rule_index::ModelTable;
use std::alloc::Global;
use vrt_model::{Device, DeviceCard, Kind, Net, NoMemory, Seq, Text};

/// The kind of the devices of a model, N where it has none.
pub fn kind_or_n(models: &ModelTable, model: &[u8]) -> Kind
    ensures { result ≡ unwrap_or (kind_in models.now model.now) Kind.N }
{
    models.kind(model).unwrap_or(Kind::N)
}

/// The path name of something in a place.
fn inner_name(alloc: Global, path: &Text, name: &[u8]) -> Result<Text, NoMemory>
    ensures { IfOk result (λ text. text ≡ path_name path.now name.now) }
{
    if path.is_empty() {
        return Text::from_bytes(alloc, name);
    }
    let mut text = Text::from_bytes(alloc, path.as_bytes())?;
    text.extend(b"/")?;
    text.extend(name)?;
    Ok(text)
}

/// The flat net of a net of the cell of a place.
fn flat_net(globals: &[Net], place: &Place, net: CellNet) -> Net
    requires { (i : ℕ) → net ≡ Own i → place.now.base + i < 2 ^ 32 }
    ensures { result ≡ net_of place.now globals.now net }
{
    place_net(net, place.ports.as_slice(), place.base, globals)
}

/// The device of a card of a place.
fn device(
    alloc: Global,
    models: &ModelTable,
    table: &DeviceTable,
    globals: &[Net],
    place: &Place,
    card: &DeviceCard,
    nets: DeviceNets,
) -> Result<Device, NoMemory>
    requires { HasRoomFor place.now.base (nets_on nets) }
    ensures { IfOk result (λ device. device ≡ device_by models.now table.now globals.now place.now card.now nets) }
{
    let name = inner_name(alloc, &place.path, card.name.as_bytes())?;
    Ok(Device {
        name,
        kind: kind_or_n(models, card.model.as_bytes()),
        gate: flat_net(globals, place, nets.gate),
        left: flat_net(globals, place, nets.drain),
        right: flat_net(globals, place, nets.source),
        level: level(models, table, card.name.as_bytes(), card.model.as_bytes()),
        keeper: table.keepers.contains(card.name.as_bytes()),
    })
}

/// Adds the device of a card of a place.
fn add_device(
    alloc: Global,
    found: &mut Seq<Device>,
    models: &ModelTable,
    table: &DeviceTable,
    globals: &[Net],
    place: &Place,
    card: &DeviceCard,
    nets: DeviceNets,
) -> Result<(), NoMemory>
    requires { HasRoomFor place.now.base (nets_on nets) }
    ensures { OnOk result (found.new ≡ found.old ++ device_by models.now table.now globals.now place.now card.now nets ∷ []) }
{
    let device = device(alloc, models, table, globals, place, card, nets)?;
    found.append(device)
}

/// Adds the devices of cards of a place, by the nets of each card.
pub(crate) fn add_devices(
    alloc: Global,
    found: &mut Seq<Device>,
    models: &ModelTable,
    table: &DeviceTable,
    globals: &[Net],
    place: &Place,
    cards: &[DeviceCard],
    nets: &[DeviceNets],
) -> Result<(), NoMemory>
    requires { HasRoomFor place.now.base (flat_map nets_on nets.now) }
    ensures { OnOk result (found.new ≡ found.old ++ pairwise (device_by models.now table.now globals.now place.now) cards.now nets.now) }
{
    let mut cards_left = cards;
    let mut nets_left = nets;
    'cards: while let (Some((card, cards)), Some((nets, later))) = (
        cards_left.split_first(),
        nets_left.split_first(),
    ) {
        add_device(alloc, found, models, table, globals, place, card, *nets)?;
        cards_left = cards;
        nets_left = later;
    }
    Ok(())
}
