//! The devices of all places of an unrolled cell.

ghost use Rattle.std.specs.Prelude.{◌≡◌, ◌++◌, ℕ, List, [], IfOk, OnOk, flat_map};
ghost use Rattle.flat_devices.specs.DeviceTables.{AreFreshDevices};
ghost use Rattle.flat_devices.specs.Devices.{HaveRoom, IsOfCell, said_devices};
ghost use Rattle.net_places.specs.Globals.{nets_on};
ghost use Rattle.net_places.specs.Links.{IsUnrolled};
ghost use Rattle.net_places.specs.Places.{HasRoomFor, nets_at};
ghost use Rattle.net_places.specs.Whole.{whole_of};
ghost use Rattle.net_tables.specs.Tables.{AreNetTables};
ghost use Rattle.rule_index.specs.Tables.{AreIndexed};
ghost use Rattle.vrt_model.specs.Comparison.{cell_at};
ghost use Rattle.vrt_model.specs.FlatCircuit.{flat_devices};
ghost use Rattle.vrt_model.specs.declared.pairing.PortRole.{PortRole as RoleValue};

use crate::device_tables::DeviceTable;
use crate::devices::add_devices;
use net_places::{Place, Unrolled};
use net_tables::{DeviceNets, NetTables};
use rule_index::RuleIndex;
use std::alloc::Global;
use vrt_model::{Design, Device, DeviceCard, Net, NoMemory, Rules, Seq};

/// The name of a cell by its number, empty where there is none.
fn cell_name(design: &Design, cell: usize) -> &[u8]
    ensures { result.now ≡ (cell_at design.now cell).name }
{
    match design.cells.get(cell) {
        Some(found) => found.name.as_bytes(),
        None => [].as_slice(),
    }
}

/// The transistors of a cell by its number, none where there is no such cell.
fn cards_of(design: &Design, cell: usize) -> &[DeviceCard]
    ensures { result.now ≡ (cell_at design.now cell).devices }
{
    match design.cells.get(cell) {
        Some(found) => found.devices.as_slice(),
        None => &[],
    }
}

/// The nets at the transistors of a cell by its number, none where there is no such cell.
fn nets_of(tables: &NetTables, cell: usize) -> &[DeviceNets]
    ensures { result.now ≡ (nets_at tables.now cell).devices }
{
    match tables.cells.get(cell) {
        Some(found) => found.devices.as_slice(),
        None => &[],
    }
}

/// Adds the devices of a place, by a table of its cell that is filled first.
fn add_by(
    alloc: Global,
    found: &mut Seq<Device>,
    index: &RuleIndex,
    design: &Design,
    rules: &Rules,
    tables: &NetTables,
    globals: &[Net],
    place: &Place,
    table: &mut DeviceTable,
) -> Result<(), NoMemory>
    requires indexed { AreIndexed design.now rules.now index.now }
    requires tables { AreNetTables design.now rules.now tables.now }
    requires room { HasRoomFor place.now.base (flat_map nets_on (nets_at tables.now place.now.cell).devices) }
    requires fresh { AreFreshDevices table.old }
    ensures { OnOk result (found.new ≡ found.old ++ said_devices design.now rules.now globals.now place.now) }
{
    let name = cell_name(design, place.cell);
    table.fill(&index.lines.devices, rules, name)?;
    let cards = cards_of(design, place.cell);
    let nets = nets_of(tables, place.cell);
    add_devices(
        alloc,
        found,
        &index.models,
        table,
        globals,
        place,
        cards,
        nets,
    )
}

/// Adds the devices of a place.
fn add_place(
    alloc: Global,
    found: &mut Seq<Device>,
    index: &RuleIndex,
    design: &Design,
    rules: &Rules,
    tables: &NetTables,
    globals: &[Net],
    place: &Place,
) -> Result<(), NoMemory>
    requires indexed { AreIndexed design.now rules.now index.now }
    requires tables { AreNetTables design.now rules.now tables.now }
    requires room { HasRoomFor place.now.base (flat_map nets_on (nets_at tables.now place.now.cell).devices) }
    ensures { OnOk result (found.new ≡ found.old ++ said_devices design.now rules.now globals.now place.now) }
{
    let mut table = DeviceTable::new(alloc);
    add_by(
        alloc, found, index, design, rules, tables, globals, place, &mut table,
    )
}

/// Adds the devices of places, to none.
fn add_places(
    alloc: Global,
    found: &mut Seq<Device>,
    index: &RuleIndex,
    design: &Design,
    rules: &Rules,
    tables: &NetTables,
    globals: &[Net],
    places: &[Place],
) -> Result<(), NoMemory>
    requires indexed { AreIndexed design.now rules.now index.now }
    requires tables { AreNetTables design.now rules.now tables.now }
    requires room { HaveRoom tables.now places.now }
    requires none { found.old ≡ [] }
    ensures { OnOk result (found.new ≡ flat_map (said_devices design.now rules.now globals.now) places.now) }
{
    for place in places {
        add_place(alloc, found, index, design, rules, tables, globals, place)?;
    }
    Ok(())
}

/// The devices of the flat circuit of an unrolled cell: those of each place in the order of the cards, place by place. It
/// takes time and memory in proportion to them and their path names, to the places, and for each place to the rules on the
/// strengths and keepers of its cell.
pub fn flat_devices(
    alloc: Global,
    index: &RuleIndex,
    design: &Design,
    rules: &Rules,
    tables: &NetTables,
    unrolled: &Unrolled,
) -> Result<Seq<Device>, NoMemory>
    requires indexed { AreIndexed design.now rules.now index.now }
    requires tables { AreNetTables design.now rules.now tables.now }
    requires unrolled { IsOfCell design.now rules.now unrolled.now }
    ensures { IfOk result (λ devices. (cell : ℕ) (roles : List RoleValue) → IsUnrolled (whole_of design.now rules.now cell roles) unrolled.now → devices ≡ flat_devices (whole_of design.now rules.now cell roles)) }
{
    let mut devices = Seq::new(alloc);
    let globals = unrolled.globals.as_slice();
    let places = unrolled.places.as_slice();
    add_places(
        alloc,
        &mut devices,
        index,
        design,
        rules,
        tables,
        globals,
        places,
    )?;
    Ok(devices)
}
