//! The names of the nets of a cell, in the order of its flat circuit.

ghost use Rattle.std.specs.Prelude.{◌≡◌, [], filter, OnOk};
ghost use Rattle.vrt_model.specs.Lists.{has_name};
ghost use Rattle.names.specs.Names.{with_names};
ghost use Rattle.flatten.specs.NetTables.{card_nets, globals_named, names_table, nets_named, with_named, with_net, with_nets};
ghost use Rattle.rule_index.specs.Tables.{supply_in};

use names::Names;
use rule_index::{FirstValues, supply};
use std::alloc::Global;
use vrt_model::{Cell, Design, DeviceCard, NoMemory, Text};

/// Adds the name of a net, the last, unless it is there or is a supply.
fn add_net(names: &mut Names, supplies: &FirstValues<bool>, name: &[u8]) -> Result<(), NoMemory>
    ensures { OnOk result (names.new ≡ with_net (supply_in supplies.now) names.old name.now) }
{
    if supply(supplies, name).is_none() {
        names.number(name)?;
    }
    Ok(())
}

/// Adds the ports that are no supplies.
fn add_ports(
    names: &mut Names,
    supplies: &FirstValues<bool>,
    ports: &[Text],
) -> Result<(), NoMemory>
    ensures { OnOk result (names.new ≡ with_nets (supply_in supplies.now) names.old ports.now) }
{
    for port in ports {
        add_net(names, supplies, port.as_bytes())?;
    }
    Ok(())
}

/// Adds the nets that a card names: drain, gate, source.
fn add_card(
    names: &mut Names,
    supplies: &FirstValues<bool>,
    card: &DeviceCard,
) -> Result<(), NoMemory>
    ensures { OnOk result (names.new ≡ with_nets (supply_in supplies.now) names.old (card_nets card.now)) }
{
    add_net(names, supplies, card.drain.as_bytes())?;
    add_net(names, supplies, card.gate.as_bytes())?;
    add_net(names, supplies, card.source.as_bytes())
}

/// Adds the nets that cards name.
fn add_cards(
    names: &mut Names,
    supplies: &FirstValues<bool>,
    cards: &[DeviceCard],
) -> Result<(), NoMemory>
    ensures { OnOk result (names.new ≡ with_nets (supply_in supplies.now) names.old (nets_named cards.now)) }
{
    for card in cards {
        add_card(names, supplies, card)?;
    }
    Ok(())
}

/// The names that a card has.
fn name_card(names: &mut Names, card: &DeviceCard) -> Result<(), NoMemory>
    ensures { OnOk result (names.new ≡ with_names names.old (card_nets card.now)) }
{
    names.number(card.drain.as_bytes())?;
    names.number(card.gate.as_bytes())?;
    names.number(card.source.as_bytes())?;
    Ok(())
}

/// Adds the names that cards have, to none.
fn name_cards(names: &mut Names, cards: &[DeviceCard]) -> Result<(), NoMemory>
    requires { names.old ≡ [] }
    ensures { OnOk result (names.new ≡ with_names [] (nets_named cards.now)) }
{
    for card in cards {
        name_card(names, card)?;
    }
    Ok(())
}

/// Adds the name of a net, the last, if it is among others and is neither there nor a supply.
fn add_named(
    names: &mut Names,
    supplies: &FirstValues<bool>,
    named: &Names,
    name: &[u8],
) -> Result<(), NoMemory>
    ensures { OnOk result (names.new ≡ with_named (supply_in supplies.now) named.now names.old name.now) }
{
    if named.contains(name) {
        add_net(names, supplies, name)?;
    }
    Ok(())
}

/// Adds those of some nets that are among others.
fn add_all_named(
    names: &mut Names,
    supplies: &FirstValues<bool>,
    named: &Names,
    globals: &[Text],
) -> Result<(), NoMemory>
    ensures { OnOk result (names.new ≡ with_nets (supply_in supplies.now) names.old (filter (has_name named.now) globals.now)) }
{
    for name in globals {
        add_named(names, supplies, named, name.as_bytes())?;
    }
    Ok(())
}

/// Adds the global nets that a card names.
fn add_globals(
    alloc: Global,
    names: &mut Names,
    supplies: &FirstValues<bool>,
    globals: &[Text],
    cards: &[DeviceCard],
) -> Result<(), NoMemory>
    ensures { OnOk result (names.new ≡ with_nets (supply_in supplies.now) names.old (globals_named cards.now globals.now)) }
{
    let mut named = Names::new(alloc);
    name_cards(&mut named, cards)?;
    add_all_named(names, supplies, &named, globals)?;
    Ok(())
}

/// Adds the names of the nets of a cell of a netlist without the two supplies, to none: the other ports, the global nets
/// that a card names, and the other nets in the order of first mention.
pub fn name_nets(
    alloc: Global,
    names: &mut Names,
    supplies: &FirstValues<bool>,
    design: &Design,
    cell: &Cell,
) -> Result<(), NoMemory>
    requires { names.old ≡ [] }
    ensures { OnOk result (names.new ≡ names_table (supply_in supplies.now) design.now.globals cell.now) }
{
    let globals = design.globals.as_slice();
    let cards = cell.devices.as_slice();
    add_ports(names, supplies, cell.ports.as_slice())?;
    add_globals(alloc, names, supplies, globals, cards)?;
    add_cards(names, supplies, cards)?;
    Ok(())
}
