//! How many nets a cell has of its own: what its cards name behind the names that are none of its own, each once.

ghost use Rattle.std.specs.Prelude.{◌≡◌, ◌≤◌, ◌-◌, [], IfOk, OnOk, flat_map, length, map};
ghost use Rattle.flat_sizes.specs.Mentions.{card_nets, not_own, tied};
ghost use Rattle.names.specs.Names.{with_names};
ghost use Rattle.vrt_model.specs.Unrolled.{mentions, own_nets};
ghost use Rattle.vrt_model.specs.Unsupported.{carried};
ghost use Rattle.vrt_model.specs.declared.rules.SupplyRule.{SupplyRule as RuleValue};

use names::Names;
use std::alloc::Global;
use vrt_model::{Cell, Design, DeviceCard, InstanceCard, NoMemory, Rules, SupplyRule};

/// Adds the names that rules declare as supplies.
fn add_supplies(names: &mut Names, rules: &[SupplyRule]) -> Result<(), NoMemory>
    ensures { OnOk result (names.new ≡ with_names names.old (map (λ (r : RuleValue). r.net) rules.now)) }
{
    for rule in rules {
        names.number(rule.net.as_bytes())?;
    }
    Ok(())
}

/// Adds the names that are no nets of a cell's own, to none: supplies, ports and global nets.
fn add_not_own(
    names: &mut Names,
    design: &Design,
    rules: &Rules,
    cell: &Cell,
) -> Result<(), NoMemory>
    requires { names.old ≡ [] }
    ensures { OnOk result (names.new ≡ not_own design.now rules.now cell.now) }
{
    names.number(b"0".as_slice())?;
    add_supplies(names, rules.supplies.as_slice())?;
    names.add_all(cell.ports.as_slice())?;
    names.add_all(design.globals.as_slice())?;
    Ok(())
}

/// Adds those that the card of a device has.
fn add_device(names: &mut Names, card: &DeviceCard) -> Result<(), NoMemory>
    ensures { OnOk result (names.new ≡ with_names names.old (card_nets card.now)) }
{
    names.number(card.drain.as_bytes())?;
    names.number(card.gate.as_bytes())?;
    names.number(card.source.as_bytes())?;
    Ok(())
}

/// Adds those that the cards of devices have.
fn add_devices(names: &mut Names, cards: &[DeviceCard]) -> Result<(), NoMemory>
    ensures { OnOk result (names.new ≡ with_names names.old (flat_map card_nets cards.now)) }
{
    for card in cards {
        add_device(names, card)?;
    }
    Ok(())
}

/// Adds those that are tied to instances.
fn add_instances(names: &mut Names, cards: &[InstanceCard]) -> Result<(), NoMemory>
    ensures { OnOk result (names.new ≡ with_names names.old (tied cards.now)) }
{
    for card in cards {
        names.add_all(card.nets.as_slice())?;
    }
    Ok(())
}

/// Adds those that the cards of a cell have.
fn add_mentions(names: &mut Names, cell: &Cell) -> Result<(), NoMemory>
    ensures { OnOk result (names.new ≡ with_names names.old (mentions cell.now)) }
{
    add_devices(names, cell.devices.as_slice())?;
    add_instances(names, cell.instances.as_slice())?;
    Ok(())
}

/// How many more there are than before.
fn more_than(before: usize, now: usize) -> u64
    requires { before ≤ now }
    ensures { result ≡ carried (now - before) }
{
    (now - before) as u64
}

/// How many nets are the cell's own. Its time and memory are in proportion to what its cards name, the rules on supplies
/// and the global nets.
pub(crate) fn own_count(
    alloc: Global,
    design: &Design,
    rules: &Rules,
    cell: &Cell,
) -> Result<u64, NoMemory>
    ensures { IfOk result (λ count. count ≡ carried (length (own_nets design.now rules.now cell.now))) }
{
    let mut names = Names::new(alloc);
    add_not_own(&mut names, design, rules, cell)?;
    let before = names.len();
    add_mentions(&mut names, cell)?;
    Ok(more_than(before, names.len()))
}
