//! What a name is in a cell.

ghost use Rattle.std.specs.Prelude.{◌≡◌, ◌&&◌, ◌||◌, bytes_eq, filter, find, is_none, is_some, length, not};
ghost use Rattle.std.specs.List.{list_any};
ghost use Rattle.std.specs.Option.{option_copied};
ghost use Rattle.flat_sizes.specs.Mentions.{card_nets, mentioned, tied};
ghost use Rattle.vrt_model.specs.CellRules.{supply_of};
ghost use Rattle.vrt_model.specs.Lists.{has_name as is_among};
ghost use Rattle.vrt_model.specs.Unrolled.{is_global_in, is_own, mentions};
ghost use Rattle.vrt_model.specs.declared.design.DeviceCard.{DeviceCard as DeviceValue};
ghost use Rattle.vrt_model.specs.declared.design.InstanceCard.{InstanceCard as InstanceValue};
ghost use Rattle.vrt_model.specs.declared.rules.SupplyRule.{SupplyRule as RuleValue};

use vrt_model::{Cell, Design, DeviceCard, InstanceCard, Rules, SupplyRule, Text};

/// The first rule that declares a name as a supply.
fn rule_of<'a>(rules: &'a [SupplyRule], name: &[u8]) -> Option<&'a SupplyRule>
    ensures { option_copied result ≡ find (λ (r : RuleValue). bytes_eq r.net name.now) rules.entry.now }
{
    rules.iter().find(|rule| rule.net.as_bytes() == name)
}

/// The value of the supply that a name is, if it is one.
fn supply_value(rules: &Rules, name: &[u8]) -> Option<bool>
    ensures { result ≡ supply_of rules.now name.now }
{
    match rule_of(rules.supplies.as_slice(), name) {
        Some(rule) => Some(rule.value),
        None => if name == b"0".as_slice() {
            Some(false)
        } else {
            None
        },
    }
}

/// Whether a name is a supply.
fn is_supply(rules: &Rules, name: &Text) -> bool
    ensures { result ≡ is_some (supply_of rules.now name.now) }
{
    supply_value(rules, name.as_bytes()).is_some()
}

/// Whether a name is no supply.
fn is_net(rules: &Rules, name: &Text) -> bool
    ensures { result ≡ is_none (supply_of rules.now name.now) }
{
    supply_value(rules, name.as_bytes()).is_none()
}

/// How many of some names are no supplies.
pub(crate) fn net_count(rules: &Rules, names: &[Text]) -> usize
    ensures { result ≡ length (filter (λ name. is_none (supply_of rules.now name)) names.now) }
{
    names.iter().filter(|name| is_net(rules, name)).count()
}

/// Whether a name is among others.
pub(crate) fn has_name(names: &[Text], name: &Text) -> bool
    ensures { result ≡ is_among names.now name.now }
{
    names
        .iter()
        .any(|other| name.as_bytes() == other.as_bytes())
}

/// Whether two names are the same.
pub(crate) fn is_same(name: &Text, other: &Text) -> bool
    ensures { result ≡ bytes_eq name.now other.now }
{
    name.as_bytes() == other.as_bytes()
}

/// Whether the card of a device names a net.
fn is_of_device(card: &DeviceCard, name: &Text) -> bool
    ensures { result ≡ is_among (card_nets card.now) name.now }
{
    is_same(name, &card.drain) || (is_same(name, &card.gate) || is_same(name, &card.source))
}

/// Whether the card of some device names a net.
fn some_device(cards: &[DeviceCard], name: &Text) -> bool
    ensures { result ≡ list_any (λ (card : DeviceValue). is_among (card_nets card) name.now) cards.now }
{
    cards.iter().any(|card| is_of_device(card, name))
}

/// Whether the card of an instance names a net.
fn is_of_instance(card: &InstanceCard, name: &Text) -> bool
    ensures { result ≡ is_among card.now.nets name.now }
{
    has_name(card.nets.as_slice(), name)
}

/// Whether the card of some instance names a net.
fn some_instance(cards: &[InstanceCard], name: &Text) -> bool
    ensures { result ≡ list_any (λ (card : InstanceValue). is_among card.nets name.now) cards.now }
{
    cards.iter().any(|card| is_of_instance(card, name))
}

/// Whether a net is tied to some instance.
pub(crate) fn is_tied(instances: &[InstanceCard], name: &Text) -> bool
    ensures { result ≡ is_among (tied instances.now) name.now }
{
    some_instance(instances, name)
}

/// Whether some card names a net.
pub(crate) fn is_mentioned(devices: &[DeviceCard], instances: &[InstanceCard], name: &Text) -> bool
    ensures { result ≡ is_among (mentioned devices.now instances.now) name.now }
{
    some_device(devices, name) || is_tied(instances, name)
}

/// Whether a name is a net of the cell's own.
pub(crate) fn is_own_net(design: &Design, rules: &Rules, cell: &Cell, name: &Text) -> bool
    ensures { result ≡ is_own design.now rules.now cell.now name.now }
{
    !is_supply(rules, name)
        && !has_name(cell.ports.as_slice(), name)
        && !has_name(design.globals.as_slice(), name)
}

/// Whether a name is a global net in a cell.
fn is_global(design: &Design, rules: &Rules, cell: &Cell, name: &Text) -> bool
    ensures { result ≡ is_global_in design.now rules.now cell.now name.now }
{
    let ports = cell.ports.as_slice();
    has_name(design.globals.as_slice(), name) && !is_supply(rules, name) && !has_name(ports, name)
}

/// Whether a card of a cell names a global net.
pub(crate) fn names_global(design: &Design, rules: &Rules, cell: &Cell, name: &Text) -> bool
    ensures { result ≡ (is_global_in design.now rules.now cell.now name.now && is_among (mentions cell.now) name.now) }
{
    is_global(design, rules, cell, name)
        && is_mentioned(cell.devices.as_slice(), cell.instances.as_slice(), name)
}
