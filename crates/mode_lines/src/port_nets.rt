//! The nets of the ports of a cell.

ghost use Rattle.std.specs.Prelude.{◌≡◌, ◌+◌, ◌<◌, ◌^◌, bytes_eq, find, option_map};
ghost use Rattle.constraints.specs.Handles.{net_behind, net_by, port_net, port_net_from};
ghost use Rattle.vrt_model.specs.CellRules.{supply_of};
ghost use Rattle.vrt_model.specs.declared.rules.SupplyRule.{SupplyRule as RuleValue};

use vrt_model::{Rules, SupplyRule, Text};

/// The value of the supply that the first of some lines declares a name as.
fn declared(rules: &[SupplyRule], name: &[u8]) -> Option<bool>
    ensures { result ≡ option_map (λ (r : RuleValue). r.value) (find (λ (r : RuleValue). bytes_eq r.net name.now) rules.now) }
{
    for rule in rules {
        if rule.net.as_bytes() == name {
            return Some(rule.value);
        }
    }
    None
}

/// The value of the supply that a name is, if it is one.
fn supply_of(rules: &Rules, name: &[u8]) -> Option<bool>
    ensures { result ≡ supply_of rules.now name.now }
{
    match declared(rules.supplies.as_slice(), name) {
        Some(value) => Some(value),
        None => if name == b"0".as_slice() {
            Some(false)
        } else {
            None
        },
    }
}

/// The net of a port: that of its supply, if it is one.
fn net_by(supply: Option<bool>, next: usize) -> usize
    ensures { result ≡ net_by supply next }
{
    match supply {
        Some(true) => 1,
        Some(false) => 0,
        None => next,
    }
}

/// The net of the next port that is no supply.
fn net_behind(supply: Option<bool>, next: usize) -> usize
    requires { next + 1 < 2 ^ 64 }
    ensures { result ≡ net_behind supply next }
{
    match supply {
        Some(_) => next,
        None => next + 1,
    }
}

/// Whether a port has a name.
fn is_named(port: &Text, name: &[u8]) -> bool
    ensures { result ≡ bytes_eq name.now port.now }
{
    name == port.as_bytes()
}

/// The net of the port of a name, port by port.
fn net_among(rules: &Rules, names: &[Text], name: &[u8]) -> usize
    ensures { result ≡ port_net_from rules.now 2 names.now name.now }
{
    let mut next: usize = 2;
    let mut rest = names;
    'ports: while let Some((port, behind)) = rest.split_first() {
        let supply = supply_of(rules, port.as_bytes());
        if is_named(port, name) {
            return net_by(supply, next);
        }
        next = net_behind(supply, next);
        rest = behind;
    }
    0
}

/// The net of a port of a cell, net 0 where it has none of this name. A port named as a supply is net 0 or 1, and the other ports
/// follow in their order.
pub(crate) fn port_net(rules: &Rules, names: &[Text], name: &[u8]) -> usize
    ensures { result ≡ port_net rules.now names.now name.now }
{
    net_among(rules, names, name)
}
