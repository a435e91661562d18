//! The handles of the ports of the checked cell, by what their nets are.

ghost use Rattle.std.specs.Prelude.{◌≡◌, ◌+◌, ◌<◌, ◌^◌, bytes_eq, cond, find, length};
ghost use Rattle.std.specs.Option.{option_copied};
ghost use Rattle.bdd_core.specs.Store.{IsSpan};
ghost use Rattle.constraints.specs.Handles.{handle_by_kind, handle_given, handle_of_net, net_behind, net_by, port_net_from};
ghost use Rattle.vrt_model.specs.CellRules.{supply_of};
ghost use Rattle.vrt_model.specs.declared.rules.SupplyRule.{SupplyRule as RuleValue};

use crate::ports::clock_in;
use bdd_core::{H, ONE, Store, ZERO};
use node_pool::Span;
use vrt_model::{Circuit, NetKind, Rules, SupplyRule, Text};

/// The ports of the checked cell by their names, and what their nets are.
#[derive(Clone, Copy)]
pub(crate) struct GivenPorts<'a> {
    /// The circuit of the cell.
    pub(crate) circuit: &'a Circuit,
    /// The rules, which say which ports are supplies.
    pub(crate) rules: &'a Rules,
    /// The names of the ports.
    pub(crate) names: &'a [Text],
    /// The bits of the clocks in the phase.
    pub(crate) bits: &'a [bool],
    /// A handle for each net of the circuit, of which those of inputs count.
    pub(crate) values: Span,
}

/// The first rule that declares a name as a supply.
fn rule_of<'a>(rules: &'a [SupplyRule], name: &[u8]) -> Option<&'a SupplyRule>
    ensures { option_copied result ≡ find (λ (r : RuleValue). bytes_eq r.net name.now) rules.entry.now }
{
    rules.iter().find(|rule| rule.net.as_bytes() == name)
}

/// The value of the supply that a name is, if it is one.
fn supply_value(rules: &Rules, name: &[u8]) -> Option<bool>
    ensures { result ≡ supply_of rules.now name.now }
{
    match rule_of(rules.supplies.as_slice(), name) {
        Some(rule) => Some(rule.value),
        None => if name == b"0".as_slice() {
            Some(false)
        } else {
            None
        },
    }
}

/// The net of a port: that of its supply, if it is one.
fn net_by(supply: Option<bool>, next: usize) -> usize
    ensures { result ≡ net_by supply next }
{
    match supply {
        Some(true) => 1,
        Some(false) => 0,
        None => next,
    }
}

/// The net of the next port that is no supply.
fn net_behind(supply: Option<bool>, next: usize) -> usize
    requires { next + 1 < 2 ^ 64 }
    ensures { result ≡ net_behind supply next }
{
    match supply {
        Some(_) => next,
        None => next + 1,
    }
}

/// Whether a port has a name.
fn is_named(port: &Text, name: &[u8]) -> bool
    ensures { result ≡ bytes_eq name.now port.now }
{
    name == port.as_bytes()
}

/// The net of a port of the checked cell, net 0 where it has none of this name. A port named as a supply is net 0 or 1, and the
/// other ports follow in their order.
fn port_net(rules: &Rules, names: &[Text], name: &[u8]) -> usize
    ensures { result ≡ port_net_from rules.now 2 names.now name.now }
{
    let mut next: usize = 2;
    let mut rest = names;
    'ports: while let Some((port, behind)) = rest.split_first() {
        let supply = supply_value(rules, port.as_bytes());
        if is_named(port, name) {
            return net_by(supply, next);
        }
        next = net_behind(supply, next);
        rest = behind;
    }
    0
}

/// The constant of a bit.
fn constant(bit: bool) -> H
    ensures { result.0 ≡ cond bit 1 0 }
{
    if bit { ONE } else { ZERO }
}

/// The handle of a net of this kind.
fn handle_by_kind(store: &Store, bits: &[bool], values: Span, net: u32, kind: NetKind) -> H
    requires live { IsSpan store.now values }
    requires within { net < values.len }
    ensures { result.0 ≡ handle_by_kind store.now.words bits.now values net kind }
{
    match kind {
        NetKind::Supply(value) => constant(value),
        NetKind::Clock(clock) => constant(clock_in(bits, clock)),
        NetKind::Input => H(store.read(values, net)),
        NetKind::Plain => ZERO,
    }
}

/// The handle of a net of the checked cell, and the constant 0 where there is no such net.
fn handle_of_net(store: &Store, circuit: &Circuit, bits: &[bool], values: Span, net: usize) -> H
    requires live { IsSpan store.now values }
    requires len { values.len ≡ length circuit.now.nets }
    ensures { result.0 ≡ handle_of_net store.now.words circuit.now bits.now values net }
{
    match circuit.nets.get(net) {
        Some(at) => handle_by_kind(store, bits, values, net as u32, at.kind),
        None => ZERO,
    }
}

/// The handle of a port of the checked cell.
pub(crate) fn given_handle(store: &Store, given: GivenPorts<'_>, name: &[u8]) -> H
    requires live { IsSpan store.now given.values }
    requires len { given.values.len ≡ length given.circuit.now.nets }
    ensures { result.0 ≡ handle_given store.now.words given.entry.circuit.now given.entry.rules.now given.entry.names.now given.entry.bits.now given.entry.values name.now }
{
    let net = port_net(given.rules, given.names, name);
    handle_of_net(store, given.circuit, given.bits, given.values, net)
}
