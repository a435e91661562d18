//! The nets of a circuit.

ghost use Rattle.std.specs.Prelude.{◌≡◌, ◌<◌, ◌++◌, ◌∷◌, List, [], IfOk, OnOk, codes, cond, drop, find, length, not, slice_get};
ghost use Rattle.std.specs.Option.{option_copied};
ghost use Rattle.flatten.specs.NetTables.{port_net_in, port_nets_in};
ghost use Rattle.net_places.specs.Links.{IsUnrolled};
ghost use Rattle.net_places.specs.Whole.{whole_of};
ghost use Rattle.net_tables.specs.Tables.{AreNetTables};
ghost use Rattle.rule_index.specs.Tables.{AreIndexed, supply_in};
ghost use Rattle.vrt_model.specs.FlatCircuit.{flat_nets, kind_by, kind_by_role, supply_flat, supply_name};
ghost use Rattle.vrt_model.specs.Lists.{differ};
ghost use Rattle.vrt_model.specs.declared.pairing.PortRole.{PortRole as RoleValue};
ghost use Rattle.vrt_model.specs.declared.rules.SupplyRule.{SupplyRule as RuleValue};

use crate::cells::cell_of;
use crate::lists::append;
use net_places::{Unrolled, add_inner_nets};
use net_tables::NetTables;
use rule_index::{FirstValues, RuleIndex, supply};
use std::alloc::Global;
use vrt_model::{
    Design, FlatNet, NetKind, NoMemory, Pairing, PortRole, Rules, Seq, SupplyRule, Text,
};

/// Whether a rule declares a supply of this value.
fn is_of(rule: &SupplyRule, value: bool) -> bool
    ensures { result ≡ not (differ rule.now.value value) }
{
    rule.value == value
}

/// The first rule that declares a supply of this value.
fn first_of(rules: &[SupplyRule], value: bool) -> Option<&SupplyRule>
    ensures { option_copied result ≡ find (λ (r : RuleValue). not (differ r.value value)) rules.now }
{
    rules.iter().find(|rule| is_of(rule, value))
}

/// The digit of a value.
fn digit(value: bool) -> &'static [u8]
    ensures { result.now ≡ cond value (codes "1") (codes "0") }
{
    if value { b"1" } else { b"0" }
}

/// The name of a supply: of the first rule that declares one of this value, else its digit.
fn supply_name(rules: &Rules, value: bool) -> &[u8]
    ensures { result.now ≡ supply_name rules.now value }
{
    match first_of(rules.supplies.as_slice(), value) {
        Some(rule) => rule.net.as_bytes(),
        None => digit(value),
    }
}

/// The net of a supply.
fn supply_net(alloc: Global, rules: &Rules, value: bool) -> Result<FlatNet, NoMemory>
    ensures { IfOk result (λ net. net ≡ supply_flat rules.now value) }
{
    Ok(FlatNet {
        name: Text::from_bytes(alloc, supply_name(rules, value))?,
        kind: NetKind::Supply(value),
    })
}

/// The kind of a port's net: an output is plain.
fn kind_of_role(role: PortRole) -> NetKind
    ensures { result ≡ kind_by_role role }
{
    match role {
        PortRole::Supply(value) => NetKind::Supply(value),
        PortRole::Clock(clock) => NetKind::Clock(clock),
        PortRole::Input(_) => NetKind::Input,
        PortRole::Output(_) => NetKind::Plain,
    }
}

/// The kind of the net of a port with the first of some roles; plain where there is none.
fn first_kind(roles: &[PortRole]) -> NetKind
    ensures { result ≡ kind_by (slice_get roles.now 0) }
{
    match roles.first() {
        Some(role) => kind_of_role(*role),
        None => NetKind::Plain,
    }
}

/// The roles behind the first.
fn behind(roles: &[PortRole]) -> &[PortRole]
    ensures { result.now ≡ drop 1 roles.now }
{
    match roles.split_first() {
        Some((_, behind)) => behind,
        None => &[],
    }
}

/// Adds the net of a port with the first of some roles, unless the port is a supply.
fn add_port(
    alloc: Global,
    nets: &mut Seq<FlatNet>,
    supplies: &FirstValues<bool>,
    port: &[u8],
    roles: &[PortRole],
) -> Result<(), NoMemory>
    ensures { OnOk result (nets.new ≡ nets.old ++ port_net_in (supply_in supplies.now) port.now roles.now) }
{
    if supply(supplies, port).is_none() {
        let net = FlatNet {
            name: Text::from_bytes(alloc, port)?,
            kind: first_kind(roles),
        };
        append(nets, net)?;
    }
    Ok(())
}

/// Adds the nets of the ports that are no supplies, by their roles.
fn add_ports(
    alloc: Global,
    nets: &mut Seq<FlatNet>,
    supplies: &FirstValues<bool>,
    ports: &[Text],
    roles: &[PortRole],
) -> Result<(), NoMemory>
    ensures { OnOk result (nets.new ≡ nets.old ++ port_nets_in (supply_in supplies.now) ports.now roles.now) }
{
    let mut ports_left = ports;
    let mut roles_left = roles;
    'ports: while let Some((port, ports_behind)) = ports_left.split_first() {
        add_port(alloc, nets, supplies, port.as_bytes(), roles_left)?;
        ports_left = ports_behind;
        roles_left = behind(roles_left);
    }
    Ok(())
}

/// Adds the net of a supply.
fn add_supply(
    alloc: Global,
    nets: &mut Seq<FlatNet>,
    rules: &Rules,
    value: bool,
) -> Result<(), NoMemory>
    ensures { OnOk result (nets.new ≡ nets.old ++ supply_flat rules.now value ∷ []) }
{
    append(nets, supply_net(alloc, rules, value)?)?;
    Ok(())
}

/// Adds the nets of an unrolled cell, to none.
fn add_nets(
    alloc: Global,
    nets: &mut Seq<FlatNet>,
    index: &RuleIndex,
    tables: &NetTables,
    design: &Design,
    rules: &Rules,
    unrolled: &Unrolled,
    cell: u32,
    pairing: &Pairing,
) -> Result<(), NoMemory>
    requires empty { nets.old ≡ [] }
    requires indexed { AreIndexed design.now rules.now index.now }
    requires tables { AreNetTables design.now rules.now tables.now }
    requires there { cell < length design.now.cells }
    requires unrolled { (roles : List RoleValue) → IsUnrolled (whole_of design.now rules.now cell roles) unrolled.now }
    ensures { OnOk result (nets.new ≡ flat_nets (whole_of design.now rules.now cell pairing.now.ports)) }
{
    add_supply(alloc, nets, rules, false)?;
    add_supply(alloc, nets, rules, true)?;
    let ports = cell_of(design, cell).ports.as_slice();
    let roles = pairing.ports.as_slice();
    add_ports(alloc, nets, &index.supplies, ports, roles)?;
    add_inner_nets(alloc, nets, design, tables, unrolled)?;
    Ok(())
}

/// The nets of an unrolled cell: the two supplies, the other ports by their roles, its global nets, and the own nets of
/// each place.
pub fn nets(
    alloc: Global,
    index: &RuleIndex,
    tables: &NetTables,
    design: &Design,
    rules: &Rules,
    unrolled: &Unrolled,
    cell: u32,
    pairing: &Pairing,
) -> Result<Seq<FlatNet>, NoMemory>
    requires indexed { AreIndexed design.now rules.now index.now }
    requires tables { AreNetTables design.now rules.now tables.now }
    requires there { cell < length design.now.cells }
    requires unrolled { (roles : List RoleValue) → IsUnrolled (whole_of design.now rules.now cell roles) unrolled.now }
    ensures { IfOk result (λ nets. nets ≡ flat_nets (whole_of design.now rules.now cell pairing.now.ports)) }
{
    let mut nets = Seq::new(alloc);
    add_nets(
        alloc, &mut nets, index, tables, design, rules, unrolled, cell, pairing,
    )?;
    Ok(nets)
}
