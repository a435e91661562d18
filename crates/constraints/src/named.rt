//! The ports of an instance that the lines of its cell name in a phase.

ghost use Rattle.std.specs.Prelude.{◌≡◌, ◌&&◌, ◌||◌, [], bytes_eq, cond, length, max, slice_get, slice_index, unwrap_or};
ghost use Rattle.std.specs.List.{list_any};
ghost use Rattle.constraints.specs.Obliged.{has_lines, is_asked, is_named_by, is_named_in, nets_named};
ghost use Rattle.vrt_model.specs.Comparison.{cell_at};
ghost use Rattle.vrt_model.specs.Expressions.{names_in};
ghost use Rattle.vrt_model.specs.Lists.{has_name};
ghost use Rattle.vrt_model.specs.Places.{greatest_rank};
ghost use Rattle.vrt_model.specs.declared.rules.ClockportRule.{ClockportRule as ClockportValue};

use crate::assumptions::is_asked;
use crate::cells::{cell_name, cell_ports};
use crate::instances::is_of;
use vrt_model::{AssumeRule, ClockportRule, Design, Expr, FlatInstance, Net, Rules, Text};

/// Whether an expression names a port.
#[tactic(auto, using(crate::proofs::NamedLaws::one_named, crate::proofs::NamedLaws::two_named))]
fn names_port(e: &Expr, name: &[u8]) -> bool
    ensures { result ≡ has_name (names_in e.now) name.now }
{
    match e {
        Expr::Port(port) => name == port.as_bytes(),
        Expr::Not(inner) => names_port(inner, name),
        Expr::And(left, right) => {
            let first = names_port(left, name);
            let second = names_port(right, name);
            first || second
        }
        Expr::Xor(left, right) => {
            let first = names_port(left, name);
            let second = names_port(right, name);
            first || second
        }
        Expr::Or(left, right) => {
            let first = names_port(left, name);
            let second = names_port(right, name);
            first || second
        }
    }
}

/// Whether an `assume` line is for a cell in a phase and names a port.
fn assumes_port(rule: &AssumeRule, cell: &[u8], phase: u32, name: &[u8]) -> bool
    ensures { result ≡ is_named_by cell.now phase name.now rule.now }
{
    let names = names_port(&rule.expression, name);
    is_asked(rule, cell, phase) && names
}

/// Whether some `assume` line of a cell in a phase names a port.
fn any_assumes(rules: &[AssumeRule], cell: &[u8], phase: u32, name: &[u8]) -> bool
    ensures { result ≡ list_any (is_named_by cell.now phase name.now) rules.now }
{
    for rule in rules {
        if assumes_port(rule, cell, phase, name) {
            return true;
        }
    }
    false
}

/// Whether a `clockport` line is for a port of a cell.
fn is_clock(rule: &ClockportRule, cell: &[u8], name: &[u8]) -> bool
    ensures { result ≡ (bytes_eq rule.now.cell cell.now && bytes_eq rule.now.port name.now) }
{
    is_of(rule, cell) && rule.port.as_bytes() == name
}

/// Whether some `clockport` line is for a port of a cell.
fn any_clock(rules: &[ClockportRule], cell: &[u8], name: &[u8]) -> bool
    ensures { result ≡ list_any (λ (r : ClockportValue). bytes_eq r.cell cell.now && bytes_eq r.port name.now) rules.now }
{
    for rule in rules {
        if is_clock(rule, cell, name) {
            return true;
        }
    }
    false
}

/// Whether one of two tests holds.
fn either(one: bool, other: bool) -> bool
    ensures { result ≡ (one || other) }
{
    one || other
}

/// Whether a line of a cell names a port in a phase.
fn is_named(rules: &Rules, cell: &[u8], phase: u32, name: &[u8]) -> bool
    ensures { result ≡ is_named_in rules.now cell.now phase name.now }
{
    let assumed = any_assumes(rules.assumes.as_slice(), cell, phase, name);
    let clocked = any_clock(rules.clockports.as_slice(), cell, name);
    either(assumed, clocked)
}

/// Whether some `assume` line is for a cell in a phase.
fn any_asked(rules: &[AssumeRule], cell: &[u8], phase: u32) -> bool
    ensures { result ≡ list_any (is_asked cell.now phase) rules.now }
{
    for rule in rules {
        if is_asked(rule, cell, phase) {
            return true;
        }
    }
    false
}

/// Whether some `clockport` line is for a cell.
fn any_of(rules: &[ClockportRule], cell: &[u8]) -> bool
    ensures { result ≡ list_any (λ (r : ClockportValue). bytes_eq r.cell cell.now) rules.now }
{
    for rule in rules {
        if is_of(rule, cell) {
            return true;
        }
    }
    false
}

/// Whether the cell of an instance has an `assume` line for a phase or a `clockport` line: else its constraints hold
/// whatever bits its nets have.
pub fn is_constrained(design: &Design, rules: &Rules, instance: &FlatInstance, phase: u32) -> bool
    ensures { result ≡ has_lines design.now rules.now phase instance.now }
{
    let cell = cell_name(design, instance.cell);
    let assumed = any_asked(rules.assumes.as_slice(), cell, phase);
    let clocked = any_of(rules.clockports.as_slice(), cell);
    either(assumed, clocked)
}

/// The rank of a net, 0 where there is none.
fn rank_of(ranks: &[usize], net: Net) -> usize
    ensures { result ≡ slice_index ranks.now net.0 }
{
    match ranks.get(net.0 as usize) {
        Some(rank) => *rank,
        None => 0,
    }
}

/// The greater of two ranks.
fn greater(a: usize, b: usize) -> usize
    ensures { result ≡ max a b }
{
    if a < b { b } else { a }
}

/// The rank of the net of a port, 0 where no line names the port.
fn port_rank(
    rules: &Rules,
    cell: &[u8],
    phase: u32,
    name: &[u8],
    net: Net,
    ranks: &[usize],
) -> usize
    ensures { result ≡ cond (is_named_in rules.now cell.now phase name.now) (slice_index ranks.now net.0) 0 }
{
    if is_named(rules, cell, phase, name) {
        rank_of(ranks, net)
    } else {
        0
    }
}

/// The name at a place, empty where there is none.
fn name_at(names: &[Text], at: usize) -> &[u8]
    ensures { result.now ≡ unwrap_or (slice_get names.now at) [] }
{
    match names.get(at) {
        Some(name) => name.as_bytes(),
        None => &[],
    }
}

/// The net at a place, net 0 where there is none.
fn net_at(nets: &[Net], at: usize) -> Net
    ensures { result ≡ unwrap_or (slice_get nets.now at) (record { 0 = 0 }) }
{
    match nets.get(at) {
        Some(net) => *net,
        None => Net(0),
    }
}

/// The greatest of the ranks of the nets that the lines of an instance's cell name in a phase, where `ranks` has the rank
/// of each net.
pub fn named_rank(
    design: &Design,
    rules: &Rules,
    instance: &FlatInstance,
    phase: u32,
    ranks: &[usize],
) -> usize
    requires { length instance.now.ports ≡ length (cell_at design.now instance.now.cell).ports }
    ensures { result ≡ greatest_rank (slice_index ranks.now) (nets_named design.now rules.now phase instance.now) }
{
    let cell = cell_name(design, instance.cell);
    let names = cell_ports(design, instance.cell);
    let nets = instance.ports.as_slice();
    let mut greatest = 0;
    for at in 0..names.len() {
        let name = name_at(names, at);
        let net = net_at(nets, at);
        let rank = port_rank(rules, cell, phase, name, net, ranks);
        greatest = greater(greatest, rank);
    }
    greatest
}
