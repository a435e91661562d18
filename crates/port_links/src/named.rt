//! The ports of a cell that its `assume` and `clockport` lines name in a phase.

ghost use Rattle.std.specs.Prelude.{◌≡◌, ◌++◌, ◌∷◌, [], map, IfOk, OnOk};
ghost use Rattle.std.specs.List.{list_any};
ghost use Rattle.constraints.specs.Obliged.{is_named_in};
ghost use Rattle.port_links.specs.Named.{assumes_port, is_clock_line, passes_at};
ghost use Rattle.rule_index.specs.Tables.{AreRuleTables};
ghost use Rattle.vrt_model.specs.CellRules.{is_for};
ghost use Rattle.vrt_model.specs.Expressions.{names_in};
ghost use Rattle.vrt_model.specs.Lists.{has_name};

use crate::links::either;
use rule_index::RuleIndex;
use std::alloc::Global;
use vrt_model::{AssumeRule, Cell, ClockportRule, Expr, NoMemory, Rules};

/// Whether an expression names a port.
#[tactic(auto, using(crate::proofs::NamedLaws::one_named, crate::proofs::NamedLaws::two_named))]
fn names_port(e: &Expr, name: &[u8]) -> bool
    ensures { result ≡ has_name (names_in e.now) name.now }
{
    match e {
        Expr::Port(port) => name == port.as_bytes(),
        Expr::Not(inner) => names_port(inner, name),
        Expr::And(left, right) => {
            let first = names_port(left, name);
            let second = names_port(right, name);
            first || second
        }
        Expr::Xor(left, right) => {
            let first = names_port(left, name);
            let second = names_port(right, name);
            first || second
        }
        Expr::Or(left, right) => {
            let first = names_port(left, name);
            let second = names_port(right, name);
            first || second
        }
    }
}

/// Whether an `assume` line is for a phase.
fn is_for(rule: &AssumeRule, phase: u32) -> bool
    ensures { result ≡ is_for rule.now.phase phase }
{
    match rule.phase {
        Some(other) => other == phase,
        None => true,
    }
}

/// Whether an `assume` line is for a phase and names a port.
fn assumes_port(rule: &AssumeRule, phase: u32, name: &[u8]) -> bool
    ensures { result ≡ assumes_port phase name.now rule.now }
{
    let names = names_port(&rule.expression, name);
    is_for(rule, phase) && names
}

/// Whether the `assume` line at a place is for a phase and names a port.
fn assumes_port_at(rules: &[AssumeRule], place: usize, phase: u32, name: &[u8]) -> bool
    ensures { result ≡ passes_at (assumes_port phase name.now) rules.now place }
{
    match rules.get(place) {
        Some(rule) => assumes_port(rule, phase, name),
        None => false,
    }
}

/// Whether some `assume` line at these places is for a phase and names a port.
fn any_assumes(rules: &[AssumeRule], places: &[usize], phase: u32, name: &[u8]) -> bool
    ensures { result ≡ list_any (passes_at (assumes_port phase name.now) rules.now) places.now }
{
    for place in places {
        if assumes_port_at(rules, *place, phase, name) {
            return true;
        }
    }
    false
}

/// Whether the `clockport` line at a place is for a port.
fn is_clock_at(rules: &[ClockportRule], place: usize, name: &[u8]) -> bool
    ensures { result ≡ passes_at (is_clock_line name.now) rules.now place }
{
    match rules.get(place) {
        Some(rule) => rule.port.as_bytes() == name,
        None => false,
    }
}

/// Whether some `clockport` line at these places is for a port.
fn any_clock(rules: &[ClockportRule], places: &[usize], name: &[u8]) -> bool
    ensures { result ≡ list_any (passes_at (is_clock_line name.now) rules.now) places.now }
{
    for place in places {
        if is_clock_at(rules, *place, name) {
            return true;
        }
    }
    false
}

/// Whether a line of a cell names a port in a phase: only the lines of this cell are looked at.
fn is_named(index: &RuleIndex, rules: &Rules, cell: &[u8], phase: u32, name: &[u8]) -> bool
    requires tables { AreRuleTables rules.now index.now }
    ensures { result ≡ is_named_in rules.now cell.now phase name.now }
{
    let assumes = index.lines.ports.assumes.places(cell);
    let clocks = index.lines.ports.clockports.places(cell);
    let assumed = any_assumes(rules.assumes.as_slice(), assumes, phase, name);
    let clocked = any_clock(rules.clockports.as_slice(), clocks, name);
    either(assumed, clocked)
}

/// Adds a mark at the end.
fn add(marks: &mut Vec<bool>, mark: bool) -> Result<(), NoMemory>
    ensures { OnOk result (marks.new.items ≡ marks.old.items ++ mark ∷ []) }
{
    match marks.push(mark) {
        Ok(()) => Ok(()),
        Err(_) => Err(NoMemory),
    }
}

/// Whether each port of a cell is named in a phase by an `assume` line of the cell for it or by a `clockport` line, in the order
/// of the ports. Only the lines of this cell are looked at.
pub fn named_ports(
    alloc: Global,
    index: &RuleIndex,
    rules: &Rules,
    cell: &Cell,
    phase: u32,
) -> Result<Vec<bool>, NoMemory>
    requires tables { AreRuleTables rules.now index.now }
    ensures { IfOk result (λ marks. marks.items ≡ map (is_named_in rules.now cell.now.name phase) cell.now.ports) }
{
    let mut marks = Vec::new(alloc);
    let mut rest = cell.ports.as_slice();
    'ports: while let Some((port, behind)) = rest.split_first() {
        let named = is_named(index, rules, cell.name.as_bytes(), phase, port.as_bytes());
        add(&mut marks, named)?;
        rest = behind;
    }
    Ok(marks)
}
