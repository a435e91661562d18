//! Whether a valuation meets the constraints of a phase, by plain bits.

ghost use Rattle.std.specs.Prelude.{◌≡◌, ◌&&◌, ◌||◌};
ghost use Rattle.constraints.specs.Handles.{clock_in};
ghost use Rattle.constraints.specs.Obliged.{is_asked, phase_bits};
ghost use Rattle.mode_lines.specs.Points.{AreVariables, entered, holds_enter, line_holds, lines_hold, meets_with, port_bit, setting_in, value_in};
ghost use Rattle.vrt_model.specs.Comparison.{cell_at, phase_at};
ghost use Rattle.vrt_model.specs.Constraints.{given_bit, given_by_kind, is_entered};
ghost use Rattle.vrt_model.specs.Lists.{bit_at};
ghost use Rattle.vrt_model.specs.declared.flat_model.FlatModel.{FlatModel as ModelValue};
ghost use Rattle.vrt_model.specs.declared.pairing.Pairing.{Pairing as PairingValue};

use crate::bits::{Sought, bit_of, held_bit};
use crate::points::CellPhase;
use crate::port_nets::port_net;
use vrt_model::{AssumeRule, ClockRef, Design, Enter, Expr, NetKind, Rules, Text};

/// The ports of a cell, none where there is no such cell.
fn cell_ports(design: &Design, cell: u32) -> &[Text]
    ensures { result.now ≡ (cell_at design.entry.now cell).ports }
{
    match design.cells.get(cell as usize) {
        Some(own) => own.ports.as_slice(),
        None => &[],
    }
}

/// The name of a cell, empty where there is no such cell.
fn cell_name(design: &Design, cell: u32) -> &[u8]
    ensures { result.now ≡ (cell_at design.entry.now cell).name }
{
    match design.cells.get(cell as usize) {
        Some(own) => own.name.as_bytes(),
        None => &[],
    }
}

/// The bits of the clocks in a phase, none where there is no such phase.
fn phase_bits(rules: &Rules, phase: u32) -> &[bool]
    ensures { result.now ≡ phase_bits rules.entry.now phase }
{
    match rules.phases.get(phase as usize) {
        Some(found) => found.bits.as_slice(),
        None => &[],
    }
}

/// The bit at a place, and 0 past the end.
fn bit_at(bits: &[bool], at: usize) -> bool
    ensures { result ≡ bit_at bits.now at }
{
    match bits.get(at) {
        Some(bit) => *bit,
        None => false,
    }
}

/// The bit of a carried clock among the bits of a phase.
fn clock_in(bits: &[bool], clock: ClockRef) -> bool
    ensures { result ≡ clock_in bits.now clock }
{
    clock.inverted != bit_at(bits, clock.clock as usize)
}

/// The bit of the net of a number with a given value of this kind, 0 where it is plain.
fn given_by_kind(at: CellPhase<'_>, bits: &[bool], net: usize, kind: NetKind) -> bool
    ensures { result ≡ given_by_kind (phase_at at.entry.rules.now at.entry.phase) (setting_in at.entry bits.now).inputs net kind }
{
    match kind {
        NetKind::Supply(value) => value,
        NetKind::Clock(clock) => clock_in(phase_bits(at.rules, at.phase), clock),
        NetKind::Input => bit_of(at.sources.as_slice(), bits, Sought::Input(net)),
        NetKind::Plain => false,
    }
}

/// The bit of the net of a number with a given value, 0 where there is none.
fn given_bit(at: CellPhase<'_>, bits: &[bool], net: usize) -> bool
    ensures { result ≡ given_bit at.entry.circuit.now (phase_at at.entry.rules.now at.entry.phase) (setting_in at.entry bits.now).inputs net }
{
    match at.circuit.nets.get(net) {
        Some(found) => given_by_kind(at, bits, net, found.kind),
        None => false,
    }
}

/// The bit at the net of a port.
fn port_bit(at: CellPhase<'_>, bits: &[bool], name: &[u8]) -> bool
    ensures { result ≡ port_bit at.entry bits.now name.now }
{
    given_bit(
        at,
        bits,
        port_net(at.rules, cell_ports(at.design, at.cell), name),
    )
}

/// One of two bits.
fn either(left: bool, right: bool) -> bool
    ensures { result ≡ (left || right) }
{
    left || right
}

/// Both of two bits.
fn both(left: bool, right: bool) -> bool
    ensures { result ≡ (left && right) }
{
    left && right
}

/// The value of an expression over the ports of the cell.
fn value(at: CellPhase<'_>, bits: &[bool], e: &Expr) -> bool
    ensures { result ≡ value_in at.entry bits.now e.now }
{
    match e {
        Expr::Port(name) => port_bit(at, bits, name.as_bytes()),
        Expr::Not(inner) => !value(at, bits, inner),
        Expr::And(left, right) => both(value(at, bits, left), value(at, bits, right)),
        Expr::Xor(left, right) => value(at, bits, left) != value(at, bits, right),
        Expr::Or(left, right) => either(value(at, bits, left), value(at, bits, right)),
    }
}

/// Whether an `assume` line is for a cell in a phase.
fn is_asked(rule: &AssumeRule, cell: &[u8], phase: u32) -> bool
    ensures { result ≡ is_asked cell.now phase rule.now }
{
    let is_phase = match rule.phase {
        Some(other) => other == phase,
        None => true,
    };
    rule.cell.as_bytes() == cell && is_phase
}

/// Whether an `assume` line holds, if it is for the cell and the phase.
fn line_holds(at: CellPhase<'_>, bits: &[bool], rule: &AssumeRule) -> bool
    ensures { result ≡ line_holds at.entry bits.now rule.now }
{
    if is_asked(rule, cell_name(at.design, at.cell), at.phase) {
        value(at, bits, &rule.expression)
    } else {
        true
    }
}

/// Whether each `assume` line for the cell and the phase holds.
fn lines_hold(at: CellPhase<'_>, bits: &[bool], rules: &[AssumeRule]) -> bool
    ensures { result ≡ lines_hold at.entry bits.now rules.now }
{
    for rule in rules {
        if !line_holds(at, bits, rule) {
            return false;
        }
    }
    true
}

/// The value of the first of some `enter` lines that is for a phase.
fn entered(enters: &[Enter], phase: u32) -> Option<bool>
    ensures { result ≡ entered enters.now phase }
{
    for enter in enters {
        if enter.phase == phase {
            return Some(enter.value);
        }
    }
    None
}

/// Whether a hold has the value with which it enters, if there is one.
fn is_entered(value: Option<bool>, held: bool) -> bool
    ensures { result ≡ is_entered value held }
{
    match value {
        Some(value) => held == value,
        None => true,
    }
}

/// Whether each hold has the value with which it enters the phase.
fn holds_enter(at: CellPhase<'_>, bits: &[bool]) -> bool
    ensures { result ≡ holds_enter at.entry.phase (setting_in at.entry bits.now).held 0 at.entry.circuit.now.holds }
{
    let holds = at.circuit.holds.as_slice();
    for place in 0..holds.len() {
        let value = entered(holds[place].enters.as_slice(), at.phase);
        if !is_entered(value, held_bit(at, bits, place)) {
            return false;
        }
    }
    true
}

/// Whether a valuation meets the constraints of a phase: each `assume` line of the cell for the phase is true, and each hold that has
/// an `enter` line for the phase has that constant as its held value. So it is in each comparison of the cell that has these variables.
pub fn meets_at(at: CellPhase<'_>, bits: &[bool]) -> bool
    ensures { (pairing : PairingValue) (model : ModelValue) → AreVariables at.entry model → result ≡ meets_with at.entry pairing model bits.now }
{
    both(
        lines_hold(at, bits, at.rules.assumes.as_slice()),
        holds_enter(at, bits),
    )
}
