//! The step that a token takes.

ghost use Rattle.std.specs.Prelude.{◌≡◌, ℕ, IfOk, Some};
ghost use Rattle.verilog_source.specs.Places.{from_body, from_gate_named, from_gate_read, from_gate_wanted, from_output_wanted, step};
ghost use Rattle.verilog_source.specs.Positions.{gate_place, place, step_seen};
ghost use Rattle.verilog_source.specs.declared.position.Work.{Work};
ghost use Rattle.verilog_tokens.specs.Signs.{sign_of};

use crate::instances::from_instance;
use crate::plain_steps::{from_header, from_names, from_outside};
use crate::position::{Assign, Direction, Gate, Instance, Listing, Next, Position, Told, Work};
use crate::values::{from_assign, from_first_output, from_terminal, from_terminal_before};
use std::alloc::Global;
use verilog_expression::begin;
use verilog_tokens::{GateKind, Kind, PartKind};
use vrt_model::{NoMemory, Seq, Text};

/// A place in a gate, with nothing told.
fn to(gate: Gate) -> Option<Next>
    ensures { result ≡ Some (record { position = Position.Gate gate; told = Told.Nothing }) }
{
    Some(Next::to(Position::Gate(gate)))
}

/// From before a gate.
fn from_wanted(line: u32, gate: GateKind, kind: Kind, bytes: &[u8]) -> Option<Next>
    ensures { (w : Work) → step_seen result bytes.now w ≡ from_gate_wanted line gate (sign_of kind bytes.now) }
{
    match kind {
        Kind::Part(PartKind::Name) => to(Gate::Named(line, gate)),
        Kind::Part(PartKind::Opening) => to(Gate::OutputWanted(line, gate)),
        _ => None,
    }
}

/// From behind its name.
fn from_named(line: u32, gate: GateKind, kind: Kind, bytes: &[u8]) -> Option<Next>
    ensures { (w : Work) → step_seen result bytes.now w ≡ from_gate_named line gate (sign_of kind bytes.now) }
{
    match kind {
        Kind::Part(PartKind::Opening) => to(Gate::OutputWanted(line, gate)),
        _ => None,
    }
}

/// From behind its `(`.
fn from_opened(
    alloc: Global,
    line: u32,
    gate: GateKind,
    work: &mut Work,
    kind: Kind,
    bytes: &[u8],
) -> Result<Option<Next>, NoMemory>
    ensures { IfOk result (λ next. step_seen next bytes.now work.new ≡ from_output_wanted line gate (sign_of kind bytes.now)) }
{
    match kind {
        Kind::Part(PartKind::Name) => {
            work.name = Text::from_bytes(alloc, bytes)?;
            Ok(to(Gate::OutputRead(line, gate)))
        }
        _ => Ok(None),
    }
}

/// From behind a gate.
fn from_read(line: u32, gate: GateKind, kind: Kind, bytes: &[u8]) -> Option<Next>
    ensures { (w : Work) → step_seen result bytes.now w ≡ from_gate_read line gate (sign_of kind bytes.now) }
{
    match kind {
        Kind::Comma => to(Gate::Wanted(line, gate)),
        Kind::Semicolon => Some(Next::to(Position::Body)),
        _ => None,
    }
}

/// From a place in a gate.
fn from_gate(
    alloc: Global,
    gate: Gate,
    work: &mut Work,
    kind: Kind,
    bytes: &[u8],
) -> Result<Option<Next>, NoMemory>
    ensures { (line : ℕ) → IfOk result (λ next. step_seen next bytes.now work.new ≡ step (gate_place gate work.old) line (sign_of kind bytes.now)) }
{
    match gate {
        Gate::Wanted(line, gate) => Ok(from_wanted(line, gate, kind, bytes)),
        Gate::Named(line, gate) => Ok(from_named(line, gate, kind, bytes)),
        Gate::OutputWanted(line, gate) => from_opened(alloc, line, gate, work, kind, bytes),
        Gate::OutputRead(line, gate) => from_first_output(alloc, line, gate, work, kind, bytes),
        Gate::TerminalWanted(line, gate) => {
            from_terminal_before(alloc, line, gate, work, kind, bytes)
        }
        Gate::TerminalOpen(line, gate, is_plain) => {
            from_terminal(alloc, line, gate, is_plain, work, kind, bytes)
        }
        Gate::Read(line, gate) => Ok(from_read(line, gate, kind, bytes)),
    }
}

/// From between the statements of a module.
fn from_statements(
    alloc: Global,
    line: u32,
    work: &mut Work,
    kind: Kind,
    bytes: &[u8],
) -> Result<Option<Next>, NoMemory>
    ensures { IfOk result (λ next. step_seen next bytes.now work.new ≡ from_body line (sign_of kind bytes.now)) }
{
    match kind {
        Kind::EndModule => Ok(Some(Next {
            position: Position::Outside,
            told: Told::Ends,
        })),
        Kind::Input => Ok(Some(Next::to(Position::Names(Listing::Word(line, Direction::Inputs))))),
        Kind::Output => Ok(Some(Next::to(Position::Names(Listing::Word(
            line,
            Direction::Outputs,
        ))))),
        Kind::Wire => Ok(Some(Next::to(Position::Names(Listing::Wanted(line, None))))),
        Kind::Assign => Ok(Some(Next::to(Position::Assign(Assign::Wanted(line))))),
        Kind::Gate(gate) => Ok(to(Gate::Wanted(line, gate))),
        Kind::Part(PartKind::Name) => {
            work.module = Text::from_bytes(alloc, bytes)?;
            Ok(Some(Next::to(Position::Instance(Instance::Wanted(line)))))
        }
        _ => Ok(None),
    }
}

/// Takes a token: the place behind it, and what it tells. None exactly where no text of modules begins with it and those
/// before it. What is read of the statement goes on in `work`, and what the token tells of it stands there.
pub fn take_step(
    alloc: Global,
    position: Position,
    work: &mut Work,
    line: u32,
    kind: Kind,
    bytes: &[u8],
) -> Result<Option<Next>, NoMemory>
    ensures { IfOk result (λ next. step_seen next bytes.now work.new ≡ step (place position work.old) line (sign_of kind bytes.now)) }
{
    match position {
        Position::Outside => Ok(from_outside(line, kind, bytes)),
        Position::Body => from_statements(alloc, line, work, kind, bytes),
        Position::Header(header) => Ok(from_header(header, kind, bytes)),
        Position::Names(listing) => Ok(from_names(listing, kind, bytes)),
        Position::Assign(assign) => from_assign(alloc, assign, work, kind, bytes),
        Position::Gate(gate) => from_gate(alloc, gate, work, kind, bytes),
        Position::Instance(instance) => from_instance(alloc, instance, work, kind, bytes),
    }
}

/// Nothing is read of a statement.
pub fn no_work(alloc: Global) -> Work {
    Work {
        module: Text::new(alloc),
        name: Text::new(alloc),
        outputs: Seq::new(alloc),
        inputs: Seq::new(alloc),
        ties: Seq::new(alloc),
        actual: None,
        progress: begin(alloc),
    }
}
