//! Steps in an assign, and in the terminals of a gate.

ghost use Rattle.std.specs.Prelude.{◌≡◌, ◌∷◌, ◌++◌, [], ℕ, List, IfOk, OnOk, None};
ghost use Rattle.verilog_expression.specs.Grammar.{seen};
ghost use Rattle.verilog_expression.specs.Kept.{seen_progress};
ghost use Rattle.verilog_expression.specs.Readings.{ended, start, taken};
ghost use Rattle.verilog_source.specs.Places.{from_output_read, from_target_read, from_target_wanted, from_terminal_open, from_terminal_wanted, from_value_open, gate_read, in_terminal, input_read, output_read, plain, step, value_read};
ghost use Rattle.verilog_source.specs.Positions.{assign_place, gate_so_far, place, plain_name, step_seen};
ghost use Rattle.verilog_source.specs.Grammar.{has_one_input};
ghost use Rattle.verilog_tokens.specs.Signs.{part_of, sign_of};

use crate::position::{Assign, Gate, Next, Position, Told, Work};
use std::alloc::Global;
use std::mem::replace;
use verilog_expression::{Expression, begin, end, is_within, take};
use verilog_tokens::{GateKind, Kind, PartKind};
use vrt_model::{NoMemory, Seq, Text};

/// The only item of a list.
fn put_only(alloc: Global, list: &mut Seq<Expression>, e: Expression) -> Result<(), NoMemory>
    ensures { OnOk result (list.new ≡ e ∷ []) }
{
    *list = Seq::new(alloc);
    list.append(e)
}

/// From before the name of an assign.
fn from_target(
    alloc: Global,
    line: u32,
    work: &mut Work,
    kind: Kind,
    bytes: &[u8],
) -> Result<Option<Next>, NoMemory>
    ensures { IfOk result (λ next. step_seen next bytes.now work.new ≡ from_target_wanted line (sign_of kind bytes.now)) }
{
    match kind {
        Kind::Part(PartKind::Name) => {
            work.name = Text::from_bytes(alloc, bytes)?;
            Ok(Some(Next::to(Position::Assign(Assign::Read(line)))))
        }
        _ => Ok(None),
    }
}

/// From behind it.
fn from_name(alloc: Global, line: u32, work: &mut Work, kind: Kind, bytes: &[u8]) -> Option<Next>
    ensures { step_seen result bytes.now work.new ≡ from_target_read line work.old.name (sign_of kind bytes.now) }
{
    match kind {
        Kind::Equals => {
            work.progress = begin(alloc);
            Some(Next::to(Position::Assign(Assign::Open(line))))
        }
        _ => None,
    }
}

/// The expression of an assign has ended, before this place, which keeps nothing.
fn end_value(
    alloc: Global,
    line: u32,
    work: &mut Work,
    position: Position,
) -> Result<Option<Next>, NoMemory>
    ensures { (bytes : List ℕ) → IfOk result (λ next. step_seen next bytes work.new ≡ value_read line work.old.name (place position work.new) (ended (seen_progress work.old.progress))) }
{
    match end(alloc, &mut work.progress)? {
        None => Ok(None),
        Some(e) => {
            put_only(alloc, &mut work.inputs, e)?;
            Ok(Some(Next {
                position,
                told: Told::Assigned(line),
            }))
        }
    }
}

/// From within the expression of an assign.
fn from_value(
    alloc: Global,
    line: u32,
    work: &mut Work,
    kind: Kind,
    bytes: &[u8],
) -> Result<Option<Next>, NoMemory>
    ensures { IfOk result (λ next. step_seen next bytes.now work.new ≡ from_value_open line work.old.name (seen_progress work.old.progress) (sign_of kind bytes.now)) }
{
    match kind {
        Kind::Part(part) => {
            if take(alloc, &mut work.progress, part, bytes)? {
                Ok(Some(Next::to(Position::Assign(Assign::Open(line)))))
            } else {
                Ok(None)
            }
        }
        Kind::Comma => end_value(alloc, line, work, Position::Assign(Assign::Wanted(line))),
        Kind::Semicolon => end_value(alloc, line, work, Position::Body),
        _ => Ok(None),
    }
}

/// From a place in an assign.
pub fn from_assign(
    alloc: Global,
    assign: Assign,
    work: &mut Work,
    kind: Kind,
    bytes: &[u8],
) -> Result<Option<Next>, NoMemory>
    ensures { (line : ℕ) → IfOk result (λ next. step_seen next bytes.now work.new ≡ step (assign_place assign work.old) line (sign_of kind bytes.now)) }
{
    match assign {
        Assign::Wanted(line) => from_target(alloc, line, work, kind, bytes),
        Assign::Read(line) => Ok(from_name(alloc, line, work, kind, bytes)),
        Assign::Open(line) => from_value(alloc, line, work, kind, bytes),
    }
}

/// From behind the first output of a gate.
pub fn from_first_output(
    alloc: Global,
    line: u32,
    gate: GateKind,
    work: &mut Work,
    kind: Kind,
    bytes: &[u8],
) -> Result<Option<Next>, NoMemory>
    ensures { IfOk result (λ next. step_seen next bytes.now work.new ≡ from_output_read line gate work.old.name (sign_of kind bytes.now)) }
{
    match kind {
        Kind::Comma => {
            let name = replace(&mut work.name, Text::new(alloc));
            work.outputs = Seq::new(alloc);
            work.inputs = Seq::new(alloc);
            work.outputs.append(name)?;
            Ok(Some(Next::to(Position::Gate(Gate::TerminalWanted(line, gate)))))
        }
        _ => Ok(None),
    }
}

/// Takes a part of a terminal that is read, behind which it is no plain name.
fn go_on(
    alloc: Global,
    line: u32,
    gate: GateKind,
    work: &mut Work,
    part: PartKind,
    bytes: &[u8],
) -> Result<Option<Next>, NoMemory>
    ensures { IfOk result (λ next. step_seen next bytes.now work.new ≡ in_terminal (gate_so_far line gate work.old) None (taken (seen_progress work.old.progress) (part_of part bytes.now))) }
{
    if take(alloc, &mut work.progress, part, bytes)? {
        Ok(Some(Next::to(Position::Gate(Gate::TerminalOpen(line, gate, false)))))
    } else {
        Ok(None)
    }
}

/// Takes the first part of a terminal, which may be a plain name.
fn begin_terminal(
    alloc: Global,
    line: u32,
    gate: GateKind,
    work: &mut Work,
    part: PartKind,
    bytes: &[u8],
) -> Result<Option<Next>, NoMemory>
    ensures { IfOk result (λ next. step_seen next bytes.now work.new ≡ in_terminal (gate_so_far line gate work.old) (plain (part_of part bytes.now)) (taken start (part_of part bytes.now))) }
{
    work.progress = begin(alloc);
    match part {
        PartKind::Name => {
            work.name = Text::from_bytes(alloc, bytes)?;
            if take(alloc, &mut work.progress, part, bytes)? {
                return Ok(Some(Next::to(Position::Gate(Gate::TerminalOpen(line, gate, true)))));
            }
            Ok(None)
        }
        _ => go_on(alloc, line, gate, work, part, bytes),
    }
}

/// From before a further terminal.
pub fn from_terminal_before(
    alloc: Global,
    line: u32,
    gate: GateKind,
    work: &mut Work,
    kind: Kind,
    bytes: &[u8],
) -> Result<Option<Next>, NoMemory>
    ensures { IfOk result (λ next. step_seen next bytes.now work.new ≡ from_terminal_wanted (gate_so_far line gate work.old) (sign_of kind bytes.now)) }
{
    match kind {
        Kind::Part(part) => begin_terminal(alloc, line, gate, work, part, bytes),
        _ => Ok(None),
    }
}

/// The last terminal of a gate has ended.
fn end_gate(
    alloc: Global,
    line: u32,
    gate: GateKind,
    work: &mut Work,
) -> Result<Option<Next>, NoMemory>
    ensures { (bytes : List ℕ) → IfOk result (λ next. step_seen next bytes work.new ≡ gate_read (gate_so_far line gate work.old) (ended (seen_progress work.old.progress))) }
{
    match end(alloc, &mut work.progress)? {
        None => Ok(None),
        Some(e) => {
            work.inputs.append(e)?;
            Ok(Some(Next {
                position: Position::Gate(Gate::Read(line, gate)),
                told: Told::Gate(line, gate),
            }))
        }
    }
}

/// A further output has ended, which is a plain name.
fn end_output(
    alloc: Global,
    line: u32,
    gate: GateKind,
    is_plain: bool,
    work: &mut Work,
) -> Result<Option<Next>, NoMemory>
    ensures { (bytes : List ℕ) → IfOk result (λ next. step_seen next bytes work.new ≡ output_read (gate_so_far line gate work.old) (plain_name is_plain work.old.name)) }
{
    if !is_plain {
        return Ok(None);
    }
    let name = replace(&mut work.name, Text::new(alloc));
    work.outputs.append(name)?;
    Ok(Some(Next::to(Position::Gate(Gate::TerminalWanted(line, gate)))))
}

/// An input has ended, behind which another comes.
fn end_input(
    alloc: Global,
    line: u32,
    gate: GateKind,
    work: &mut Work,
) -> Result<Option<Next>, NoMemory>
    ensures { (bytes : List ℕ) → IfOk result (λ next. step_seen next bytes work.new ≡ input_read (gate_so_far line gate work.old) (ended (seen_progress work.old.progress))) }
{
    match end(alloc, &mut work.progress)? {
        None => Ok(None),
        Some(e) => {
            work.inputs.append(e)?;
            Ok(Some(Next::to(Position::Gate(Gate::TerminalWanted(line, gate)))))
        }
    }
}

/// Whether a gate has one input and may have several outputs.
fn is_single(gate: GateKind) -> bool
    ensures { result ≡ has_one_input gate }
{
    match gate {
        GateKind::Buf => true,
        GateKind::Not => true,
        _ => false,
    }
}

/// From within a terminal.
pub fn from_terminal(
    alloc: Global,
    line: u32,
    gate: GateKind,
    is_plain: bool,
    work: &mut Work,
    kind: Kind,
    bytes: &[u8],
) -> Result<Option<Next>, NoMemory>
    ensures { IfOk result (λ next. step_seen next bytes.now work.new ≡ from_terminal_open (gate_so_far line gate work.old) (plain_name is_plain work.old.name) (seen_progress work.old.progress) (sign_of kind bytes.now)) }
{
    match kind {
        Kind::Part(PartKind::Closing) => {
            if is_within(&work.progress) {
                go_on(alloc, line, gate, work, PartKind::Closing, bytes)
            } else {
                end_gate(alloc, line, gate, work)
            }
        }
        Kind::Part(part) => go_on(alloc, line, gate, work, part, bytes),
        Kind::Comma => {
            if is_single(gate) {
                end_output(alloc, line, gate, is_plain, work)
            } else {
                end_input(alloc, line, gate, work)
            }
        }
        _ => Ok(None),
    }
}
