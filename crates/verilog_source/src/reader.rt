//! The reader: token by token, up to the first fault.

ghost use Rattle.std.specs.Prelude.{◌≡◌, ◌∷◌, [], ℕ, List, OnOk, IfNone, IfOk, IfSome, unwrap_or};
ghost use Rattle.text_lines.specs.Faults.{Judges};
ghost use Rattle.verilog_expression.specs.Limits.{uncounted};
ghost use Rattle.verilog_source.specs.Kept.{gathered, seen_known, step_told, told_events};
ghost use Rattle.verilog_source.specs.Known.{counted, learned, with_events, with_one};
ghost use Rattle.verilog_source.specs.Places.Event.{begins};
ghost use Rattle.verilog_source.specs.Places.{step};
ghost use Rattle.verilog_source.specs.Positions.{events, place};
ghost use Rattle.verilog_source.specs.Refused.{fault_by, fault_within, next_fault, passes_limit};
ghost use Rattle.verilog_source.specs.declared.position.Work.{Work};
ghost use Rattle.verilog_tokens.specs.Signs.{sign_of, token_of};

use crate::faults::VerilogFault;
use crate::judge::{
    is_end_kind, is_full_gate, is_module_name, judge_end, judge_name, judge_ports, judge_sign,
};
use crate::known::{Gathering, Known, count_token, gather, no_names};
use crate::position::{Direction, Position, Told};
use crate::steps::take_step;
use std::alloc::Global;
use verilog_expression::Counts;
use verilog_tokens::Kind;
use vrt_model::NoMemory;

/// Whether a token passes a limit.
pub fn is_past_limit(known: &Known, kind: Kind) -> bool
    ensures { (bytes : List ℕ) → result ≡ passes_limit (seen_known known.now) (sign_of kind bytes) }
{
    is_module_name(known.position, kind) && known.modules.len() >= 4096
        || count_token(known.position, known.counts, kind).is_none()
        || is_full_gate(known.position, &known.work)
}

/// A module begins, of which nothing else is known.
fn begin_module(alloc: Global, known: &mut Known, line: u32, name: &[u8]) -> Result<(), NoMemory>
    ensures known { OnOk result (seen_known known.new ≡ with_events (seen_known known.old) (begins line name.now ∷ [])) }
    ensures work { known.new.work ≡ known.old.work }
{
    known.modules.number(name)?;
    known.line = line;
    known.ports = no_names(alloc);
    known.directions = no_names(alloc);
    Ok(())
}

/// A name has a direction, none for a wire.
fn add_direction(
    directions: &mut Gathering,
    direction: Option<Direction>,
    name: &[u8],
) -> Result<(), NoMemory>
    ensures some { IfSome direction (λ d. OnOk result (gathered directions.new ≡ with_one (gathered directions.old) name.now)) }
    ensures none { IfNone direction (directions.new ≡ directions.old) }
{
    match direction {
        Some(_) => gather(directions, name),
        None => Ok(()),
    }
}

/// Learns what a token tells of the modules.
pub fn learn(alloc: Global, known: &mut Known, told: Told, name: &[u8]) -> Result<(), NoMemory>
    ensures known { OnOk result (seen_known known.new ≡ with_events (seen_known known.old) (events told name.now known.old.work)) }
    ensures work { known.new.work ≡ known.old.work }
{
    match told {
        Told::Begins(line) => begin_module(alloc, known, line, name),
        Told::Port(_, direction) => {
            gather(&mut known.ports, name)?;
            add_direction(&mut known.directions, direction, name)
        }
        Told::Named(_, direction) => add_direction(&mut known.directions, direction, name),
        Told::Assigned(_) => Ok(()),
        Told::Nothing => Ok(()),
        Told::Gate(_, _) => Ok(()),
        Told::Instance(_) => Ok(()),
        Told::Ends => Ok(()),
    }
}

/// Refuses a token that can stand where it does, for the names of modules and ports or for a limit.
fn judge_next(
    alloc: Global,
    known: &Known,
    position: Position,
    has_passed: bool,
    line: u32,
    kind: Kind,
    bytes: &[u8],
) -> Result<(), VerilogFault>
    ensures { (w : Work) → Judges VerilogFault.NoMemory result (next_fault known.now.modules (gathered known.now.ports) (gathered known.now.directions) (place position w) has_passed line (sign_of kind bytes.now)) }
{
    judge_name(alloc, &known.modules, position, line, kind, bytes)?;
    judge_ports(alloc, &known.ports, &known.directions, position, line, kind)?;
    if has_passed {
        return Err(VerilogFault::Limit { line });
    }
    Ok(())
}

/// What is counted of an expression behind a token, from 0 where it is a part of none.
fn counts_after(position: Position, counts: Counts, kind: Kind) -> Counts
    ensures { (w : Work) (bytes : List ℕ) → result ≡ unwrap_or (counted (place position w) counts (sign_of kind bytes)) uncounted }
{
    match count_token(position, counts, kind) {
        Some(counts) => counts,
        None => Counts {
            operators: 0,
            depth: 0,
        },
    }
}

/// Takes the step of a token, and answers what the token tells. None where it cannot stand there.
fn take_place(
    alloc: Global,
    known: &mut Known,
    line: u32,
    kind: Kind,
    bytes: &[u8],
) -> Result<Option<Told>, NoMemory>
    ensures step { IfOk result (λ told. step_told told bytes.now known.new.position known.new.work ≡ step (place known.old.position known.old.work) line (sign_of kind bytes.now)) }
    ensures counts { IfOk result (λ told. IfSome told (λ _. known.new.counts ≡ unwrap_or (counted (place known.old.position known.old.work) known.old.counts (sign_of kind bytes.now)) uncounted)) }
    ensures modules { known.new.modules ≡ known.old.modules }
    ensures line { known.new.line ≡ known.old.line }
    ensures ports { known.new.ports ≡ known.old.ports }
    ensures directions { known.new.directions ≡ known.old.directions }
{
    let position = known.position;
    let counts = counts_after(position, known.counts, kind);
    match take_step(alloc, position, &mut known.work, line, kind, bytes)? {
        Some(next) => {
            known.position = next.position;
            known.counts = counts;
            Ok(Some(next.told))
        }
        None => Ok(None),
    }
}

/// Takes a token that is not the end of the text.
fn take_within(
    alloc: Global,
    known: &mut Known,
    line: u32,
    kind: Kind,
    bytes: &[u8],
) -> Result<Told, VerilogFault>
    ensures fault { Judges VerilogFault.NoMemory result (fault_within (seen_known known.old) (token_of line kind bytes.now) (step (place known.old.position known.old.work) line (sign_of kind bytes.now))) }
    ensures next { OnOk result (seen_known known.new ≡ learned (seen_known known.old) (token_of line kind bytes.now)) }
    ensures told { IfOk result (λ told. events told bytes.now known.new.work ≡ told_events (step (place known.old.position known.old.work) line (sign_of kind bytes.now))) }
{
    let position = known.position;
    let has_passed = is_past_limit(known, kind);
    let Ok(taken) = take_place(alloc, known, line, kind, bytes) else {
        return Err(VerilogFault::NoMemory);
    };
    let Some(told) = taken else {
        return Err(VerilogFault::Syntax { line });
    };
    judge_next(alloc, known, position, has_passed, line, kind, bytes)?;
    match learn(alloc, known, told, bytes) {
        Ok(()) => Ok(told),
        Err(_) => Err(VerilogFault::NoMemory),
    }
}

/// Takes a token, and answers what it tells; what it tells of the statement stands in `known.work`. Refused with the
/// fault at the token, or for want of memory; then nothing more may be taken.
pub fn take_token(
    alloc: Global,
    known: &mut Known,
    line: u32,
    kind: Kind,
    bytes: &[u8],
) -> Result<Told, VerilogFault>
    ensures fault { Judges VerilogFault.NoMemory result (fault_by (seen_known known.old) (token_of line kind bytes.now)) }
    ensures next { OnOk result (seen_known known.new ≡ learned (seen_known known.old) (token_of line kind bytes.now)) }
    ensures told { IfOk result (λ told. events told bytes.now known.new.work ≡ told_events (step (place known.old.position known.old.work) line (sign_of kind bytes.now))) }
{
    judge_sign(alloc, line, kind, bytes)?;
    if is_end_kind(kind) {
        judge_end(known.position, known.line, line, kind)?;
        return Ok(Told::Nothing);
    }
    let told = take_within(alloc, known, line, kind, bytes)?;
    Ok(told)
}
