//! Steps in an instance.

ghost use Rattle.std.specs.Prelude.{◌≡◌, ◌++◌, ◌∷◌, [], ℕ, IfOk, OnOk, Some, map, option_map};
ghost use Rattle.verilog_source.specs.Places.{from_actual_read, from_instance_named, from_instance_read, from_instance_wanted, from_tie_dot, from_tie_open, from_tie_port, from_tie_read, from_tie_wanted, step};
ghost use Rattle.verilog_source.specs.Positions.{actual_read, instance_place, instance_so_far, seen_actual, seen_tie, step_seen};
ghost use Rattle.verilog_tokens.specs.Signs.{sign_of};

use crate::position::{Actual, Instance, Next, PortTie, Position, Told, Work};
use std::alloc::Global;
use std::mem::replace;
use verilog_tokens::{Kind, PartKind};
use vrt_model::{NoMemory, Seq, Text};

/// A place in an instance, with nothing told.
fn to(instance: Instance) -> Option<Next>
    ensures { result ≡ Some (record { position = Position.Instance instance; told = Told.Nothing }) }
{
    Some(Next::to(Position::Instance(instance)))
}

/// Adds a tie of the port that was read.
fn add_tie(alloc: Global, work: &mut Work, actual: Option<Actual>) -> Result<(), NoMemory>
    ensures ties { OnOk result (map seen_tie work.new.ties ≡ map seen_tie work.old.ties ++ record { port = work.old.name; actual = option_map seen_actual actual } ∷ []) }
    ensures module { work.new.module ≡ work.old.module }
{
    let port = replace(&mut work.name, Text::new(alloc));
    work.ties.append(PortTie { port, actual })
}

/// From before an instance.
fn from_wanted(line: u32, kind: Kind, bytes: &[u8]) -> Option<Next>
    ensures { (w : Work) → step_seen result bytes.now w ≡ from_instance_wanted line w.module (sign_of kind bytes.now) }
{
    match kind {
        Kind::Part(PartKind::Name) => to(Instance::Named(line)),
        _ => None,
    }
}

/// From behind its name.
fn from_named(alloc: Global, line: u32, work: &mut Work, kind: Kind, bytes: &[u8]) -> Option<Next>
    ensures { step_seen result bytes.now work.new ≡ from_instance_named line work.old.module (sign_of kind bytes.now) }
{
    match kind {
        Kind::Part(PartKind::Opening) => {
            work.ties = Seq::new(alloc);
            to(Instance::TieWanted(line))
        }
        _ => None,
    }
}

/// From before a tie.
fn from_tie(line: u32, kind: Kind, bytes: &[u8]) -> Option<Next>
    ensures { (w : Work) → step_seen result bytes.now w ≡ from_tie_wanted (instance_so_far line w) (sign_of kind bytes.now) }
{
    match kind {
        Kind::Dot => to(Instance::TieDot(line)),
        _ => None,
    }
}

/// From behind the `.` of a tie.
fn from_dot(
    alloc: Global,
    line: u32,
    work: &mut Work,
    kind: Kind,
    bytes: &[u8],
) -> Result<Option<Next>, NoMemory>
    ensures { IfOk result (λ next. step_seen next bytes.now work.new ≡ from_tie_dot (instance_so_far line work.old) (sign_of kind bytes.now)) }
{
    match kind {
        Kind::Part(PartKind::Name) => {
            work.name = Text::from_bytes(alloc, bytes)?;
            Ok(to(Instance::TiePort(line)))
        }
        _ => Ok(None),
    }
}

/// From behind the port of a tie.
fn from_port(line: u32, kind: Kind, bytes: &[u8]) -> Option<Next>
    ensures { (w : Work) → step_seen result bytes.now w ≡ from_tie_port (instance_so_far line w) w.name (sign_of kind bytes.now) }
{
    match kind {
        Kind::Part(PartKind::Opening) => to(Instance::TieOpen(line)),
        _ => None,
    }
}

/// From behind the `(` of a tie.
fn from_open(
    alloc: Global,
    line: u32,
    work: &mut Work,
    kind: Kind,
    bytes: &[u8],
) -> Result<Option<Next>, NoMemory>
    ensures { IfOk result (λ next. step_seen next bytes.now work.new ≡ from_tie_open (instance_so_far line work.old) work.old.name (sign_of kind bytes.now)) }
{
    match kind {
        Kind::Part(PartKind::Name) => {
            let net = Text::from_bytes(alloc, bytes)?;
            work.actual = Some(Actual::Net(net));
            Ok(to(Instance::ActualRead(line)))
        }
        Kind::Part(PartKind::Bit(bit)) => {
            work.actual = Some(Actual::Constant(bit));
            Ok(to(Instance::ActualRead(line)))
        }
        Kind::Part(PartKind::Closing) => {
            add_tie(alloc, work, None)?;
            Ok(to(Instance::TieRead(line)))
        }
        _ => Ok(None),
    }
}

/// What a tie is tied to.
fn take_actual(actual: &mut Option<Actual>) -> Actual
    ensures { seen_actual result ≡ actual_read actual.old }
{
    match actual.take() {
        Some(read) => read,
        None => Actual::Constant(false),
    }
}

/// From behind the net or constant of a tie.
fn from_actual(
    alloc: Global,
    line: u32,
    work: &mut Work,
    kind: Kind,
    bytes: &[u8],
) -> Result<Option<Next>, NoMemory>
    ensures { IfOk result (λ next. step_seen next bytes.now work.new ≡ from_actual_read (instance_so_far line work.old) work.old.name (actual_read work.old.actual) (sign_of kind bytes.now)) }
{
    match kind {
        Kind::Part(PartKind::Closing) => {
            let actual = take_actual(&mut work.actual);
            add_tie(alloc, work, Some(actual))?;
            Ok(to(Instance::TieRead(line)))
        }
        _ => Ok(None),
    }
}

/// From behind a tie.
fn from_tie_behind(line: u32, kind: Kind, bytes: &[u8]) -> Option<Next>
    ensures { (w : Work) → step_seen result bytes.now w ≡ from_tie_read (instance_so_far line w) (sign_of kind bytes.now) }
{
    match kind {
        Kind::Comma => to(Instance::TieWanted(line)),
        Kind::Part(PartKind::Closing) => Some(Next {
            position: Position::Instance(Instance::Read(line)),
            told: Told::Instance(line),
        }),
        _ => None,
    }
}

/// From behind an instance.
fn from_read(line: u32, kind: Kind, bytes: &[u8]) -> Option<Next>
    ensures { (w : Work) → step_seen result bytes.now w ≡ from_instance_read line w.module (sign_of kind bytes.now) }
{
    match kind {
        Kind::Comma => to(Instance::Wanted(line)),
        Kind::Semicolon => Some(Next::to(Position::Body)),
        _ => None,
    }
}

/// From a place in an instance.
pub fn from_instance(
    alloc: Global,
    instance: Instance,
    work: &mut Work,
    kind: Kind,
    bytes: &[u8],
) -> Result<Option<Next>, NoMemory>
    ensures { (line : ℕ) → IfOk result (λ next. step_seen next bytes.now work.new ≡ step (instance_place instance work.old) line (sign_of kind bytes.now)) }
{
    match instance {
        Instance::Wanted(line) => Ok(from_wanted(line, kind, bytes)),
        Instance::Named(line) => Ok(from_named(alloc, line, work, kind, bytes)),
        Instance::TieWanted(line) => Ok(from_tie(line, kind, bytes)),
        Instance::TieDot(line) => from_dot(alloc, line, work, kind, bytes),
        Instance::TiePort(line) => Ok(from_port(line, kind, bytes)),
        Instance::TieOpen(line) => from_open(alloc, line, work, kind, bytes),
        Instance::ActualRead(line) => from_actual(alloc, line, work, kind, bytes),
        Instance::TieRead(line) => Ok(from_tie_behind(line, kind, bytes)),
        Instance::Read(line) => Ok(from_read(line, kind, bytes)),
    }
}
