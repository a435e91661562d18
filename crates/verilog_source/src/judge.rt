//! The fault at a token, by what those before it tell.

ghost use Rattle.std.specs.Prelude.{◌≡◌, ◌⊎◌, ℕ, List, IfOk, Some, find, is_some, true};
ghost use Rattle.text_lines.specs.Faults.{Judges};
ghost use Rattle.verilog_source.specs.Kept.{gathered};
ghost use Rattle.verilog_source.specs.Positions.{place};
ghost use Rattle.verilog_source.specs.Refused.{bad_port, ends_module, is_bad_port, is_end, is_full, is_limited, module_name, open_line, port_fault, sign_fault, twice_by, unfinished};
ghost use Rattle.verilog_source.specs.declared.position.Work.{Work};
ghost use Rattle.verilog_tokens.specs.Signs.{sign_of};

use crate::faults::VerilogFault;
use crate::known::Gathering;
use crate::position::{Gate, Header, Position, Work};
use names::Names;
use std::alloc::Global;
use verilog_tokens::{GateKind, Kind, PartKind};
use vrt_model::{NoMemory, Text};

/// The fault of what is not supported.
fn unsupported(alloc: Global, line: u32, word: &[u8]) -> VerilogFault
    ensures { (result ≡ VerilogFault.NoMemory) ⊎ (result ≡ VerilogFault.Unsupported line word.now) }
{
    match Text::from_bytes(alloc, word) {
        Ok(word) => VerilogFault::Unsupported { line, word },
        Err(_) => VerilogFault::NoMemory,
    }
}

/// Refuses a token for what it shows itself.
pub fn judge_sign(alloc: Global, line: u32, kind: Kind, bytes: &[u8]) -> Result<(), VerilogFault>
    ensures { Judges VerilogFault.NoMemory result (sign_fault line (sign_of kind bytes.now)) }
{
    match kind {
        Kind::NotText => Err(VerilogFault::NotText { line }),
        Kind::Unsupported => Err(unsupported(alloc, line, bytes)),
        _ => Ok(()),
    }
}

/// Whether a token is the end of the text, or a comment that does not end.
pub fn is_end_kind(kind: Kind) -> bool
    ensures { (bytes : List ℕ) → result ≡ is_end (sign_of kind bytes) }
{
    match kind {
        Kind::OpenComment => true,
        Kind::End => true,
        _ => false,
    }
}

/// The fault of a second module of a name.
fn module_twice(alloc: Global, line: u32, name: &[u8]) -> VerilogFault
    ensures { (result ≡ VerilogFault.NoMemory) ⊎ (result ≡ VerilogFault.ModuleTwice line name.now) }
{
    match Text::from_bytes(alloc, name) {
        Ok(name) => VerilogFault::ModuleTwice { line, name },
        Err(_) => VerilogFault::NoMemory,
    }
}

/// Whether a token is the name of a module that begins.
pub fn is_module_name(position: Position, kind: Kind) -> bool
    ensures { (w : Work) (bytes : List ℕ) → result ≡ is_some (module_name (place position w) (sign_of kind bytes)) }
{
    match position {
        Position::Header(Header::Word(_)) => match kind {
            Kind::Part(PartKind::Name) => true,
            _ => false,
        },
        _ => false,
    }
}

/// Refuses a second module of a name.
fn judge_module(alloc: Global, modules: &Names, line: u32, name: &[u8]) -> Result<(), VerilogFault>
    ensures { Judges VerilogFault.NoMemory result (twice_by modules.now line (Some name.now)) }
{
    if modules.contains(name) {
        return Err(module_twice(alloc, line, name));
    }
    Ok(())
}

/// Refuses the name of a module that begins, if there is one of it.
pub fn judge_name(
    alloc: Global,
    modules: &Names,
    position: Position,
    line: u32,
    kind: Kind,
    bytes: &[u8],
) -> Result<(), VerilogFault>
    ensures { (w : Work) → Judges VerilogFault.NoMemory result (twice_by modules.now line (module_name (place position w) (sign_of kind bytes.now))) }
{
    match position {
        Position::Header(Header::Word(_)) => match kind {
            Kind::Part(PartKind::Name) => judge_module(alloc, modules, line, bytes),
            _ => Ok(()),
        },
        _ => Ok(()),
    }
}

/// Whether a port has no direction, two, is listed twice or not listed.
fn is_bad(ports: &Gathering, directions: &Gathering, name: &[u8]) -> bool
    ensures { result ≡ is_bad_port (gathered ports.now) (gathered directions.now) name.now }
{
    !ports.once.contains(name)
        || ports.again.contains(name)
        || !directions.once.contains(name)
        || directions.again.contains(name)
}

/// The first of some names that is one.
fn first_bad(
    alloc: Global,
    ports: &Gathering,
    directions: &Gathering,
    names: &[Text],
) -> Result<Option<Text>, NoMemory>
    ensures { IfOk result (λ found. found ≡ find (is_bad_port (gathered ports.now) (gathered directions.now)) names.now) }
{
    let mut rest = names;
    'names: while let Some((name, behind)) = rest.split_first() {
        if is_bad(ports, directions, name.as_bytes()) {
            let copy = Text::from_bytes(alloc, name.as_bytes())?;
            return Ok(Some(copy));
        }
        rest = behind;
    }
    Ok(None)
}

/// The first bad one in a set of names.
fn first_bad_of(
    alloc: Global,
    ports: &Gathering,
    directions: &Gathering,
    names: &Names,
) -> Result<Option<Text>, NoMemory>
    ensures { IfOk result (λ found. found ≡ find (is_bad_port (gathered ports.now) (gathered directions.now)) names.now) }
{
    let texts = names.to_texts(alloc)?;
    let found = first_bad(alloc, ports, directions, texts.as_slice())?;
    Ok(found)
}

/// The first bad port of a module.
fn bad_name(
    alloc: Global,
    ports: &Gathering,
    directions: &Gathering,
) -> Result<Option<Text>, NoMemory>
    ensures { IfOk result (λ found. found ≡ bad_port (gathered ports.now) (gathered directions.now)) }
{
    let found = first_bad_of(alloc, ports, directions, &ports.once)?;
    match found {
        Some(name) => Ok(Some(name)),
        None => first_bad_of(alloc, ports, directions, &directions.once),
    }
}

/// Refuses the end of a module with a bad port.
fn judge_module_end(
    alloc: Global,
    ports: &Gathering,
    directions: &Gathering,
    line: u32,
) -> Result<(), VerilogFault>
    ensures { Judges VerilogFault.NoMemory result (port_fault (gathered ports.now) (gathered directions.now) line true) }
{
    match bad_name(alloc, ports, directions) {
        Ok(Some(name)) => Err(VerilogFault::PortForm { line, name }),
        Ok(None) => Ok(()),
        Err(_) => Err(VerilogFault::NoMemory),
    }
}

/// Refuses a token that ends a module with a bad port.
pub fn judge_ports(
    alloc: Global,
    ports: &Gathering,
    directions: &Gathering,
    position: Position,
    line: u32,
    kind: Kind,
) -> Result<(), VerilogFault>
    ensures { (w : Work) (bytes : List ℕ) → Judges VerilogFault.NoMemory result (port_fault (gathered ports.now) (gathered directions.now) line (ends_module (place position w) (sign_of kind bytes))) }
{
    match position {
        Position::Body => match kind {
            Kind::EndModule => judge_module_end(alloc, ports, directions, line),
            _ => Ok(()),
        },
        _ => Ok(()),
    }
}

/// The line of the module that is open, if one is.
fn open_on(position: Position, line: u32) -> Option<u32>
    ensures { (w : Work) → result ≡ open_line line (place position w) }
{
    match position {
        Position::Outside => None,
        Position::Header(Header::Word(begun)) => Some(begun),
        _ => Some(line),
    }
}

/// Refuses the end of a text in a module, or in a comment.
pub fn judge_end(
    position: Position,
    module_line: u32,
    line: u32,
    kind: Kind,
) -> Result<(), VerilogFault>
    ensures { (w : Work) (bytes : List ℕ) → Judges VerilogFault.NoMemory result (unfinished (open_line module_line (place position w)) line (sign_of kind bytes)) }
{
    match kind {
        Kind::End => match open_on(position, module_line) {
            Some(line) => Err(VerilogFault::Unfinished { line }),
            None => Ok(()),
        },
        Kind::OpenComment => match open_on(position, module_line) {
            Some(line) => Err(VerilogFault::Unfinished { line }),
            None => Err(VerilogFault::Unfinished { line }),
        },
        _ => Ok(()),
    }
}

/// Whether a gate becomes one cover, of which the inputs are limited.
fn is_one_cover(gate: GateKind) -> bool
    ensures { result ≡ is_limited gate }
{
    match gate {
        GateKind::And => true,
        GateKind::Nand => true,
        GateKind::Or => true,
        GateKind::Nor => true,
        _ => false,
    }
}

/// Whether a gate has as many inputs as it may, and another is to come.
pub fn is_full_gate(position: Position, work: &Work) -> bool
    ensures { result ≡ is_full (place position work.now) }
{
    match position {
        Position::Gate(Gate::TerminalWanted(_, gate)) => {
            is_one_cover(gate) && work.inputs.len() >= 1000
        }
        _ => false,
    }
}
