//! Steps that keep nothing of a statement.

ghost use Rattle.std.specs.Prelude.{◌≡◌, ℕ, List};
ghost use Rattle.verilog_source.specs.Places.{name_read, port_read, from_name_read, from_name_wanted, from_direction_word, from_module_name, from_module_word, from_outside, from_port_direction, from_port_read, from_port_wanted, from_port_wire, from_ports_read, step};
ghost use Rattle.verilog_source.specs.Positions.{header_place, names_place, step_seen};
ghost use Rattle.verilog_source.specs.declared.position.Work.{Work};
ghost use Rattle.verilog_tokens.specs.Signs.{sign_of};

use crate::position::{Direction, Header, Listing, Next, Position, Told};
use verilog_tokens::{Kind, PartKind};

/// From between modules.
pub fn from_outside(line: u32, kind: Kind, bytes: &[u8]) -> Option<Next>
    ensures { (w : Work) → step_seen result bytes.now w ≡ from_outside line (sign_of kind bytes.now) }
{
    match kind {
        Kind::Module => Some(Next::to(Position::Header(Header::Word(line)))),
        _ => None,
    }
}

/// A port was read, with its direction.
fn port_read(line: u32, direction: Option<Direction>) -> Option<Next>
    ensures { (bytes : List ℕ) (w : Work) → step_seen result bytes w ≡ port_read line direction bytes }
{
    Some(Next {
        position: Position::Header(Header::PortRead(line, direction)),
        told: Told::Port(line, direction),
    })
}

/// From before a port.
fn from_port_wanted(
    line: u32,
    direction: Option<Direction>,
    kind: Kind,
    bytes: &[u8],
) -> Option<Next>
    ensures { (w : Work) → step_seen result bytes.now w ≡ from_port_wanted line direction (sign_of kind bytes.now) }
{
    match kind {
        Kind::Part(PartKind::Name) => port_read(line, direction),
        Kind::Input => Some(Next::to(Position::Header(Header::PortDirection(
            line,
            Direction::Inputs,
        )))),
        Kind::Output => Some(Next::to(Position::Header(Header::PortDirection(
            line,
            Direction::Outputs,
        )))),
        _ => None,
    }
}

/// From behind the direction of a port.
fn from_port_direction(line: u32, direction: Direction, kind: Kind, bytes: &[u8]) -> Option<Next>
    ensures { (w : Work) → step_seen result bytes.now w ≡ from_port_direction line direction (sign_of kind bytes.now) }
{
    match kind {
        Kind::Part(PartKind::Name) => port_read(line, Some(direction)),
        Kind::Wire => Some(Next::to(Position::Header(Header::PortWire(line, direction)))),
        _ => None,
    }
}

/// From behind the name of a module.
fn from_module_name(line: u32, kind: Kind, bytes: &[u8]) -> Option<Next>
    ensures { (w : Work) → step_seen result bytes.now w ≡ from_module_name line (sign_of kind bytes.now) }
{
    match kind {
        Kind::Semicolon => Some(Next::to(Position::Body)),
        Kind::Part(PartKind::Opening) => {
            Some(Next::to(Position::Header(Header::PortWanted(line, None))))
        }
        _ => None,
    }
}

/// From behind a port.
fn from_port_read(line: u32, direction: Option<Direction>, kind: Kind, bytes: &[u8]) -> Option<Next>
    ensures { (w : Work) → step_seen result bytes.now w ≡ from_port_read line direction (sign_of kind bytes.now) }
{
    match kind {
        Kind::Comma => Some(Next::to(Position::Header(Header::PortWanted(line, direction)))),
        Kind::Part(PartKind::Closing) => Some(Next::to(Position::Header(Header::Ends))),
        _ => None,
    }
}

/// From behind `module`.
fn from_module_word(line: u32, kind: Kind, bytes: &[u8]) -> Option<Next>
    ensures { (w : Work) → step_seen result bytes.now w ≡ from_module_word line (sign_of kind bytes.now) }
{
    match kind {
        Kind::Part(PartKind::Name) => Some(Next {
            position: Position::Header(Header::Name(line)),
            told: Told::Begins(line),
        }),
        _ => None,
    }
}

/// From behind the direction of a port and `wire`.
fn from_port_wire(line: u32, direction: Direction, kind: Kind, bytes: &[u8]) -> Option<Next>
    ensures { (w : Work) → step_seen result bytes.now w ≡ from_port_wire line direction (sign_of kind bytes.now) }
{
    match kind {
        Kind::Part(PartKind::Name) => port_read(line, Some(direction)),
        _ => None,
    }
}

/// From behind the list of ports.
fn from_ports_read(kind: Kind, bytes: &[u8]) -> Option<Next>
    ensures { (w : Work) → step_seen result bytes.now w ≡ from_ports_read (sign_of kind bytes.now) }
{
    match kind {
        Kind::Semicolon => Some(Next::to(Position::Body)),
        _ => None,
    }
}

/// From a place in the list of ports.
pub fn from_header(header: Header, kind: Kind, bytes: &[u8]) -> Option<Next>
    ensures { (line : ℕ) (w : Work) → step_seen result bytes.now w ≡ step (header_place header) line (sign_of kind bytes.now) }
{
    match header {
        Header::Word(line) => from_module_word(line, kind, bytes),
        Header::Name(line) => from_module_name(line, kind, bytes),
        Header::PortWanted(line, direction) => from_port_wanted(line, direction, kind, bytes),
        Header::PortDirection(line, direction) => from_port_direction(line, direction, kind, bytes),
        Header::PortWire(line, direction) => from_port_wire(line, direction, kind, bytes),
        Header::PortRead(line, direction) => from_port_read(line, direction, kind, bytes),
        Header::Ends => from_ports_read(kind, bytes),
    }
}

/// A name was read in a list of names.
fn name_read(line: u32, direction: Option<Direction>) -> Option<Next>
    ensures { (bytes : List ℕ) (w : Work) → step_seen result bytes w ≡ name_read line direction bytes }
{
    Some(Next {
        position: Position::Names(Listing::Read(line, direction)),
        told: Told::Named(line, direction),
    })
}

/// From a place in a list of names.
pub fn from_names(listing: Listing, kind: Kind, bytes: &[u8]) -> Option<Next>
    ensures { (line : ℕ) (w : Work) → step_seen result bytes.now w ≡ step (names_place listing) line (sign_of kind bytes.now) }
{
    match listing {
        Listing::Word(line, direction) => from_word(line, direction, kind, bytes),
        Listing::Wanted(line, direction) => from_wanted(line, direction, kind, bytes),
        Listing::Read(line, direction) => from_read(line, direction, kind, bytes),
    }
}

/// From behind a direction.
fn from_word(line: u32, direction: Direction, kind: Kind, bytes: &[u8]) -> Option<Next>
    ensures { (w : Work) → step_seen result bytes.now w ≡ from_direction_word line direction (sign_of kind bytes.now) }
{
    match kind {
        Kind::Wire => Some(Next::to(Position::Names(Listing::Wanted(line, Some(direction))))),
        Kind::Part(PartKind::Name) => name_read(line, Some(direction)),
        _ => None,
    }
}

/// From before a name.
fn from_wanted(line: u32, direction: Option<Direction>, kind: Kind, bytes: &[u8]) -> Option<Next>
    ensures { (w : Work) → step_seen result bytes.now w ≡ from_name_wanted line direction (sign_of kind bytes.now) }
{
    match kind {
        Kind::Part(PartKind::Name) => name_read(line, direction),
        _ => None,
    }
}

/// From behind a name.
fn from_read(line: u32, direction: Option<Direction>, kind: Kind, bytes: &[u8]) -> Option<Next>
    ensures { (w : Work) → step_seen result bytes.now w ≡ from_name_read line direction (sign_of kind bytes.now) }
{
    match kind {
        Kind::Comma => Some(Next::to(Position::Names(Listing::Wanted(line, direction)))),
        Kind::Semicolon => Some(Next::to(Position::Body)),
        _ => None,
    }
}
