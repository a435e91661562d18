//! Where a text stands in the grammar.

ghost use Rattle.std.specs.Prelude.{◌≡◌};

use verilog_expression::{Expression, Progress};
use verilog_tokens::GateKind;
use vrt_model::{Seq, Text};

/// The direction of a port.
#[derive(Clone, Copy)]
pub enum Direction {
    /// `input`
    Inputs,
    /// `output`
    Outputs,
}

/// What a port of an instance is tied to.
#[derive(Drop)]
pub enum Actual {
    /// A net.
    Net(Text),
    /// `1'b0` or `1'b1`.
    Constant(bool),
}

/// A tie of an instance. A port may be tied to nothing.
pub struct PortTie {
    /// The port of the module below.
    pub port: Text,
    /// What it is tied to.
    pub actual: Option<Actual>,
}

/// By hand, so that letting go of one is a call.
impl Drop for PortTie {
    fn drop(self) {
        let PortTie {
            port: _port,
            actual: _actual,
        } = self;
    }
}

/// A place in the grammar, without what is read of a statement. Each number is the line of the statement.
#[derive(Clone, Copy)]
pub enum Position {
    /// Between modules.
    Outside,
    /// Between the statements of a module.
    Body,
    /// In the list of ports.
    Header(Header),
    /// In a list of names.
    Names(Listing),
    /// In an assign.
    Assign(Assign),
    /// In a gate.
    Gate(Gate),
    /// In an instance.
    Instance(Instance),
}

/// In the list of ports.
#[derive(Clone, Copy)]
pub enum Header {
    /// Behind `module`.
    Word(u32),
    /// Behind the name.
    Name(u32),
    /// Before a port, behind this direction.
    PortWanted(u32, Option<Direction>),
    /// Behind the direction of a port.
    PortDirection(u32, Direction),
    /// Behind that and `wire`.
    PortWire(u32, Direction),
    /// Behind a port of this direction.
    PortRead(u32, Option<Direction>),
    /// Behind the `)`.
    Ends,
}

/// In a list of names.
#[derive(Clone, Copy)]
pub enum Listing {
    /// Behind a direction.
    Word(u32, Direction),
    /// Before a name of this direction, none for a wire.
    Wanted(u32, Option<Direction>),
    /// Behind one.
    Read(u32, Option<Direction>),
}

/// In an assign.
#[derive(Clone, Copy)]
pub enum Assign {
    /// Before a name.
    Wanted(u32),
    /// Behind it.
    Read(u32),
    /// In its expression.
    Open(u32),
}

/// In a gate.
#[derive(Clone, Copy)]
pub enum Gate {
    /// Before a gate, with its name or without.
    Wanted(u32, GateKind),
    /// Behind its name.
    Named(u32, GateKind),
    /// Behind its `(`.
    OutputWanted(u32, GateKind),
    /// Behind its first output.
    OutputRead(u32, GateKind),
    /// Before a further terminal.
    TerminalWanted(u32, GateKind),
    /// In a terminal, which may be a plain name so far.
    TerminalOpen(u32, GateKind, bool),
    /// Behind the `)`.
    Read(u32, GateKind),
}

/// In an instance.
#[derive(Clone, Copy)]
pub enum Instance {
    /// Before an instance.
    Wanted(u32),
    /// Behind its name.
    Named(u32),
    /// Before a tie.
    TieWanted(u32),
    /// Behind its `.`.
    TieDot(u32),
    /// Behind the name of its port.
    TiePort(u32),
    /// Behind its `(`.
    TieOpen(u32),
    /// Behind the net or constant.
    ActualRead(u32),
    /// Behind a tie.
    TieRead(u32),
    /// Behind the `)`.
    Read(u32),
}

/// What is read of a statement.
pub struct Work {
    /// The module of an instance.
    pub module: Text,
    /// The name of an assign, the first output of a gate or a terminal that is a plain name, the port of a tie.
    pub name: Text,
    /// The outputs of a gate.
    pub outputs: Seq<Text>,
    /// The inputs of a gate, or the value of an assign.
    pub inputs: Seq<Expression>,
    /// The ties of an instance.
    pub ties: Seq<PortTie>,
    /// The net or constant of a tie.
    pub actual: Option<Actual>,
    /// The expression that is read.
    pub progress: Progress,
}

/// By hand, so that letting go of one is a call.
impl Drop for Work {
    fn drop(self) {
        let Work {
            module: _module,
            name: _name,
            outputs: _outputs,
            inputs: _inputs,
            ties: _ties,
            actual: _actual,
            progress: _progress,
        } = self;
    }
}

/// What a token tells. Names are its bytes, and the rest is what is read of the statement.
#[derive(Clone, Copy)]
pub enum Told {
    /// Nothing yet.
    Nothing,
    /// A module begins on a line.
    Begins(u32),
    /// A port is listed, with the direction before it.
    Port(u32, Option<Direction>),
    /// A name has a direction, none for a wire.
    Named(u32, Option<Direction>),
    /// A net has a value.
    Assigned(u32),
    /// A gate.
    Gate(u32, GateKind),
    /// An instance.
    Instance(u32),
    /// The module ends.
    Ends,
}

/// Where a text stands behind a token, and what the token tells.
#[derive(Clone, Copy)]
pub struct Next {
    /// The place behind the token.
    pub position: Position,
    /// What it tells.
    pub told: Told,
}

impl Next {
    /// A place, with nothing told.
    pub fn to(position: Position) -> Self
        ensures { result ≡ record { position = position; told = Told.Nothing } }
    {
        Next {
            position,
            told: Told::Nothing,
        }
    }
}
