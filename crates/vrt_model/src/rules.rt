//! What a rules file says.

ghost use Rattle.std.specs.Prelude.{◌≡◌};
ghost use Rattle.vrt_model.specs.Levels.{source_of, usual_level};

use crate::levels::{FINE_SCALE, source_by, usual_at};
use crate::{Kind, Seq, Text};

/// A clock, and whether it is carried inverted.
#[derive(Clone, Copy, Debug, PartialEq, Eq)]
pub struct ClockRef {
    /// The number of the clock, from 0, a place in `Rules.clocks`.
    pub clock: u32,
    /// Whether the bit is the inverse of the clock's, by a `!` before the name.
    pub inverted: bool,
}

/// A phase gives each clock a bit.
pub struct Phase {
    /// The line of the `phase` line, from 1; 0 for the phase `all`, which stands where there is no such line.
    pub line: u32,
    /// The name of the phase, in lower case, as verdict lines print it.
    pub name: Text,
    /// The bit of each clock in this phase, in the order of `Rules.clocks`.
    pub bits: Seq<bool>,
}

/// By hand, so that letting go of one is a call.
impl Drop for Phase {
    fn drop(self) {
        let Phase {
            line: _line,
            name: _name,
            bits: _bits,
        } = self;
    }
}

/// An expression over the ports of a cell.
#[derive(Drop)]
pub enum Expr {
    /// The bit at a port of the cell, by its name in lower case.
    Port(Text),
    /// `!E`, which binds closest.
    Not(Box<Expr>),
    /// `E & F`, which binds closer than `^`.
    And(Box<Expr>, Box<Expr>),
    /// `E ^ F`, which binds closer than `|`: exactly one of the two.
    Xor(Box<Expr>, Box<Expr>),
    /// `E | F`.
    Or(Box<Expr>, Box<Expr>),
}

/// A name of a `supply` line: the nets of this name are a supply.
pub struct SupplyRule {
    /// The line of the `supply` line in the rules file, from 1.
    pub line: u32,
    /// The value of the supply, 1 for true.
    pub value: bool,
    /// The name that is this supply in every cell, in lower case.
    pub net: Text,
}

/// By hand, so that letting go of one is a call.
impl Drop for SupplyRule {
    fn drop(self) {
        let SupplyRule {
            line: _line,
            value: _value,
            net: _net,
        } = self;
    }
}

/// A `device` line: the kind and the level of the transistors of a device model.
pub struct DeviceRule {
    /// The line of the `device` line in the rules file, from 1.
    pub line: u32,
    /// The name of the device model, in lower case.
    pub model: Text,
    /// Of which kind the transistors of the model are, whatever its `.model` card says.
    pub kind: Kind,
    /// The level of the transistors of the model, one of devices, and the usual one where the line has none.
    pub level: u8,
}

/// By hand, so that letting go of one is a call.
impl Drop for DeviceRule {
    fn drop(self) {
        let DeviceRule {
            line: _line,
            model: _model,
            kind: _kind,
            level: _level,
        } = self;
    }
}

/// A `strength` line: the level of one transistor.
pub struct StrengthRule {
    /// The line of the `strength` line in the rules file, from 1.
    pub line: u32,
    /// The name of the cell that the rule is of, in lower case.
    pub cell: Text,
    /// The name of the transistor in the cell, in lower case.
    pub device: Text,
    /// The level of that transistor, one of devices, which goes before that of its model.
    pub level: u8,
}

/// By hand, so that letting go of one is a call.
impl Drop for StrengthRule {
    fn drop(self) {
        let StrengthRule {
            line: _line,
            cell: _cell,
            device: _device,
            level: _level,
        } = self;
    }
}

/// A `clockport` line: a port that carries a clock.
pub struct ClockportRule {
    /// The line of the `clockport` line in the rules file, from 1.
    pub line: u32,
    /// The name of the cell that the rule is of, in lower case.
    pub cell: Text,
    /// The name of the port that carries a clock, in lower case.
    pub port: Text,
    /// The clock that the port carries, or its inverse.
    pub clock: ClockRef,
}

/// By hand, so that letting go of one is a call.
impl Drop for ClockportRule {
    fn drop(self) {
        let ClockportRule {
            line: _line,
            cell: _cell,
            port: _port,
            clock: _clock,
        } = self;
    }
}

/// The `defaultclock` line.
#[derive(Clone, Copy, Debug, PartialEq, Eq)]
pub struct DefaultclockRule {
    /// The line of the `defaultclock` line in the rules file, from 1.
    pub line: u32,
    /// The number of the clock of all latches without a control, from 0, a place in `Rules.clocks`.
    pub clock: u32,
}

/// The model is none for `-`.
pub struct PairRule {
    /// The line of the `pair` line in the rules file, from 1.
    pub line: u32,
    /// The name of the cell that the rule is of, in lower case.
    pub cell: Text,
    /// The name of the BLIF model as written; none says that the cell has no model on purpose.
    pub model: Option<Text>,
}

/// By hand, so that letting go of one is a call.
impl Drop for PairRule {
    fn drop(self) {
        let PairRule {
            line: _line,
            cell: _cell,
            model: _model,
        } = self;
    }
}

/// A `port` line: the signal with which a port pairs.
pub struct PortRule {
    /// The line of the `port` line in the rules file, from 1.
    pub line: u32,
    /// The name of the cell that the rule is of, in lower case.
    pub cell: Text,
    /// The name of the port, in lower case.
    pub port: Text,
    /// The name of the signal with which it pairs, as written.
    pub signal: Text,
}

/// By hand, so that letting go of one is a call.
impl Drop for PortRule {
    fn drop(self) {
        let PortRule {
            line: _line,
            cell: _cell,
            port: _port,
            signal: _signal,
        } = self;
    }
}

/// A `hold` line: a net that stores charge.
pub struct HoldRule {
    /// The line of the `hold` line in the rules file, from 1.
    pub line: u32,
    /// The name of the cell that the rule is of, in lower case.
    pub cell: Text,
    /// The name of the net that keeps its charge, in lower case.
    pub net: Text,
    /// The size of the charge, below the levels of devices, and 1 where the line has none.
    pub size: u8,
}

/// By hand, so that letting go of one is a call.
impl Drop for HoldRule {
    fn drop(self) {
        let HoldRule {
            line: _line,
            cell: _cell,
            net: _net,
            size: _size,
        } = self;
    }
}

/// A transistor of a `keeper` line.
pub struct KeeperRule {
    /// The line of the `keeper` line in the rules file, from 1.
    pub line: u32,
    /// The name of the cell that the rule is of, in lower case.
    pub cell: Text,
    /// The name of the transistor that only keeps what is there, in lower case.
    pub device: Text,
}

/// By hand, so that letting go of one is a call.
impl Drop for KeeperRule {
    fn drop(self) {
        let KeeperRule {
            line: _line,
            cell: _cell,
            device: _device,
        } = self;
    }
}

/// A `match` line of a net: the latch element whose bit the net stores.
pub struct MatchRule {
    /// The line of the `match` line in the rules file, from 1.
    pub line: u32,
    /// The name of the cell that the rule is of, in lower case.
    pub cell: Text,
    /// The name of the net that stores the bit, in lower case.
    pub net: Text,
    /// The name of the latch element in the cell's model, as written: `q`, or `q#m` for a master.
    pub latch: Text,
    /// Whether the net has the inverse of the element's bit, by a `!` before the name.
    pub inverted: bool,
}

/// By hand, so that letting go of one is a call.
impl Drop for MatchRule {
    fn drop(self) {
        let MatchRule {
            line: _line,
            cell: _cell,
            net: _net,
            latch: _latch,
            inverted: _inverted,
        } = self;
    }
}

/// A `match` line of an instance: two latch elements that store the same, one of them in the instance.
pub struct InstanceMatchRule {
    /// The line of the `match` line in the rules file, from 1.
    pub line: u32,
    /// The name of the cell that the rule is of, in lower case.
    pub cell: Text,
    /// The name of the instance in that cell, in lower case.
    pub instance: Text,
    /// The name of the latch element in the model of the instance's cell, as written.
    pub inner: Text,
    /// The name of the latch element in the model of `cell`, as written.
    pub latch: Text,
    /// Whether the two have inverse bits, by a `!` before the second name.
    pub inverted: bool,
}

/// By hand, so that letting go of one is a call.
impl Drop for InstanceMatchRule {
    fn drop(self) {
        let InstanceMatchRule {
            line: _line,
            cell: _cell,
            instance: _instance,
            inner: _inner,
            latch: _latch,
            inverted: _inverted,
        } = self;
    }
}

/// An `enter` line: the bit with which a net enters a phase.
pub struct EnterRule {
    /// The line of the `enter` line in the rules file, from 1.
    pub line: u32,
    /// The name of the cell that the rule is of, in lower case.
    pub cell: Text,
    /// The number of the phase that begins so, from 0, a place in `Rules.phases`.
    pub phase: u32,
    /// The name of the net that keeps its charge, in lower case.
    pub net: Text,
    /// The bit of that charge as the phase begins.
    pub value: bool,
}

/// By hand, so that letting go of one is a call.
impl Drop for EnterRule {
    fn drop(self) {
        let EnterRule {
            line: _line,
            cell: _cell,
            phase: _phase,
            net: _net,
            value: _value,
        } = self;
    }
}

/// An `observe` line: the phases in which an output is compared.
pub struct ObserveRule {
    /// The line of the `observe` line in the rules file, from 1.
    pub line: u32,
    /// The name of the cell that the rule is of, in lower case.
    pub cell: Text,
    /// The name of the output port, in lower case.
    pub port: Text,
    /// The numbers of the phases in which it is compared, from 0, places in `Rules.phases`.
    pub phases: Seq<u32>,
}

/// By hand, so that letting go of one is a call.
impl Drop for ObserveRule {
    fn drop(self) {
        let ObserveRule {
            line: _line,
            cell: _cell,
            port: _port,
            phases: _phases,
        } = self;
    }
}

/// The phase is none for `*`.
pub struct AssumeRule {
    /// The line of the `assume` line in the rules file, from 1.
    pub line: u32,
    /// The name of the cell that the rule is of, in lower case.
    pub cell: Text,
    /// The number of the phase in which the expression holds, from 0; none for all phases.
    pub phase: Option<u32>,
    /// What holds of the inputs of the cell: only valuations at which it is 1 are checked.
    pub expression: Expr,
}

/// By hand, so that letting go of one is a call.
impl Drop for AssumeRule {
    fn drop(self) {
        let AssumeRule {
            line: _line,
            cell: _cell,
            phase: _phase,
            expression: _expression,
        } = self;
    }
}

/// The rules by their first words, each list in the order of the lines.
pub struct Rules {
    /// The names of the clocks, in lower case, at most 16, each once. Their places are their numbers.
    pub clocks: Seq<Text>,
    /// The phases, from 1 to 16, in the order in which they follow each other; after the last comes the first.
    pub phases: Seq<Phase>,
    /// Which names are supplies in every cell.
    pub supplies: Seq<SupplyRule>,
    /// The kinds and levels of device models.
    pub devices: Seq<DeviceRule>,
    /// The levels of single transistors.
    pub strengths: Seq<StrengthRule>,
    /// Which ports carry clocks.
    pub clockports: Seq<ClockportRule>,
    /// The clock of latches without a control, at most one.
    pub defaultclocks: Seq<DefaultclockRule>,
    /// Which cells have a model of another name, or none on purpose.
    pub pairs: Seq<PairRule>,
    /// Which ports pair with a signal of another name.
    pub ports: Seq<PortRule>,
    /// Which nets keep their charge, and with what size.
    pub holds: Seq<HoldRule>,
    /// Which transistors only keep what is there.
    pub keepers: Seq<KeeperRule>,
    /// Which nets store the bit of a latch element.
    pub matches: Seq<MatchRule>,
    /// Which latch elements of instances are which of the cell around.
    pub instance_matches: Seq<InstanceMatchRule>,
    /// Which charges are constant as a phase begins.
    pub enters: Seq<EnterRule>,
    /// Which outputs are compared in some phases only; an output without a rule is compared in all.
    pub observes: Seq<ObserveRule>,
    /// What holds of the inputs of cells.
    pub assumes: Seq<AssumeRule>,
    /// The scale of levels: the usual one, or the fine one.
    pub scale: u8,
}

/// By hand, so that letting go of one is a call.
impl Drop for Rules {
    fn drop(self) {
        let Rules {
            clocks: _clocks,
            phases: _phases,
            supplies: _supplies,
            devices: _devices,
            strengths: _strengths,
            clockports: _clockports,
            defaultclocks: _defaultclocks,
            pairs: _pairs,
            ports: _ports,
            holds: _holds,
            keepers: _keepers,
            matches: _matches,
            instance_matches: _instance_matches,
            enters: _enters,
            observes: _observes,
            assumes: _assumes,
            scale: _scale,
        } = self;
    }
}

impl Rules {
    /// The level of supplies, inputs and clock ports.
    pub fn source_level(&self) -> u8
        ensures { result ≡ source_of self.now }
    {
        source_by(self.scale == FINE_SCALE)
    }

    /// The level of a device for which no rule has one.
    pub fn usual_level(&self) -> u8
        ensures { result ≡ usual_level self.now }
    {
        usual_at(self.scale)
    }
}
