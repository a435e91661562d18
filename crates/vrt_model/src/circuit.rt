//! A flat circuit.

ghost use Rattle.std.specs.Prelude.{◌≡◌};
ghost use Rattle.vrt_model.specs.Levels.{least_level, source_level};

use crate::levels::{MOST_SOURCE, least_by, source_by};
use crate::{ClockRef, Kind, Net, Seq, Text, Whole};

/// What gives a net its value.
#[derive(Clone, Copy, Debug, PartialEq, Eq)]
pub enum NetKind {
    /// A supply of this value, 1 for true: a root of the source level in every phase.
    Supply(bool),
    /// The net of a port with a `clockport` rule: a root of the source level with the bit of what it carries in the phase.
    Clock(ClockRef),
    /// The net of an input port: a root of the source level, whose bit is a variable in each phase.
    Input,
    /// Every other net, those of outputs among them: its value comes by paths.
    Plain,
}

/// A net of a flat circuit.
pub struct FlatNet {
    /// The name of the net, in an instance with its path, as `x1/n3`; of a supply by its first rule, else its digit.
    pub name: Text,
    /// Whether the net has a given value, and which, or is plain.
    pub kind: NetKind,
}

/// By hand, so that letting go of one is a call.
impl Drop for FlatNet {
    fn drop(self) {
        let FlatNet {
            name: _name,
            kind: _kind,
        } = self;
    }
}

/// A transistor. Its channel joins `left` and `right`.
pub struct Device {
    /// The name of the transistor, in an instance with its path, as `x1/m3`.
    pub name: Text,
    /// Whether it conducts at gate 1 or at gate 0.
    pub kind: Kind,
    /// The net whose bit says whether the channel conducts.
    pub gate: Net,
    /// The net of the drain. A channel has no direction, so the two ends may be exchanged.
    pub left: Net,
    /// The net of the source.
    pub right: Net,
    /// Behind it a signal has at most this level, one of devices (Bryant 1984): by `strength`, else by `device`, else the
    /// usual one.
    pub level: u8,
    /// Whether a `keeper` line names it: the bare circuit, which is solved first, leaves it out.
    pub keeper: bool,
}

/// By hand, so that letting go of one is a call.
impl Drop for Device {
    fn drop(self) {
        let Device {
            name: _name,
            kind: _kind,
            gate: _gate,
            left: _left,
            right: _right,
            level: _level,
            keeper: _keeper,
        } = self;
    }
}

/// In this phase the hold has this value.
#[derive(Clone, Copy, Debug, PartialEq, Eq)]
pub struct Enter {
    /// The number of the phase that begins so, from 0, a place in the phases of the rules.
    pub phase: u32,
    /// The bit that the hold has as this phase begins.
    pub value: bool,
}

/// Where the `match` lines of a hold lead to: to no latch, so that the hold stands for itself, or to a latch element
/// of an instance, by its place in the circuit's list, or of the checked cell.
#[derive(Drop)]
pub enum HoldEnd {
    /// No `match` line leads on: the hold's own net.
    Own(Net),
    /// The `match` lines lead to a latch element, by its name: that of the latch's output, with `#m` for a master. It
    /// is of the instance at this place in `Circuit.instances`, or of the checked cell where there is none.
    Latch {
        instance: Option<u32>,
        element: Text,
    },
}

/// A net that keeps its charge.
pub struct Hold {
    /// The net that keeps its charge. No other hold has it.
    pub net: Net,
    /// The level of its charge, below those of devices (the size of a node, Bryant 1984): where charges meet, the greatest
    /// counts.
    pub size: u8,
    /// For what the hold stands. Holds with the same end share one bit.
    pub end: HoldEnd,
    /// Whether the hold has the inverse of the bit at its end, by the `!` on the `match` lines.
    pub inverted: bool,
    /// The values of its `enter` lines, at most one for each phase.
    pub enters: Seq<Enter>,
}

/// By hand, so that letting go of one is a call.
impl Drop for Hold {
    fn drop(self) {
        let Hold {
            net: _net,
            size: _size,
            end: _end,
            inverted: _inverted,
            enters: _enters,
        } = self;
    }
}

/// An instance of a cell, and the net of each of its ports.
pub struct FlatInstance {
    /// Where the instance stands, as `x1/x2` for `x2` in the instance `x1`.
    pub path: Text,
    /// The number of its cell, from 0, a place in `Design.cells`.
    pub cell: u32,
    /// The net of each port of that cell, in the order of the ports.
    pub ports: Seq<Net>,
}

/// By hand, so that letting go of one is a call.
impl Drop for FlatInstance {
    fn drop(self) {
        let FlatInstance {
            path: _path,
            cell: _cell,
            ports: _ports,
        } = self;
    }
}

/// A circuit. A flat circuit has no whole instances.
pub struct Circuit {
    /// The nets by their numbers: supply 0, supply 1, the other ports, the global nets, the other nets.
    pub nets: Seq<FlatNet>,
    /// The transistors by their numbers, keepers among them.
    pub devices: Seq<Device>,
    /// The nets that keep their charge, at most one hold for each net.
    pub holds: Seq<Hold>,
    /// The instances at all depths, but the checked cell itself and what is inside whole instances.
    pub instances: Seq<FlatInstance>,
    /// The instances left whole, whose models drive their outputs.
    pub wholes: Seq<Whole>,
    /// The level of supplies, inputs and clock ports, that of one of the two scales.
    pub source: u8,
}

/// By hand, so that letting go of one is a call.
impl Drop for Circuit {
    fn drop(self) {
        let Circuit {
            nets: _nets,
            devices: _devices,
            holds: _holds,
            instances: _instances,
            wholes: _wholes,
            source: _source,
        } = self;
    }
}

impl Circuit {
    /// The level of supplies, inputs and clock ports.
    pub fn source_level(&self) -> u8
        ensures { result ≡ source_level self.now }
    {
        source_by(self.source == MOST_SOURCE)
    }

    /// The least level of a device.
    pub fn least_level(&self) -> u8
        ensures { result ≡ least_level self.now }
    {
        least_by(self.source == MOST_SOURCE)
    }
}
