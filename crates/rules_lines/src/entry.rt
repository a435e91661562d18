//! What a line says.

ghost use Rattle.std.specs.Prelude.{◌≡◌};
ghost use Rattle.rules_lines.specs.Words.{at_scale};

use rules_expression::Tokens;
use text_lines::WordList;
use vrt_model::{FINE_SCALE, Kind, Seq, Text};

/// A name with or without `!`.
pub struct Signed {
    /// The name behind the `!`, if there is one.
    pub name: Text,
    /// Whether a `!` stands before it.
    pub is_inverted: bool,
}

/// By hand, so that letting go of one is a call.
impl Drop for Signed {
    fn drop(self) {
        let Signed {
            name: _name,
            is_inverted: _is_inverted,
        } = self;
    }
}

/// A level or a size as it reads at each scale, none where it is not a number of that scale's form and range.
#[derive(Clone, Copy)]
pub struct ByScale {
    /// What it is at scale 8.
    pub eight: Option<u8>,
    /// What it is at scale 16.
    pub sixteen: Option<u8>,
}

impl ByScale {
    /// What it is at a scale.
    pub fn at(&self, scale: u8) -> Option<u8>
        ensures { result ≡ at_scale scale self.now }
    {
        if scale == FINE_SCALE {
            self.sixteen
        } else {
            self.eight
        }
    }
}

/// A clock and its bit, none where the bit is neither 0 nor 1.
pub struct ClockBit {
    /// The name of the clock.
    pub clock: Text,
    /// Its bit in the phase.
    pub bit: Option<bool>,
}

/// By hand, so that letting go of one is a call.
impl Drop for ClockBit {
    fn drop(self) {
        let ClockBit {
            clock: _clock,
            bit: _bit,
        } = self;
    }
}

/// What a line says. A bit is none where it is neither 0 nor 1. The model of a `pair` line, signals and latches are as
/// written, other names lowered.
#[derive(Drop)]
pub enum Entry {
    /// `scale SCALE`
    ScaleLine {
        scale: u8,
    },
    /// `supply VALUE NET..`
    SupplyLine {
        value: bool,
        nets: WordList,
    },
    /// `device MODEL KIND [LEVEL]`
    DeviceLine {
        model: Text,
        kind: Kind,
        level: ByScale,
    },
    /// `strength CELL DEVICE LEVEL`
    StrengthLine {
        cell: Text,
        device: Text,
        level: ByScale,
    },
    /// `clock NAME..`
    ClockLine {
        names: WordList,
    },
    /// `phase NAME CLOCK=BIT..`
    PhaseLine {
        name: Text,
        bits: Seq<ClockBit>,
    },
    /// `clockport CELL PORT [!]CLOCK`
    ClockportLine {
        cell: Text,
        port: Text,
        clock: Signed,
    },
    /// `defaultclock CLOCK`
    DefaultclockLine {
        clock: Text,
    },
    /// `pair CELL MODEL`, or `pair CELL -`
    PairLine {
        cell: Text,
        model: Option<Text>,
    },
    /// `port CELL PORT SIGNAL`
    PortLine {
        cell: Text,
        port: Text,
        signal: Text,
    },
    /// `hold CELL NET [SIZE]`
    HoldLine {
        cell: Text,
        net: Text,
        size: ByScale,
    },
    /// `keeper CELL DEVICE..`
    KeeperLine {
        cell: Text,
        devices: WordList,
    },
    /// `match CELL NET [!]LATCH`
    MatchLine {
        cell: Text,
        net: Text,
        latch: Signed,
    },
    /// `match CELL INSTANCE:LATCH [!]LATCH`
    InstanceMatchLine {
        cell: Text,
        instance: Text,
        inner: Text,
        latch: Signed,
    },
    /// `enter CELL PHASE NET BIT`
    EnterLine {
        cell: Text,
        phase: Text,
        net: Text,
        bit: Option<bool>,
    },
    /// `observe CELL PORT PHASE..`
    ObserveLine {
        cell: Text,
        port: Text,
        phases: WordList,
    },
    /// `assume CELL PHASE EXPRESSION`
    AssumeLine {
        cell: Text,
        phase: Option<Text>,
        tokens: Tokens,
    },
}
