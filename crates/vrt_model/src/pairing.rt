//! How the ports of a cell and the signals of its model belong together.

use crate::{ClockRef, Seq};

/// What a port of a cell is. The number is that of the signal.
#[derive(Clone, Copy, Debug, PartialEq, Eq)]
pub enum PortRole {
    /// A port named as a supply of this value, 1 for true. It pairs with no signal.
    Supply(bool),
    /// A port with a `clockport` rule, and what it carries.
    Clock(ClockRef),
    /// A port that pairs with a signal that is no output of the model.
    Input(u32),
    /// A port that pairs with an output of the model. Its net is compared with that signal.
    Output(u32),
}

/// A signal that carries a clock.
#[derive(Clone, Copy, Debug, PartialEq, Eq)]
pub struct ClockedSignal {
    /// The number of the signal, a place in `FlatModel.signals`.
    pub signal: u32,
    /// What the signal carries: the bit of a clock, or its inverse.
    pub clock: ClockRef,
}

/// The model of a cell, the role of each port, and the signals that carry clocks.
pub struct Pairing {
    /// The number of the model, from 0, a place in `Blif.models`.
    pub model: u32,
    /// The role of each port of the cell, in the order of the ports.
    pub ports: Seq<PortRole>,
    /// The signals of the model whose bits the phase gives, so that no valuation chooses them.
    pub clocked: Seq<ClockedSignal>,
}

/// By hand, so that letting go of one is a call.
impl Drop for Pairing {
    fn drop(self) {
        let Pairing {
            model: _model,
            ports: _ports,
            clocked: _clocked,
        } = self;
    }
}
