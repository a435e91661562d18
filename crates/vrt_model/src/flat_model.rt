//! A BLIF model with its sub-models unrolled.

use crate::{LatchKind, Seq, Text};

/// Signals by number, and what drives them.
pub struct FlatModel {
    /// The name of each signal by its number; in a sub-model with its place, as `0/n` in the first.
    pub signals: Seq<Text>,
    /// The numbers of the input signals, in the order of the `.inputs` cards.
    pub inputs: Seq<u32>,
    /// The numbers of the clock signals that are no inputs, in the order of the `.clock` cards.
    pub clocks: Seq<u32>,
    /// The numbers of the output signals, in the order of the `.outputs` cards.
    pub outputs: Seq<u32>,
    /// The functions of signals: those of the model itself, then those of each sub-model in turn.
    pub covers: Seq<Cover>,
    /// The latches, in the same order of models.
    pub latches: Seq<FlatLatch>,
    /// Which outputs have a don't-care bit, at most one for each, in the order of the `.outputs` cards.
    pub dontcares: Seq<DontCare>,
}

/// By hand, so that letting go of one is a call.
impl Drop for FlatModel {
    fn drop(self) {
        let FlatModel {
            signals: _signals,
            inputs: _inputs,
            clocks: _clocks,
            outputs: _outputs,
            covers: _covers,
            latches: _latches,
            dontcares: _dontcares,
        } = self;
    }
}

/// A cover. Each row has one byte `0`, `1` or `-` for each input.
pub struct Cover {
    /// The numbers of the signals that the function reads, in the order of the bytes of a row.
    pub inputs: Seq<u32>,
    /// The number of the signal to which the function gives its bit.
    pub output: u32,
    /// Whether the output is 1 where some row fits, and not 1 where none fits.
    pub on: bool,
    /// The rows, which fit where each `0` and `1` is the bit of its input. Without rows the output is 0.
    pub rows: Seq<Text>,
}

/// By hand, so that letting go of one is a call.
impl Drop for Cover {
    fn drop(self) {
        let Cover {
            inputs: _inputs,
            output: _output,
            on: _on,
            rows: _rows,
        } = self;
    }
}

/// A latch. Without a control it has the default clock.
#[derive(Clone, Copy, Debug, PartialEq, Eq)]
pub struct FlatLatch {
    /// The number of the signal that the latch takes in.
    pub input: u32,
    /// The number of the signal that has the bit of the last storage element.
    pub output: u32,
    /// When the latch takes its input. A latch without TYPE is `Re`, which is this project's choice.
    pub kind: LatchKind,
    /// The number of the signal that clocks the latch; none for the default clock.
    pub control: Option<u32>,
}

/// An output whose value does not matter where a bit is 1.
#[derive(Clone, Copy, Debug, PartialEq, Eq)]
pub struct DontCare {
    /// The number of the output signal.
    pub output: u32,
    /// The number of the signal that is its don't-care bit.
    pub bit: u32,
}
