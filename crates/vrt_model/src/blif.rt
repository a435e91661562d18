//! What a BLIF file says.

use crate::{Seq, Text};

/// The models of a file, in its order.
pub struct Blif {
    /// The models in the order of their `.model` cards, at most 4,096; no two have one name.
    pub models: Seq<BlifModel>,
}

/// By hand, so that letting go of one is a call.
impl Drop for Blif {
    fn drop(self) {
        let Blif { models: _models } = self;
    }
}

/// A model. Each list of names has a list of the lines in which the names stand first.
pub struct BlifModel {
    /// The line of the `.model` card, from 1.
    pub line: u32,
    /// The name of the model as the `.model` card has it. Upper and lower case differ in all names of a BLIF file.
    pub name: Text,
    /// The signals of the `.inputs` cards in their order, each once.
    pub inputs: Seq<Text>,
    /// For each of `inputs` the line of the card that lists it first, from 1.
    pub input_lines: Seq<u32>,
    /// The signals of the `.clock` cards in their order, each once. One may stand in `inputs` too.
    pub clocks: Seq<Text>,
    /// For each of `clocks` the line of the card that lists it first, from 1.
    pub clock_lines: Seq<u32>,
    /// The signals of the `.outputs` cards in their order, each once.
    pub outputs: Seq<Text>,
    /// For each of `outputs` the line of the card that lists it first, from 1.
    pub output_lines: Seq<u32>,
    /// The functions that `.names` cards give signals, in the order of the cards.
    pub covers: Seq<CoverLine>,
    /// The storage elements, in the order of the `.latch` cards.
    pub latches: Seq<LatchLine>,
    /// The sub-models, in the order of the `.subckt` cards.
    pub subs: Seq<SubLine>,
    /// The covers of the don't-care network behind the `.exdc` card, in the order of the cards.
    pub exdc: Seq<CoverLine>,
}

/// By hand, so that letting go of one is a call.
impl Drop for BlifModel {
    fn drop(self) {
        let BlifModel {
            line: _line,
            name: _name,
            inputs: _inputs,
            input_lines: _input_lines,
            clocks: _clocks,
            clock_lines: _clock_lines,
            outputs: _outputs,
            output_lines: _output_lines,
            covers: _covers,
            latches: _latches,
            subs: _subs,
            exdc: _exdc,
        } = self;
    }
}

/// A `.names` card and its rows, all of the on-set or all of the off-set. A cover without rows has `on` set.
pub struct CoverLine {
    /// The line of the `.names` card, from 1.
    pub line: u32,
    /// The signals that the function reads, at most 1,000, in the order of the bytes of a row.
    pub inputs: Seq<Text>,
    /// The signal to which the function gives its bit.
    pub output: Text,
    /// Whether the rows are the on-set, where the output is 1, and not the off-set, where it is 0 (Berkeley BLIF).
    pub on: bool,
    /// The rows without their output: for each input a byte `0`, `1` or `-`, which fits both bits.
    pub rows: Seq<Text>,
}

/// By hand, so that letting go of one is a call.
impl Drop for CoverLine {
    fn drop(self) {
        let CoverLine {
            line: _line,
            inputs: _inputs,
            output: _output,
            on: _on,
            rows: _rows,
        } = self;
    }
}

/// A `.latch` card. A control `NIL` is read as none.
pub struct LatchLine {
    /// The line of the `.latch` card, from 1.
    pub line: u32,
    /// The signal that the latch takes in.
    pub input: Text,
    /// The signal that has the stored bit. The storage elements of the latch are named after it.
    pub output: Text,
    /// At which edge or level of the control it takes its input (Berkeley BLIF); none for a card without TYPE.
    pub kind: Option<LatchKind>,
    /// The signal that clocks the latch; none for `NIL` and for a card without CONTROL.
    pub control: Option<Text>,
    /// The initial value, 0 to 3 (Berkeley BLIF: 2 don't care, 3 unknown), and 3 where absent. Nothing reads it.
    pub init: u8,
}

/// By hand, so that letting go of one is a call.
impl Drop for LatchLine {
    fn drop(self) {
        let LatchLine {
            line: _line,
            input: _input,
            output: _output,
            kind: _kind,
            control: _control,
            init: _init,
        } = self;
    }
}

/// What a latch does at its control: rising edge, falling edge, active high, active low.
#[derive(Clone, Copy, Debug, PartialEq, Eq)]
pub enum LatchKind {
    /// `re`, rising edge: the master takes the input at control 0, the slave the master's bit at control 1.
    Re,
    /// `fe`, falling edge: the master takes the input at control 1, the slave the master's bit at control 0.
    Fe,
    /// `ah`, active high: one element, which takes the input at control 1 and keeps its bit at control 0.
    Ah,
    /// `al`, active low: one element, which takes the input at control 0 and keeps its bit at control 1.
    Al,
}

/// A `.subckt` card.
pub struct SubLine {
    /// The line of the `.subckt` card, from 1.
    pub line: u32,
    /// The name of the model that is used. It may stand behind the one that uses it.
    pub model: Text,
    /// Which signal of the model around each named signal of the sub-model is, in the order of the card.
    pub ties: Seq<Tie>,
}

/// By hand, so that letting go of one is a call.
impl Drop for SubLine {
    fn drop(self) {
        let SubLine {
            line: _line,
            model: _model,
            ties: _ties,
        } = self;
    }
}

/// A formal signal of the model below, and the signal that it is tied to.
pub struct Tie {
    /// The name of the signal in the sub-model, which must be an input, a clock or an output of it.
    pub formal: Text,
    /// The name of the signal in the model around.
    pub actual: Text,
}

/// By hand, so that letting go of one is a call.
impl Drop for Tie {
    fn drop(self) {
        let Tie {
            formal: _formal,
            actual: _actual,
        } = self;
    }
}
