//! An instance for which the model of its cell stands.

use crate::{ClockedSignal, FlatModel, Net, Seq, Text};

/// How strongly an output drives: at a level, or nothing is said.
#[derive(Clone, Copy, Debug, PartialEq, Eq)]
pub enum Drive {
    /// Nothing is said. A whole output that meets gates alone is soft, and its root has the source level.
    Soft,
    /// In its cell the net has this strength, a level of devices, at every valuation.
    Level(u8),
}

/// An input or output of a whole instance. An input has the drive `Soft`; `observed` says of it whether its port is
/// observed inside.
#[derive(Clone, Copy, Debug, PartialEq, Eq)]
pub struct WholePin {
    /// The net at the port, in the circuit around.
    pub net: Net,
    /// The number of the port's signal, a place in the signals of `Whole.model`.
    pub signal: u32,
    /// How strongly the model's bit drives the net of an output; `Soft` for an input.
    pub drive: Drive,
    /// Whether the net of the input is observed inside the cell, so that it may not float; false for an output.
    pub observed: bool,
}

/// In the phase of that name, an arc from a net to each net of the part that holds the output pin at a place. Where
/// `named` is set, the net is at a port that a constraint of the cell names, and the arc counts for ranks though the
/// net be known.
pub struct Link {
    /// The name of the phase in which the arc stands.
    pub phase: Text,
    /// The net at a port of the instance, from which the arc leads.
    pub from: Net,
    /// The place of the output pin in `Whole.outputs`, from 0.
    pub output: u32,
    /// Whether an `assume` rule for the phase or a `clockport` rule names the port at `from`.
    pub named: bool,
}

/// By hand, so that letting go of one is a call.
impl Drop for Link {
    fn drop(self) {
        let Link {
            phase: _phase,
            from: _from,
            output: _output,
            named: _named,
        } = self;
    }
}

/// An instance left whole.
pub struct Whole {
    /// Where the instance stands, as `x1/x2`.
    pub path: Text,
    /// The number of its cell, from 0, a place in `Design.cells`.
    pub cell: u32,
    /// The flat model of that cell, whose bits drive the outputs.
    pub model: FlatModel,
    /// The signals of that model whose bits the phase gives.
    pub clocked: Seq<ClockedSignal>,
    /// The ports of the cell whose role is `Input`, in their order.
    pub inputs: Seq<WholePin>,
    /// The ports of the cell whose role is `Output`, in their order.
    pub outputs: Seq<WholePin>,
    /// Which outputs hang on which ports, phase by phase.
    pub links: Seq<Link>,
}

/// By hand, so that letting go of one is a call.
impl Drop for Whole {
    fn drop(self) {
        let Whole {
            path: _path,
            cell: _cell,
            model: _model,
            clocked: _clocked,
            inputs: _inputs,
            outputs: _outputs,
            links: _links,
        } = self;
    }
}

/// What is known of a checked cell: whether it is equal, whether it has neither hold nor latch, and how strongly
/// each output port of an equal cell drives.
pub struct CellFacts {
    /// Whether the verdict of the cell is `equal`.
    pub equal: bool,
    /// Whether neither the circuit has a hold nor the model a latch; false for a cell that is not equal.
    pub stateless: bool,
    /// How strongly each output port drives its net, in port order; of a cell that is not equal none.
    pub drives: Seq<Drive>,
}

/// By hand, so that letting go of one is a call.
impl Drop for CellFacts {
    fn drop(self) {
        let CellFacts {
            equal: _equal,
            stateless: _stateless,
            drives: _drives,
        } = self;
    }
}
