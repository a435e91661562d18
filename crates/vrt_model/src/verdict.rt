//! The answer for one cell.

use crate::{Net, Seq, Text, Valuation};

/// What is wrong at a place.
#[derive(Clone, Copy, Debug, PartialEq, Eq)]
pub enum FaultKind {
    /// Both values reach a plain net at its greatest strength, without the keepers (Bryant 1984):
    /// `cell C fight NET phase P at A`.
    Fight,
    /// Both values reach a plain net at its greatest strength once the keepers are there:
    /// `cell C fightkept NET phase P at A`.
    FightKept,
    /// No value reaches an observed net, without the keepers: `cell C float NET phase P at A`.
    Float,
    /// With the keepers an observed net never shows the bit that it has without them:
    /// `cell C unsettled NET phase P circuit V wanted W at A`.
    Unsettled,
    /// At an instance an `assume` of its cell is false, or a clock port has another bit than declared:
    /// `cell C constraint PATH phase P at A`.
    Constraint,
    /// An output port has not the bit of its signal in the model, in a phase in which it is observed:
    /// `cell C differs PORT phase P circuit V model W at A`.
    Differs,
    /// A net that stands for a latch element does not end the phase with the element's new bit, or its inverse:
    /// `cell C next NET phase P circuit V wanted W at A`.
    Next,
    /// A net does not end the phase with the bit, or its inverse, of the least net that stores the same:
    /// `cell C apart NET phase P circuit V wanted W at A`.
    Apart,
    /// A net does not end the phase with the bit that an `enter` line gives it as the next phase begins:
    /// `cell C enter NET phase P circuit V wanted W at A`.
    Enter,
}

/// A fault, its place by name, and the valuation at which it stands.
pub struct FaultAt {
    /// What is wrong, the word behind `cell C` in the line.
    pub kind: FaultKind,
    /// The number of the phase, from 0, a place in `Rules.phases`. The line has its name.
    pub phase: u32,
    /// The name of a net, for `Differs` of a port of the cell, for `Constraint` the path of an instance.
    pub place: Text,
    /// The bit that the circuit has there; none for a kind whose line has no values.
    pub circuit: Option<bool>,
    /// The bit that it ought to have, for `Differs` that of the model; none where `circuit` is none.
    pub wanted: Option<bool>,
    /// The names of the phase's variables: inputs, then latch elements, then held nets.
    pub names: Seq<Text>,
    /// The bit of each of `names`: the least valuation at which the fault stands at this place.
    pub valuation: Valuation,
}

/// By hand, so that letting go of one is a call.
impl Drop for FaultAt {
    fn drop(self) {
        let FaultAt {
            kind: _kind,
            phase: _phase,
            place: _place,
            circuit: _circuit,
            wanted: _wanted,
            names: _names,
            valuation: _valuation,
        } = self;
    }
}

/// Why a cell cannot be checked.
#[derive(Drop)]
pub enum Why {
    /// A port or a signal does not pair as it must, the first one: `cell C unsupported ports NAME`.
    Ports { name: Text },
    /// The gates lead around in a phase, by its number from 0; the cycle begins with the least net on any:
    /// `cell C unsupported cycle NET phase P`.
    Cycle { phase: u32, nets: Seq<Net> },
    /// Covers and latches of the model lead around in a phase, by its number from 0; the cycle begins with the least
    /// signal on any: `cell C unsupported modelcycle SIGNAL phase P`.
    ModelCycle { phase: u32, signals: Seq<u32> },
    /// A latch element for which no net stands, or one on a `match` line that the model has not:
    /// `cell C unsupported unmatched NAME`.
    Unmatched { name: Text },
    /// A device model with neither a `device` rule nor a `.model` card of type `nmos` or `pmos`:
    /// `cell C unsupported device MODEL`.
    DeviceModel { model: Text },
    /// An instance ties a port named as a supply to another net than that supply:
    /// `cell C unsupported supplytie PATH`.
    SupplyTie { path: Text },
    /// A signal is an output and an input or a clock: `cell C unsupported outputisinput SIGNAL`.
    OutputIsInput { signal: Text },
    /// A phase has more than 1,000 variables: `cell C unsupported variables COUNT`.
    TooManyVars { count: u32 },
    /// The flat circuit or the flat model has more than 20,000 nets, 40,000 devices, 40,000 instances, 20,000 signals,
    /// 200,000 rows or 40,000 sub-models, the first such count: `cell C unsupported large COUNT`.
    TooLarge { count: u64 },
    /// No `pair` rule and not exactly one model of the cell's name, or the rule's model is not there:
    /// `cell C unsupported nomodel`.
    NoModel,
    /// A latch, by its output, has no control, and there is no `defaultclock` line:
    /// `cell C unsupported noclock LATCH`.
    NoClock { latch: Text },
}

/// The answer for one cell.
#[derive(Drop)]
pub enum Verdict {
    /// In each phase circuit and model agree at each valuation that meets the constraints, and there is some:
    /// `cell C equal`.
    Equal,
    /// A line `pair C -` says that the cell has no model on purpose: `cell C skipped`.
    Skipped,
    /// The first fault of the first phase that has one, in the line of its kind: `cell C KIND ..`.
    Fault(FaultAt),
    /// No valuation meets the constraints of the phase, by its number from 0: `cell C vacuous phase P`.
    Vacuous { phase: u32 },
    /// The diagrams of the phase, by its number from 0, may need more nodes than the budget, which is `nodes`:
    /// `cell C budget N phase P`.
    Budget { nodes: u32, phase: u32 },
    /// The cell cannot be checked, by the first cause in the order of the tests: `cell C unsupported CAUSE`.
    Unsupported(Why),
}
