//! What is found in a phase.

use crate::words::PhaseWords;
use bdd_core::H;
use node_pool::Span;
use vrt_model::FaultKind;

/// The first fault of a phase, by handles of its store.
#[derive(Clone, Copy)]
pub struct PhaseFault {
    /// What stands there.
    pub kind: FaultKind,
    /// The place: the number of a net, for `Constraint` that of an instance, for `Differs` that of a port of the cell.
    pub place: u32,
    /// At which valuations it stands: a function that is not constant 0.
    pub at: H,
    /// The bit that the circuit has there and the one that it ought to have, for the kinds that are printed with values.
    pub values: Option<(H, H)>,
    /// One word for each variable of the store, in which the least valuation is found.
    pub least: Span,
}

/// A phase that is opened in a store.
#[derive(Clone, Copy)]
pub struct OpenPhase {
    /// The valuations that meet its constraints.
    pub care: H,
    /// Its words.
    pub words: PhaseWords,
}

/// What is found in a phase.
#[derive(Clone, Copy)]
pub enum PhaseFound {
    /// The circuit and the model agree at each valuation that meets the constraints.
    Clear(OpenPhase),
    /// No valuation meets the constraints.
    Vacuous,
    /// The first fault.
    Fault(PhaseFault),
    /// The budget of nodes is used up.
    Spent,
}
