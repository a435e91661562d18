//! A cell that is compared with its model in a phase: what is compared, in which order it is looked through, the words that it
//! takes in a store, and the fault that is found.
#![tactic(auto)]

mod compared;
mod found;
mod plan;
mod words;

pub use compared::Comparison;
pub use found::{OpenPhase, PhaseFault, PhaseFound};
pub use plan::PhasePlan;
pub use words::{PhaseWords, WordCounts};
