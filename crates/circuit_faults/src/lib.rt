//! The first fault of a flat circuit, at every valuation at once: nets of the bare circuit that fight, observed nets that float,
//! and instances that break a constraint of their cell; then nets of the kept circuit that fight, and observed nets that do
//! not keep their bits.
#![tactic(auto)]

mod circuit;
mod flat;
mod instance;
mod kept;
mod kept_net;
mod kept_parts;
mod listing;
mod net;
mod outputs;
mod part_lists;
mod phased;
mod ranking;
mod scan;
mod small;
mod solve;
mod spans;
mod step_keys;
mod steps;
mod undriven;

pub use circuit::wired_fault;
pub use flat::{circuit_fault, kept_fault};
pub use kept::{has_keeper, wired_kept};
pub use kept_net::KeptFault;
pub use listing::circuit_steps;
pub use net::CircuitFault;
pub use part_lists::part_steps;
pub use phased::{CircuitSpans, PhasedCircuit};
pub use spans::KeptSpans;
pub use steps::CircuitStep;
