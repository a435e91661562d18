//! Laws at the end of the definitions, each the contract of a function that does nothing: what holds of every network,
//! circuit and comparison, and what the definitions say of small circuits and cells. No crate stands on this one.
#![tactic(auto)]

mod circuits;
mod paths;
mod small_circuits;
mod verdicts;

pub use circuits::{given_gates, given_logic, one_cell, well_formed};
pub use paths::{clear_paths, one_answer, sources_on_paths, walks};
pub use small_circuits::{
    blocked_load, bridge_of_five, charges, input_and_ring, keepers, missing_device_and_held_input,
    opposed_devices, whole_outputs,
};
pub use verdicts::{expressions, first_in_phase, first_place, verdicts_apart};
