//! The order of the places at which a fault may stand in a phase, for all kinds of faults: laws, each the contract of a
//! function that does nothing.
#![tactic(auto)]

mod orders;
mod searches;

pub use orders::{counted_sites, floats_are_plain, phase_spots, step_order};
pub use searches::{case_found, clear_stages, earlier_stage, first_spot, later_stage, least_found};
