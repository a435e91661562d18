//! Laws of a cell that is compared with its model in a phase: its places in their order, its assignments, its first fault, and
//! how many operations it takes. Each is the contract of a function that does nothing.
#![tactic(auto)]

mod counts;
mod models;
mod places;

pub use counts::{may_spend, part_room, phase_work, reads, used};
pub use models::{assigned, equal_phase, one_model, vacuous_phase};
pub use places::{first_fault, observed_nets, planned_order};
