//! Which model a cell pairs with, and how its ports pair with the signals of the model. The groups of holds are those of
//! `hold_groups`.
#![tactic(auto)]

mod counts;
mod facts;
mod faults;
mod lookups;
mod lower_names;
mod models;
mod numbers;
mod ports;
mod signals;

pub use faults::PairFault;
pub use hold_groups::{MatchFault, groups};
pub use models::{is_skipped, model_of};
pub use ports::{pair_ports, pair_ports_with};
