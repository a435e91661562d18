//! The levels that nets have at every valuation of a care set, by diagrams: one net of a solved part, and the nets of a circuit
//! part by part.
#![tactic(auto)]

mod always;
mod judge;
mod level;
mod parts;

pub use level::constant_level;
pub use parts::circuit_levels;
