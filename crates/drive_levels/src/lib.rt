//! The levels that nets have in the bare and in the kept circuit of a phase, at every valuation of its care set: what a cell's
//! facts say of how strongly its outputs drive.
#![tactic(auto)]

mod laws;
mod levels;
mod one_level;
mod ports;
mod table;

pub use laws::{found_drives_are_told, levels_are_joined};
pub use levels::{level_of, net_levels};
pub use ports::{drive_of, join_levels};
pub use table::{NetLevels, PortLevels, asking, ports_at};
