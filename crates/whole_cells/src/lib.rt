//! The cells whose instances may be left whole, and what the instances of each have in common.
#![tactic(auto)]

mod entry;
mod kept;
mod known;
mod laws;
mod links;
mod own;
mod seen;

pub use entry::whole_cell;
pub use kept::{KeptCells, make_used};
pub use known::{is_known, told_drives};
pub use laws::{entered_are_apart, entered_are_whole_cells};
pub use own::{Own, own_of};
pub use seen::observes_outputs;
