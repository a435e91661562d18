//! Values by name: under each name its first value, and whether there is a second.
#![tactic(auto)]

mod firsts;
mod table;

pub use firsts::FirstValues;
pub use table::NameTable;
