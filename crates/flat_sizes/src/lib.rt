//! How large the flat circuit of a cell is, counted by its cells: no instance is unrolled.
#![tactic(auto)]

mod counts;
mod last_mentions;
mod linear;
mod mentions;
mod own;
mod stands;
mod totals;

pub use counts::{FlatSizes, sizes};
pub use linear::sizes_with;
