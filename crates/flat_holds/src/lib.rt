//! The nets of an unrolled cell that keep their charge.
#![tactic(auto)]

mod all;
mod elements;
mod enters;
mod falls;
mod holds;
mod lines;

pub use all::flat_holds;
pub use holds::hold_at;
