//! What the settings of a step need besides settling: holds that take the bits of their nets, and sets of valuations, by the bits of some variables, and
//! from which others are reached where variables are moved.
#![tactic(auto)]

mod below;
mod moves;
mod roots;

pub use below::{before, same_bits};
pub use moves::moved;
pub use roots::{copy_handles, take_bits};
