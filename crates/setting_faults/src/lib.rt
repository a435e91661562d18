//! A flat circuit at settings of its inputs and holds, all at once: whether it settles at each of them, or where one of its own faults stands;
//! and whether two lists of handles give the observed nets the same bits.
#![tactic(auto)]

mod differences;
mod settling;

pub use differences::first_difference;
pub use settling::settle;
