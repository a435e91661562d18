//! What nets ought to be given in a phase by a solution of the circuit, and the first net that is not: output ports their signals,
//! holds the new bits of their latch elements, the bits of the least nets of their groups, and the constants with which they enter
//! the next phase.
#![tactic(auto)]

mod bases;
mod fault;
mod holds;
mod laws;
mod missed;
mod tables;
mod wishes;

pub use fault::wish_fault;
pub use holds::hold_wishes;
pub use laws::{all_wishes, missed_wishes};
pub use missed::WishFault;
pub use wishes::{Wanted, Wish, WishBits};
