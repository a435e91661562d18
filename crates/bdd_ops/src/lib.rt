//! Boolean operations on the diagrams of a store, and valuations of them.
//!
//! Each operation is the one of its name, on the functions of live handles. Those that make a diagram add exactly the
//! nodes of it that are not there, and answer `Spent` exactly where these are more than the budget has left, as
//! `Store::ite` does. None takes memory.
#![tactic(auto)]

mod boolean;
mod valuation;

pub use boolean::{and, implies, not, or, restrict, xor};
pub use valuation::{least, value_at};
