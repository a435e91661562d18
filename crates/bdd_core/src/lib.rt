//! A canonical store of ordered binary decision diagrams (Bryant, "Graph-Based Algorithms for Boolean Function
//! Manipulation", 1986).
//!
//! A [`Store`] keeps the nodes of many diagrams together, each node once. A handle [`H`] names a node, and with it the
//! function of the diagram below it. Two live handles are equal exactly where their functions are, so to compare two
//! functions is to compare two numbers.
//!
//! The diagram of a function has one node for each of its subfunctions that is not constant. A subfunction is the
//! function with its first k variables fixed, for some k. A call that makes the diagram of a function adds exactly the
//! nodes of it that are not there, and answers [`Spent`] exactly where these are more than the budget has left.
//!
//! All memory is taken at opening. The pool of nodes and the memo of the calls then use as much of it as the count of
//! nodes needs, so that a small task costs little under a large budget.
#![tactic(auto)]

mod handle;
mod memo;
mod standard;
mod store;

pub use handle::{H, ONE, Spent, ZERO};
pub use store::Store;
