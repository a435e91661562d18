//! Searches of a graph, which is given by the numbers from which arcs lead to each number: its first cycle, the levels of
//! its numbers, and an order in which each stands behind those from which arcs lead to it.
#![tactic(auto)]

mod cycle;
mod graph;
mod groups;
mod levels;
mod marks;
mod order;
mod trail;

pub use cycle::first_cycle;
pub use levels::{Placing, all_levelled, levels_of, placing_of};
pub use order::{Order, order_of};
