//! A region of nodes and words in memory that is taken once.
//!
//! A [`Pool`] keeps two lists: nodes of decision diagrams, each once, and words. Both grow at their ends up to a room
//! that is set at opening, and [`Pool::leave`] cuts both back to an earlier [`Mark`]. So a caller who opens a pool
//! knows all of the memory that it will ever take.
//!
//! Nodes are found by their content. Nodes with equal hashes are chained through the nodes themselves, newest first:
//! a node costs 16 bytes with its link, and cutting the list back unlinks its nodes in the reverse order.
#![tactic(auto)]

mod chains;
mod pool;
mod region;

pub use pool::Pool;
pub use region::{Mark, NoMemory, Node, Span};
