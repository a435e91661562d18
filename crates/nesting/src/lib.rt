//! Things that stand in one another, by the numbers of those that stand directly in each: how deep each is, and the first
//! that contains itself or is too deep.
#![tactic(auto)]

mod depths;
mod first;
mod reached;
mod search;

pub use depths::{are_shallow, depths_of, whole_depths};
pub use first::{NestingFault, first_fault};
pub use search::{is_marked, meet, no_marks, number_at};
