//! Sets of names: each name once, in the order in which it came first, and numbered in it. `proofs/` has the laws on
//! lists of names that the crates above share: names with more, each name once, names that do not repeat, and places.
#![tactic(auto)]

mod key;
mod set;

pub use set::Names;
