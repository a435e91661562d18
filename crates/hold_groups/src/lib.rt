//! The groups of holds of a cell, and its variables in a phase: of its inputs, of the latch elements of its model, and of its
//! groups.
#![tactic(auto)]

mod by_net;
mod elements;
mod ends;
mod entered;
mod faults;
mod grouping;
mod listing;
mod lists;
mod matching;
mod sources;
mod unmatched;
mod variable_names;

pub use entered::{enter_of, entered_bit};
pub use faults::{MatchFault, VarsFault};
pub use listing::variables;
pub use matching::groups;
