//! The nodes below some handles of a store, each once, with a number for each: what a diagram is written by.
#![tactic(auto)]

mod list;

pub use list::{NodeList, list_nodes};
