//! A netlist, models and rules of any size from 1 to 32: adders with multiplexers, to be checked.
#![tactic(auto)]

mod forms;
mod models;
mod netlist;
mod texts;

pub use texts::{Generated, generate};
