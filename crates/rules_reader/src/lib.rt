//! Reads a rules file.
#![tactic(auto)]

mod build;
mod cards;
mod check;
mod circuit_rules;
mod clocked_rules;
mod conditions;
mod entry_rules;
mod faults;
mod judge;
mod keys;
mod known;
mod laws;
mod reader;
mod texts;

pub use cards::Card;
pub use faults::RulesFault;
pub use laws::computed_fault;
pub use reader::read_rules;
pub use rules_expression::{Token, one_expression};
pub use rules_lines::{ClockBit, Entry, Signed};
