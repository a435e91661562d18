//! The words of the command line, and what they ask for.
#![tactic(auto)]

mod command;
mod manual;
mod options;
mod request;
mod words;

pub use manual::{help, version};
pub use request::{Asked, FileWords, Request};
pub use words::{WordsFault, read_words};
