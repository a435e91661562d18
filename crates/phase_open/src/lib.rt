//! A phase as it begins, in a store: its words are taken, and then nets with given values, held values, the care set, the
//! model's inputs and the old bits of its elements are made as functions of the variables.
#![tactic(auto)]

mod elements;
mod inputs;
mod opening;
mod roots;
mod words;

pub use opening::open_phase;
pub use words::{most_model_words, take_words, word_count};
