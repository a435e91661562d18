//! The text of a model whose outputs have the functions of some handles of a store.
#![tactic(auto)]

mod lines;
mod text;

pub use text::{Interface, TextRefusal, logic_text};
