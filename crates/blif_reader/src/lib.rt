//! Reads BLIF models.
#![tactic(auto)]

mod build;
mod card_words;
mod cards;
mod check;
mod covers;
mod faults;
mod judge;
mod known;
mod latches;
mod laws;
mod reader;
mod signals;
mod subs;
mod words;

pub use card_words::CardWords;
pub use cards::Card;
pub use faults::BlifFault;
pub use laws::computed_fault;
pub use reader::read_blif;
