//! The nets that are known before anything is solved.
#![tactic(auto)]

mod amounts;
mod conducting;
mod fixed;
mod incidence;
mod known;
mod learn;
mod lists;
mod marks;
mod placing;
mod region;
mod signals;
mod spread;
mod waiting;

pub use conducting::{conduction, is_input, is_plain, known_bit};
pub use incidence::held_nets;
pub use known::known_nets;
pub use marks::{is_marked, no_marks};
pub use placing::{lead, no_groups, place, short_number};
