//! The clear paths of one channel-connected part, at every valuation at once. The strengths of the nets and the values
//! that reach them are held as decision diagrams, and spread in rounds over the devices until nothing changes (R. E.
//! Bryant, A switch-level model and simulator for MOS digital systems, IEEE Transactions on Computers C-33, 1984).
#![tactic(auto)]

mod direction;
mod levels;
mod opening;
mod pins;
mod ranges;
mod reach;
mod rounds;
mod side;
mod signals;
mod solve;
mod sources;
mod steps;
mod words;

pub use channel_parts::Part;
pub use levels::strengths;
pub use ranges::{are_spans, is_part};
pub use solve::solve_part;
pub use words::{NetWords, net_words, reached};
