//! The strengths of the nets and the values that reach them at one valuation. Signals pass in rounds over the channels
//! of the conducting devices until nothing changes (R. E. Bryant, A switch-level model and simulator for MOS digital
//! systems, IEEE Transactions on Computers C-33, 1984).
#![tactic(auto)]

mod channels;
mod local;
mod marks;
mod ranges;
mod signals;
mod strengths;

pub use channels::bit;
pub use local::{raise, restore, root_signals};
pub use ranges::is_flat;
pub use signals::{Response, Signals, signals_at};
