//! What a verdict says in a line, and what the nets of a circuit show at one valuation.
#![tactic(auto)]

mod first_faults;
mod looking;
mod replaying;
mod rounds;
mod seen;
mod starting;
mod sweeping;
mod values;
mod verdict_lines;
mod viewing;

pub use first_faults::first_fault_shown;
pub use looking::look;
pub use replaying::replay;
pub use seen::Seen;
pub use values::{ReplayFault, Values};
pub use verdict_lines::{decimal_text, verdict_text};
pub use viewing::view_all;
