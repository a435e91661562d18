//! Whether the order matters in which inputs of a cell rise within a phase, as those of a domino stage do.
#![tactic(auto)]

mod arrival;
mod beginnings;
mod ends;
mod found;
mod laws;
mod made;
mod monotone;
mod ports;
mod prepared;
mod runs;
mod search;
mod step;

pub use arrival::Arrival;
pub use found::NetFound;
pub use laws::{failing_steps, steps_by_bits, three_settings};
pub use monotone::monotone_with;
pub use ports::search_ports;
pub use prepared::{Asked, Prepared};
pub use runs::run;
pub use search::search_net;
pub use step::{Rising, StepWords, failing};
