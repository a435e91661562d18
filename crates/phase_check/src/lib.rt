//! A phase of a comparison looked through in a store of diagrams: whether the circuit and the model agree at each valuation
//! that meets the constraints, or the first fault. Its stages, in their order: the phase opened, the bare circuit solved, the kept circuit
//! solved, the model evaluated, the wishes checked; and where it is equal, the levels of the nets that are asked for.
#![tactic(auto)]

mod bare;
mod kept;
mod levels;
mod model;
mod opened;
mod search;
mod wishes;

pub use bare::solve_bare;
pub use kept::solve_kept;
pub use levels::write_levels;
pub use model::evaluate;
pub use opened::open_search;
pub use search::{Search, check_phase};
pub use wishes::check_wishes;
