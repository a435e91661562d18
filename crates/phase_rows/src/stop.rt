//! Why a row is not told.

use bdd_core::Spent;
use vrt_model::NoMemory;

/// Why a row is not told.
#[derive(Clone, Copy, Debug)]
pub enum Stop {
    /// Memory could not be had.
    NoMemory,
    /// A line is not as the lines are to be.
    NotRead,
    /// The budget of nodes is used up.
    Spent,
    /// A circuit, a handle or a span is not as the call asks.
    Unfit,
}

impl From<NoMemory> for Stop {
    fn from(_none: NoMemory) -> Stop {
        Stop::NoMemory
    }
}

impl From<Spent> for Stop {
    fn from(_spent: Spent) -> Stop {
        Stop::Spent
    }
}
