//! Why a row was not told.

use bdd_core::Spent;
use std::alloc::{AllocError, AllocFailed};

/// Why the rows end early.
#[derive(Clone, Copy, Debug)]
pub enum Stop {
    /// Memory could not be had.
    NoMemory,
    /// The budget of nodes is used up.
    Spent,
    /// A handle, a variable, a span or a model is not as the call asks.
    Unfit,
}

impl From<node_pool::NoMemory> for Stop {
    fn from(_none: node_pool::NoMemory) -> Stop {
        Stop::NoMemory
    }
}

impl From<vrt_model::NoMemory> for Stop {
    fn from(_none: vrt_model::NoMemory) -> Stop {
        Stop::NoMemory
    }
}

impl From<AllocError> for Stop {
    fn from(_none: AllocError) -> Stop {
        Stop::NoMemory
    }
}

impl<T: Drop> From<AllocFailed<T>> for Stop {
    fn from(_refused: AllocFailed<T>) -> Stop {
        Stop::NoMemory
    }
}

impl From<Spent> for Stop {
    fn from(_spent: Spent) -> Stop {
        Stop::Spent
    }
}
