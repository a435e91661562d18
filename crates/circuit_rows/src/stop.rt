//! Why the rows end early.

use bdd_core::Spent;
use std::alloc::{AllocError, AllocFailed};
use std::error::Error;
use std::fmt;

/// Why the rows end early.
#[derive(Clone, Copy, Debug, PartialEq, Eq)]
pub enum Stop {
    /// Memory could not be had.
    NoMemory,
    /// A line is not as the lines are to be.
    NotRead,
    /// The budget of nodes is used up.
    Spent,
    /// A circuit, a model, a handle or a span is not as the call asks.
    Unfit,
}

impl fmt::Display for Stop {
    fn fmt<W: fmt::Write>(&self, f: &mut fmt::Formatter<W>) -> fmt::Result {
        match self {
            Stop::NoMemory => write!(f, "out of memory"),
            Stop::NotRead => write!(f, "a line is not read"),
            Stop::Spent => write!(f, "the budget is used up"),
            Stop::Unfit => write!(f, "a call does not fit"),
        }
    }
}

impl Error for Stop {}

impl From<node_pool::NoMemory> for Stop {
    fn from(_none: node_pool::NoMemory) -> Stop {
        Stop::NoMemory
    }
}

impl From<vrt_model::NoMemory> for Stop {
    fn from(_none: vrt_model::NoMemory) -> Stop {
        Stop::NoMemory
    }
}

impl From<AllocError> for Stop {
    fn from(_none: AllocError) -> Stop {
        Stop::NoMemory
    }
}

impl<T: Drop> From<AllocFailed<T>> for Stop {
    fn from(_refused: AllocFailed<T>) -> Stop {
        Stop::NoMemory
    }
}

impl From<Spent> for Stop {
    fn from(_spent: Spent) -> Stop {
        Stop::Spent
    }
}
