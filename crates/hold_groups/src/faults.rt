//! Why the holds of a cell are not grouped, and why its variables are not listed.

use thiserror::Error;
use vrt_model::Text;

/// What stands in the way of a list of variables.
#[derive(Clone, Copy, Debug, Drop, Error, PartialEq, Eq)]
pub enum VarsFault {
    /// There are more than 1,000 variables, this many.
    #[error("more than 1000 variables")]
    TooMany { count: u32 },
    /// Memory could not be had.
    #[error("out of memory")]
    NoMemory,
}

/// What stands in the way of the groups of a cell.
#[derive(Debug, Drop, Error)]
pub enum MatchFault {
    /// The first latch element of the model without a group, else the latch of the first `match` line of the cell that
    /// names no element.
    #[error("latch without a match")]
    Unmatched { name: Text },
    /// Memory could not be had.
    #[error("out of memory")]
    NoMemory,
}
