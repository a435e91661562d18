//! Why models are not unrolled.

use thiserror::Error;

/// Why a model is not unrolled.
#[derive(Debug, Drop, Error)]
pub enum FlatModelFault {
    /// More than 20,000 signals, 200,000 rows of covers or 40,000 sub-models: the first such count in this order, or
    /// the greatest number of 64 bits where it is larger.
    #[error("limit passed: {count}")]
    Limit { count: u64 },
    /// Memory could not be had.
    #[error("out of memory")]
    NoMemory,
}
