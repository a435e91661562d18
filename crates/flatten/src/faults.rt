//! Why a cell has no flat circuit.

ghost use Rattle.std.specs.Prelude.{◌≡◌};

use thiserror::Error;
use vrt_model::{NoMemory, Text};

/// Each comes of the first place, and of several the first in the order `Limit`, `DeviceModel`, `SupplyTie`.
#[derive(Debug, Drop, Error)]
pub enum FlatFault {
    /// The model of a device has no `device` rule and no `.model` card.
    #[error("no kind of model")]
    DeviceModel { model: Text },
    /// An instance ties a port named as a supply to another net than that supply.
    #[error("supply tied to another net")]
    SupplyTie { path: Text },
    /// More than 20,000 nets, 40,000 devices or 40,000 instances: the first such count.
    #[error("{count} is too many")]
    Limit { count: u64 },
    /// Memory could not be had.
    #[error("out of memory")]
    NoMemory,
}

impl From<NoMemory> for FlatFault {
    ghost use Rattle.flatten.specs.declared.faults.FlatFault.TheVariants.{NoMemory};

    ghost from_gives = { λ _ r. r ≡ NoMemory };

    fn from(_: NoMemory) -> FlatFault {
        FlatFault::NoMemory
    }
}
