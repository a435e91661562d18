//! Why a cell is not compared phase by phase.

ghost use Rattle.std.specs.Prelude.{◌≡◌};

use vrt_model::{NoMemory, Why};

/// What stops a step of a comparison.
#[derive(Drop)]
pub(crate) enum Hindrance {
    /// The cell cannot be checked.
    Because(Why),
    /// Memory could not be had.
    NoMemory,
}

impl From<NoMemory> for Hindrance {
    ghost use Rattle.cell_room.specs.declared.hindrance.Hindrance.TheVariants.{NoMemory};

    ghost from_gives = { λ _ r. r ≡ NoMemory };

    fn from(_: NoMemory) -> Hindrance {
        Hindrance::NoMemory
    }
}
