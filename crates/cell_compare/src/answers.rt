//! What is answered of a cell's phases, and why a cell has no workspace.

use phase_told::Site;
use vrt_model::Why;

/// What is found in a phase of a cell.
#[derive(Clone, Copy)]
pub enum PhaseVerdict {
    /// Circuit and model agree at every valuation that meets the constraints of the phase.
    Clear,
    /// The first fault of the phase, where it stands.
    Fault(Site),
    /// No valuation meets the constraints of the phase.
    Vacuous,
    /// The budget of nodes is used up.
    Budget {
        /// The budget.
        nodes: u32,
    },
}

/// Why a cell has no workspace.
#[derive(Drop)]
pub enum RoomFault {
    /// The rules say that the cell is not compared.
    Skipped,
    /// The cell cannot be checked.
    Unsupported(Why),
    /// Memory could not be had.
    NoMemory,
}
