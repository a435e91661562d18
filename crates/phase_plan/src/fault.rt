//! Why a phase has no plan.

use vrt_model::{Net, Seq};

/// Why a phase has no plan. Each cycle begins with the least number on any.
#[derive(Drop)]
pub enum PlanFault {
    /// The nets of the circuit on its first cycle, each of which gates what gives the next its bit.
    Cycle { nets: Seq<Net> },
    /// The signals and elements of the model on its first cycle, each of which the next hangs on.
    ModelCycle { signals: Seq<u32> },
    /// Memory could not be had.
    NoMemory,
}
