//! What a replay answers.

use crate::seen::Seen;
use vrt_model::{Net, Seq};

/// What the nets of a circuit show at one valuation, by net.
pub struct Values {
    /// Of each net, in the circuit without its keepers. These bits are those of the gates, in both circuits.
    pub bare: Seq<Seen>,
    /// Of each net, in the circuit with its keepers.
    pub kept: Seq<Seen>,
}

/// By hand, so that letting go of one is a call.
impl Drop for Values {
    fn drop(self) {
        let Values {
            bare: _bare,
            kept: _kept,
        } = self;
    }
}

/// Why a replay has no values.
#[derive(Drop)]
pub enum ReplayFault {
    /// Arcs lead around: the nets on the first cycle of gates, the least net first.
    Cycle { nets: Seq<Net> },
    /// Memory could not be had.
    NoMemory,
}
