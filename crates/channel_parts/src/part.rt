//! Channel-connected parts.

use vrt_model::{Dev, Net, Seq};

/// A channel-connected part of a circuit: the nets that the channels of its devices join, no net twice, and its
/// devices. Its rank is above those of the parts that its gates depend on.
pub struct Part {
    /// Its rank, from 1, above those of the unknown gates of its devices; 0 for all parts of the kept circuit.
    pub rank: u32,
    /// Its plain nets, in the order of their numbers.
    pub nets: Seq<Net>,
    /// The devices at its nets that are not known to be off, in the order of their numbers.
    pub devices: Seq<Dev>,
}

/// By hand, so that letting go of one is a call.
impl Drop for Part {
    fn drop(self) {
        let Part {
            rank: _rank,
            nets: _nets,
            devices: _devices,
        } = self;
    }
}

/// The known nets of a circuit in a phase, by net, with their bits, and its parts by rank, in a rank by least net.
pub struct Parts {
    /// For each net, by its number, its bit where the supplies and the clocks of the phase alone give it one.
    pub known: Seq<Option<bool>>,
    /// The parts in the order in which they are solved: by rank, and of one rank by least net.
    pub list: Seq<Part>,
}

/// By hand, so that letting go of one is a call.
impl Drop for Parts {
    fn drop(self) {
        let Parts {
            known: _known,
            list: _list,
        } = self;
    }
}

/// Why a circuit has no parts in a phase: arcs lead around. The cycle begins with the least net on any.
#[derive(Drop)]
pub enum PartFault {
    /// The nets on the first cycle of gates, the least net first.
    Cycle { nets: Seq<Net> },
    /// Memory could not be had.
    NoMemory,
}
