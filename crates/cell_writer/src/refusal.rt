//! Why a cell is not written.

use vrt_model::Text;

/// Of several causes it is the first of these that is answered.
#[derive(Drop)]
pub enum WriteRefusal {
    /// The flat circuit has a hold: the net of the first, in the order of the nets.
    Hold { net: Text },
    /// A port of the cell carries a clock: the first, in the order of the ports.
    Clock { port: Text },
    /// A name of the model or of its interface may not be written: the first, the model's before those of `.inputs`, `.clock` and `.outputs`.
    Name { name: Text },
    /// The budget of nodes is used up: how many it has. It comes only with more than four variables.
    Budget { nodes: u32 },
    /// The signals, two constants and the nodes among them, are more than 20,000: how many they are.
    Large { count: u64 },
    /// The text has more than 16,777,216 bytes: how many it has.
    Long { bytes: u64 },
    /// Memory is wanting.
    NoMemory,
}
