//! A net, what a solution ought to give it, and where the handles of the bits stand.

use node_pool::Span;
use vrt_model::{FaultKind, Net};

/// Where the bit is that a net ought to have.
#[derive(Clone, Copy)]
pub enum Wanted {
    /// That of a signal of the model, by its number, a place in `FlatModel.signals`.
    Signal(u32),
    /// The new bit of a latch element, by its number, or the inverse of that bit.
    Element { element: u32, inverted: bool },
    /// That of another net, or the inverse of that bit.
    Other { net: Net, inverted: bool },
    /// A bit that is given.
    Constant(bool),
}

/// A net that ought to have a bit as a phase ends.
#[derive(Clone, Copy)]
pub struct Wish {
    /// The fault that stands where the net has another bit.
    pub kind: FaultKind,
    /// The place of the fault: for `Differs` that of a port among the ports of the cell, else the number of the net.
    pub place: u32,
    /// The net of the circuit.
    pub net: Net,
    /// Where the bit is that the net ought to have.
    pub wanted: Wanted,
    /// The signal of the model that is 1 where the net may have either bit, if there is one.
    pub free: Option<u32>,
}

/// Where the handles of the bits stand.
#[derive(Clone, Copy)]
pub struct WishBits {
    /// A handle for each net: its bit in the solution.
    pub gates: Span,
    /// A handle for each signal of the model.
    pub values: Span,
    /// A handle for the new bit of each latch element.
    pub next: Span,
}
