//! The spans of the kept circuit.

use node_pool::Span;

/// Spans of handles for a look at the kept circuit: one handle for each net, and the words of its parts.
#[derive(Clone, Copy)]
pub struct KeptSpans {
    /// The bit of the root at each net that is given or has a hold.
    pub roots: Span,
    /// The bit of each observed net, by the bare circuit.
    pub gates: Span,
    /// Gets where 0 reaches each plain net of the kept circuit.
    pub zeros: Span,
    /// Gets where 1 reaches each plain net of the kept circuit.
    pub ones: Span,
    /// The words of the nets of the greatest part of the kept circuit.
    pub out: Span,
}
