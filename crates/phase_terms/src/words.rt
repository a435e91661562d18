//! The words of a phase in its store.

use node_pool::Span;

/// The words of a phase: handles by net, room for the parts of the circuit, handles by signal and by latch element, and a word for
/// each variable.
#[derive(Clone, Copy)]
pub struct PhaseWords {
    /// One word for each net, by its number: the bit that a net with a given value has, and the held value of a hold. Behind these one
    /// word for each output of the whole instances, instance by instance.
    pub roots: Span,
    /// One word for each net, by its number: its bit as gates see it, which is known, given, or found in its part.
    pub gates: Span,
    /// One word for each net: where 0 reaches it in the kept circuit.
    pub zeros: Span,
    /// One word for each net: where 1 reaches it in the kept circuit.
    pub ones: Span,
    /// The words of each net, in which part after part is solved: which levels it has, and which values; and more of them, so that the
    /// model of each whole instance can be evaluated there.
    pub out: Span,
    /// One word for each signal, the bits of inputs and clocks, and one for the bit of the default clock.
    pub inputs: Span,
    /// One word for each latch element: its old bit.
    pub held: Span,
    /// One word for each signal, by its number, and behind them one for each latch element: the bits that the model gives.
    pub values: Span,
    /// One word for each variable of the store, in which the least valuation of a fault is found.
    pub least: Span,
}

/// How many nets, outputs of whole instances, signals, latch elements and variables a phase has words for, how many each net has by the
/// source level, and how many there are for the models of whole instances.
#[derive(Clone, Copy)]
pub struct WordCounts {
    /// The nets of the circuit.
    pub nets: u32,
    /// The source level of the circuit.
    pub source: u8,
    /// The outputs of the whole instances.
    pub pins: u32,
    /// The words in which the greatest model of a whole instance is evaluated.
    pub models: u32,
    /// The signals of the model.
    pub signals: u32,
    /// The latch elements of the model.
    pub elements: u32,
    /// The variables of the store.
    pub variables: u32,
}
