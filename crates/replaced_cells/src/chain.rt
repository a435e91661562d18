//! Comparisons over the circuits of a chain.

ghost use Rattle.replaced_cells.specs.Chain.{ChainKeepsValuations};

/// Two circuits of a chain have the same nets, groups of holds and `enter` rules; a valuation gives the same in both, and the same
/// valuations meet the constraints.
pub fn chain_keeps_valuations()
    ensures { ChainKeepsValuations }
{}
