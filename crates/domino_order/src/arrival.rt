//! What is told of inputs that rise.

use vrt_model::Valuation;

/// Whether the order matters in which some input ports of a cell rise within a phase, one by one, the circuit settling after each.
#[derive(Drop)]
pub enum Arrival {
    /// It does not: in every order, at each valuation that meets the constraints, each setting on the way settles, and at the end the observed
    /// nets have the bits that they have with these ports risen at once.
    Yes,
    /// It does: some order does not go well.
    No {
        /// The first of the ports at which a single step fails, by its place among the cell's ports.
        port: u32,
        /// The least bits of such a step: those of the phase's variables, and behind them one for each rising port, in their order, which says
        /// whether it has arrived before.
        valuation: Valuation,
    },
    /// The variables of the phase and the rising ports are together more than 1,000.
    TooMany {
        /// How many they are.
        count: u32,
    },
    /// The budget of nodes is used up.
    Budget {
        /// The budget.
        nodes: u32,
    },
}
