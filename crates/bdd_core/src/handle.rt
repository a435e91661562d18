//! Handles, and the refusal of the calls that make them.

/// A handle of a function: the place of a node in a store. It is live where it is below the store's count.
#[derive(Clone, Copy, Debug, PartialEq, Eq)]
pub struct H(pub u32);

/// The constant 0.
pub const ZERO: H = H(0);

/// The constant 1.
pub const ONE: H = H(1);

/// The budget of nodes is used up. `nodes` is the budget.
#[derive(Clone, Copy, Debug, PartialEq, Eq)]
pub struct Spent {
    /// The most nodes that the store may have, its two ends among them.
    pub nodes: u32,
}
