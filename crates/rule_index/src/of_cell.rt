//! Rules that are each of one cell.

ghost use Rattle.std.specs.Prelude.{◌≡◌, ℕ, List};

use vrt_model::{
    AssumeRule, ClockportRule, EnterRule, HoldRule, InstanceMatchRule, KeeperRule, MatchRule,
    ObserveRule, PairRule, PortRule, StrengthRule,
};

/// A rule that is of a cell.
pub trait OfCell {
    /// The name of the cell that the rule is of.
    ghost cell_of: { Self → List ℕ };

    /// The name of the cell that the rule is of.
    fn cell_name(&self) -> &[u8]
        ensures { result.now ≡ cell_of self.now };
}

impl OfCell for StrengthRule {
    ghost cell_of = { λ r. r.cell };

    /// The name of the cell that the rule is of.
    fn cell_name(&self) -> &[u8] {
        self.cell.as_bytes()
    }
}

impl OfCell for KeeperRule {
    ghost cell_of = { λ r. r.cell };

    /// The name of the cell that the rule is of.
    fn cell_name(&self) -> &[u8] {
        self.cell.as_bytes()
    }
}

impl OfCell for ClockportRule {
    ghost cell_of = { λ r. r.cell };

    /// The name of the cell that the rule is of.
    fn cell_name(&self) -> &[u8] {
        self.cell.as_bytes()
    }
}

impl OfCell for PortRule {
    ghost cell_of = { λ r. r.cell };

    /// The name of the cell that the rule is of.
    fn cell_name(&self) -> &[u8] {
        self.cell.as_bytes()
    }
}

impl OfCell for ObserveRule {
    ghost cell_of = { λ r. r.cell };

    /// The name of the cell that the rule is of.
    fn cell_name(&self) -> &[u8] {
        self.cell.as_bytes()
    }
}

impl OfCell for AssumeRule {
    ghost cell_of = { λ r. r.cell };

    /// The name of the cell that the rule is of.
    fn cell_name(&self) -> &[u8] {
        self.cell.as_bytes()
    }
}

impl OfCell for HoldRule {
    ghost cell_of = { λ r. r.cell };

    /// The name of the cell that the rule is of.
    fn cell_name(&self) -> &[u8] {
        self.cell.as_bytes()
    }
}

impl OfCell for MatchRule {
    ghost cell_of = { λ r. r.cell };

    /// The name of the cell that the rule is of.
    fn cell_name(&self) -> &[u8] {
        self.cell.as_bytes()
    }
}

impl OfCell for InstanceMatchRule {
    ghost cell_of = { λ r. r.cell };

    /// The name of the cell that the rule is of.
    fn cell_name(&self) -> &[u8] {
        self.cell.as_bytes()
    }
}

impl OfCell for EnterRule {
    ghost cell_of = { λ r. r.cell };

    /// The name of the cell that the rule is of.
    fn cell_name(&self) -> &[u8] {
        self.cell.as_bytes()
    }
}

impl OfCell for PairRule {
    ghost cell_of = { λ r. r.cell };

    /// The name of the cell that the rule is of.
    fn cell_name(&self) -> &[u8] {
        self.cell.as_bytes()
    }
}
