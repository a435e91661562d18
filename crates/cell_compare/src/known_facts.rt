//! What is known of a cell with its verdict.

ghost use Rattle.std.specs.Prelude.{◌≡◌, ◌↔◌, ◌&&◌, [], IsTrue, false, true};
ghost use Rattle.cell_compare.specs.Phases.{AreTold};
ghost use Rattle.vrt_model.specs.declared.verdict.Verdict.TheVariants.{Equal};

use std::alloc::Global;
use vrt_model::{CellFacts, Circuit, Drive, FlatModel, Seq, Verdict};

/// Whether a cell is equal.
fn is_equal(verdict: &Verdict) -> bool
    ensures { IsTrue result ↔ (verdict.now ≡ Equal) }
{
    match verdict {
        Verdict::Equal => true,
        Verdict::Skipped => false,
        Verdict::Fault(_) => false,
        Verdict::Vacuous { .. } => false,
        Verdict::Budget { .. } => false,
        Verdict::Unsupported(_) => false,
    }
}

/// Nothing is known of a cell that is not equal.
pub(crate) fn no_facts(alloc: Global) -> CellFacts
    ensures { result ≡ record { equal = false; stateless = false; drives = [] } }
{
    CellFacts {
        equal: false,
        stateless: false,
        drives: Seq::new(alloc),
    }
}

/// Whether a circuit has no hold, and a model no latch.
pub(crate) fn is_bare(circuit: &Circuit, model: &FlatModel) -> bool
    ensures { (result ≡ true) ↔ ((circuit.now.holds ≡ []) × (model.now.latches ≡ [])) }
{
    let holds = circuit.holds.len();
    let latches = model.latches.len();
    both(holds == 0, latches == 0)
}

/// Whether both hold.
fn both(a: bool, b: bool) -> bool
    ensures { result ≡ (a && b) }
{
    a && b
}

/// What is known of a cell with this verdict: that it is equal, that it is stateless as well where it is bare, without hold and latch, and
/// then these drives of its output ports; else nothing.
pub(crate) fn facts_of(
    alloc: Global,
    verdict: &Verdict,
    drives: Seq<Drive>,
    bare: bool,
) -> CellFacts
    ensures { AreTold drives bare verdict.now result }
{
    if !is_equal(verdict) {
        return no_facts(alloc);
    }
    CellFacts {
        equal: true,
        stateless: bare,
        drives,
    }
}
