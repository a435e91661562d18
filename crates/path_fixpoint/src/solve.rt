//! A part solved: the strengths of its nets, and the values that reach them.

ghost use Rattle.std.specs.Prelude.{ℕ, ◌+◌, ◌*◌, ◌<◌, length, IfOk};
ghost use Rattle.bdd_core.specs.Diagram.{Valuation};
ghost use Rattle.vrt_model.specs.Networks.{HasRanges};
ghost use Rattle.vrt_model.specs.Path.{Network};
ghost use Rattle.path_fixpoint.specs.Parts.{AreSoftInside, IsPart, IsPartOf, pins_at, pins_of};
ghost use Rattle.path_fixpoint.specs.Reaching.{HasReach, HasRootWords, SolvedAt, slot_of};
ghost use Rattle.path_fixpoint.specs.Solved.{HasRootSpans, TellsReach, network_at};
ghost use Rattle.path_fixpoint.specs.Strengths.{ChangesLevel, TellsStrengths, circuit_words};
ghost use Rattle.bdd_core.specs.Words.{Writes};
ghost use Rattle.bdd_ops.specs.Counting.{IsSpanWithin};
ghost use Rattle.path_fixpoint.specs.Spending.{AreGatesWithin, AreRootsWithin, HasOneHold, Spends, solving_operations};

use crate::Part;
use crate::levels::strengths;
use crate::ranges::rises;
use crate::reach::settle;
use crate::sources::open;
use crate::words::NetWords;
use bdd_core::{Spent, Store};
use node_pool::Span;
use vrt_model::Circuit;

/// Writes for each net of the part whether the value reaches it, where the strengths are written.
fn reaches(
    store: &mut Store,
    circuit: &Circuit,
    part: &Part,
    rising: bool,
    gates: Span,
    roots: Span,
    out: NetWords,
    value: bool,
) -> Result<(), Spent>
    requires part { IsPartOf circuit.now part.now rising }
    requires words { HasRootWords circuit.now part.now gates roots out store.old }
    ensures writes { Writes out.span store.old store.new }
    ensures apart { ChangesLevel out (slot_of out value) store.old store.new }
    ensures reach { IfOk result (λ _. (v : Valuation) (w : Network) (s : ℕ → ℕ) → SolvedAt circuit.now part.now gates roots out store.old v w s → HasReach part.now out value store.new v w) }
    ensures few { HasOneHold circuit.now → (u : ℕ) → AreGatesWithin u circuit.now part.now gates store.old → AreRootsWithin u circuit.now part.now roots store.old → IsSpanWithin u store.old out.span → Spends u (length part.now.nets * 6 + pins_at part.now (pins_of circuit.now) * 3 + length part.now.nets * (length part.now.devices * (4 * out.source + 6))) out.span store.old store.new result }
{
    match open(store, circuit, part, rising, gates, roots, out, value) {
        Ok(()) => {}
        Err(spent) => return Err(spent),
    }
    settle(store, circuit, part, rising, gates, roots, out, value)
}

/// Solves a part in its words: the strengths of its nets, and then where 0 and 1 reach them.
fn solve_words(
    store: &mut Store,
    circuit: &Circuit,
    part: &Part,
    gates: Span,
    roots: Span,
    out: NetWords,
) -> Result<(), Spent>
    requires circuit { HasRanges circuit.now }
    requires part { IsPart circuit.now part.now }
    requires spans { HasRootSpans circuit.now part.now gates roots out store.old }
    ensures writes { Writes out.span store.old store.new }
    ensures strengths { IfOk result (λ _. (v : Valuation) → TellsStrengths circuit.now part.now out store.new v (network_at store.old circuit.now part.now gates roots v)) }
    ensures reaches { IfOk result (λ _. AreSoftInside circuit.now part.now → (v : Valuation) → TellsReach part.now out store.new v (network_at store.old circuit.now part.now gates roots v)) }
    ensures few { HasOneHold circuit.now → (u : ℕ) → AreGatesWithin u circuit.now part.now gates store.old → AreRootsWithin u circuit.now part.now roots store.old → Spends u (solving_operations circuit.now part.now) out.span store.old store.new result }
{
    let rising = rises(part);
    match strengths(store, circuit, part, gates, out) {
        Ok(()) => {}
        Err(spent) => return Err(spent),
    }
    match reaches(store, circuit, part, rising, gates, roots, out, false) {
        Ok(()) => {}
        Err(spent) => return Err(spent),
    }
    reaches(store, circuit, part, rising, gates, roots, out, true)
}

/// Writes for each net of a part, as diagrams over all valuations, whether its strength is at least each level from 1 to
/// the source level, whether a clear path from a root of value 0 ends at it, and whether one of value 1 does: the words of
/// the net at place `i` are those from number `net_words(l) * i` of `out` on, where l is the source level. `gates` and `roots` have a handle for each net of the circuit: the bit
/// of the net at gates, and the bit of the root that stands at it. Behind these `roots` has a handle for each output of the whole
/// instances, instance by instance: the bit that the model gives, the root of the level that its drive says.
///
/// Handles from before keep their functions and words outside `out` stay as they are, also where the budget is used up.
///
/// Where the gates of the part's devices and the roots that it reads depend only on the first `u` variables and no net has two holds,
/// a part of p nets and q devices, on which r outputs of whole instances stand, takes at most (12 l + 12) p q + 12 p + 6 r operations
/// of `2 ^ u` nodes, where l is the source level; the handles that are written depend only on these variables too. The roots that it
/// reads are those of the given ends of its devices' channels, of its given nets, of its nets with a hold and of the outputs at its
/// nets; the handles of all other nets may depend on any variables.
pub fn solve_part(
    store: &mut Store,
    circuit: &Circuit,
    part: &Part,
    gates: Span,
    roots: Span,
    out: Span,
) -> Result<(), Spent>
    requires circuit { HasRanges circuit.now }
    requires part { IsPart circuit.now part.now }
    requires spans { HasRootSpans circuit.now part.now gates roots (circuit_words circuit.now out) store.old }
    ensures writes { Writes out store.old store.new }
    ensures strengths { IfOk result (λ _. (v : Valuation) → TellsStrengths circuit.now part.now (circuit_words circuit.now out) store.new v (network_at store.old circuit.now part.now gates roots v)) }
    ensures reaches { IfOk result (λ _. AreSoftInside circuit.now part.now → (v : Valuation) → TellsReach part.now (circuit_words circuit.now out) store.new v (network_at store.old circuit.now part.now gates roots v)) }
    ensures few { HasOneHold circuit.now → (u : ℕ) → AreGatesWithin u circuit.now part.now gates store.old → AreRootsWithin u circuit.now part.now roots store.old → Spends u (solving_operations circuit.now part.now) out store.old store.new result }
{
    let words = NetWords::new(circuit, out);
    solve_words(store, circuit, part, gates, roots, words)
}
