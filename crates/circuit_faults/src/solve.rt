//! One part: solved at every valuation at once, and looked through.

ghost use Rattle.std.specs.Prelude.{◌≡◌, ℕ, ◌+◌, ◌*◌, ◌<◌, length, IfOk};
ghost use Rattle.bdd_core.specs.Diagram.{IsWithin};
ghost use Rattle.bdd_core.specs.Store.{IsLive, function_of};
ghost use Rattle.bdd_core.specs.Words.{IsApart, IsFilled, Writes, WritesTwo};
ghost use Rattle.bdd_ops.specs.Counting.{IsSpanWithin};
ghost use Rattle.circuit_faults.specs.Scans.{PartGives, TellsWhere};
ghost use Rattle.circuit_faults.specs.Small.{AreFewAt, AreReady, IsSolvedBy, IsWay, reach_of};
ghost use Rattle.path_fixpoint.specs.Parts.{AreSoftInside, IsPart};
ghost use Rattle.path_fixpoint.specs.Solved.{HasRootSpans};
ghost use Rattle.path_fixpoint.specs.Spending.{HasOneHold, Spends, solving_operations};
ghost use Rattle.vrt_model.specs.Lists.{mark_at};
ghost use Rattle.vrt_model.specs.Networks.{HasRanges};

use crate::net::CircuitFault;
use crate::scan::scan;
use bdd_core::{H, Spent, Store};
use channel_parts::Part;
use node_pool::Span;
use part_functions::{PartFunctions, few_functions, solve_small};
use path_fixpoint::{NetWords, solve_part};
use vrt_model::Circuit;

/// Solves a part: over all variables, or over those that stand for the functions that it reads.
fn solve(
    store: &mut Store,
    way: Option<PartFunctions>,
    circuit: &Circuit,
    part: &Part,
    gates: Span,
    roots: Span,
    out: NetWords,
) -> Result<(), Spent>
    requires part { HasRanges circuit.now × IsPart circuit.now part.now × AreSoftInside circuit.now part.now }
    requires spans { HasRootSpans circuit.now part.now gates roots out store.old }
    requires apart { IsApart roots gates }
    requires way { IsWay way circuit.now part.now gates roots store.old }
    ensures writes { WritesTwo out.span out.span store.old store.new × IfOk result (λ _. Writes out.span store.old store.new) }
    ensures tells { IfOk result (λ _. TellsWhere circuit.now part.now roots gates (reach_of way store.new out) store.old) }
    ensures ready { IfOk result (λ _. (i : ℕ) → i < length part.now.nets → AreReady way store.new out i) }
    ensures few { HasOneHold circuit.now → (u operations : ℕ) → IsSpanWithin u store.old gates → IsSpanWithin u store.old roots → IsSolvedBy operations way circuit.now part.now → Spends u operations out.span store.old store.new result }
    ensures way { (u : ℕ) → IsSpanWithin u store.old gates → AreFewAt u way store.new }
{
    store.sound();
    match way {
        Some(functions) => solve_small(store, functions, circuit, part, gates, roots, out.span),
        None => solve_part(store, circuit, part, gates, roots, out.span),
    }
}

/// The first fault of a part in the care set, at the valuations at which its devices have the bits of `gates`. Where
/// there is none, the handles of its observed nets among `gates` become their bits. `roots` has the bits of the given nets and of
/// the holds, and behind the nets those of the outputs of whole instances. A part that reads few functions is solved over variables that
/// stand for these.
pub(crate) fn check_part(
    store: &mut Store,
    circuit: &Circuit,
    part: &Part,
    observed: &[bool],
    care: H,
    roots: Span,
    gates: Span,
    out: NetWords,
) -> Result<Option<CircuitFault>, Spent>
    requires part { HasRanges circuit.now × IsPart circuit.now part.now × AreSoftInside circuit.now part.now }
    requires observed { length observed.now ≡ length circuit.now.nets }
    requires care { IsLive store.old care }
    requires spans { HasRootSpans circuit.now part.now gates roots out store.old }
    requires apart { IsApart roots gates }
    ensures writes { WritesTwo gates out.span store.old store.new }
    ensures live { IsFilled store.new gates }
    ensures few { HasOneHold circuit.now → (u : ℕ) → IsWithin u (function_of store.old care) → IsSpanWithin u store.old gates → IsSpanWithin u store.old roots → Spends u (solving_operations circuit.now part.now + 4 * length part.now.nets) gates store.old store.new result }
    ensures gives { IfOk result (λ found. PartGives circuit.now part.now (mark_at observed.now) care roots gates store.old store.new found) }
{
    let way = few_functions(store, circuit, part, gates, roots);
    match solve(store, way, circuit, part, gates, roots, out) {
        Ok(()) => {}
        Err(spent) => return Err(spent),
    }
    scan(store, way, part, observed, care, gates, out)
}
