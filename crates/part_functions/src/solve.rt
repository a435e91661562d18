//! A part solved over the variables that stand for what it reads.

ghost use Rattle.std.specs.Prelude.{ℕ, ◌+◌, length, IfOk};
ghost use Rattle.bdd_core.specs.Words.{IsApart, Writes, WritesTwo};
ghost use Rattle.path_fixpoint.specs.Parts.{AreSoftInside, IsPart};
ghost use Rattle.path_fixpoint.specs.Solved.{HasRootSpans};
ghost use Rattle.path_fixpoint.specs.Spending.{HasOneHold, Spends, solving_operations};
ghost use Rattle.path_fixpoint.specs.Strengths.{circuit_words};
ghost use Rattle.vrt_model.specs.Networks.{HasRanges};
ghost use Rattle.part_functions.specs.Replaced.{AreInner, TellsInner};
ghost use Rattle.part_functions.specs.Small.{IsSmall};

use crate::few::PartFunctions;
use crate::replaced::{gate_handles, small_handles, write_gates};
use bdd_core::{Spent, Store};
use channel_parts::Part;
use node_pool::Span;
use path_fixpoint::solve_part;
use vrt_model::Circuit;

/// Solves a part over variables that stand for the functions that it reads: with the functions in their place, the words of the values
/// say which of them reach its nets, as `solve_part` writes them. What the words of the levels are is not said.
///
/// Handles from before keep their functions and words outside `out` stay as they are, also where the budget is used up.
///
/// Where no net has two holds, it takes at most the operations of `solve_part` and one for each device, and with n functions these are over
/// the first n variables.
pub fn solve_small(
    store: &mut Store,
    functions: PartFunctions,
    circuit: &Circuit,
    part: &Part,
    gates: Span,
    roots: Span,
    out: Span,
) -> Result<(), Spent>
    requires part { HasRanges circuit.now × IsPart circuit.now part.now × AreSoftInside circuit.now part.now }
    requires spans { HasRootSpans circuit.now part.now gates roots (circuit_words circuit.now out) store.old }
    requires apart { IsApart roots gates }
    requires small { IsSmall functions circuit.now part.now gates roots store.old }
    ensures beside { WritesTwo out out store.old store.new }
    ensures writes { IfOk result (λ _. Writes out store.old store.new) }
    ensures reaches { IfOk result (λ _. TellsInner functions circuit.now part.now gates roots (circuit_words circuit.now out) store.old store.new) }
    ensures inner { IfOk result (λ _. AreInner functions part.now (circuit_words circuit.now out) store.new) }
    ensures few { HasOneHold circuit.now → Spends functions.count (length part.now.devices + solving_operations circuit.now part.now) out store.old store.new result }
{
    store.sound();
    let handles = gate_handles(store, circuit, part, gates);
    let small = match small_handles(store, functions, part, handles) {
        Ok(small) => small,
        Err(spent) => return Err(spent),
    };
    write_gates(store, circuit, part, gates, small);
    let solved = solve_part(store, circuit, part, gates, roots, out);
    write_gates(store, circuit, part, gates, handles);
    solved
}
