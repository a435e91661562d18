//! The first cycle of a graph.

ghost use Rattle.std.specs.Prelude.{◌≡◌, ℕ, ◌<◌, ◌∷◌, List, length, IfOk, IfSome, IsNone};
ghost use Rattle.vrt_model.specs.Known.{IsCycle, IsFirstCycle};
ghost use Rattle.graphs.specs.Graphs.{ArcIn, AreInside};
ghost use Rattle.graphs.specs.Groups.{HasCycles, is_marked};
ghost use Rattle.graphs.specs.Trails.{IsAround};

use crate::graph::short_number;
use crate::marks::marks_of;
use crate::trail::cycle_at;
use std::alloc::Global;
use vrt_model::{NoMemory, Seq};

/// Whether a number is marked; past the end of the marks all are.
fn is_marked(marks: &[bool], n: u32) -> bool
    ensures { result ≡ is_marked marks.now n }
{
    if (n as usize) < marks.len() {
        marks[n as usize]
    } else {
        true
    }
}

/// A cycle that begins with a number, if the number is on any, where the numbers on cycles are marked.
fn marked_cycle(
    alloc: Global,
    sources: &[Seq<u32>],
    marks: &[bool],
    first: u32,
) -> Result<Option<Seq<u32>>, NoMemory>
    requires inside { AreInside sources.now }
    requires there { first < length sources.now }
    requires marks { HasCycles sources.now marks.now }
    ensures found { IfOk result (λ o. IfSome o (λ nodes. IsAround (ArcIn sources.now) first nodes)) }
    ensures none { IfOk result (λ o. IsNone o → (others : List ℕ) → ¬ IsCycle (ArcIn sources.now) (first ∷ others)) }
{
    if !is_marked(marks, first) {
        return Ok(None);
    }
    let found = cycle_at(alloc, sources, first)?;
    Ok(found)
}

/// The cycle of a graph that begins with the least number on any, or none exactly where there is no cycle. Nothing but
/// want of memory refuses, which a graph of more than 2^32 numbers is too. The search is over each arc a few times.
pub fn first_cycle(alloc: Global, sources: &[Seq<u32>]) -> Result<Option<Seq<u32>>, NoMemory>
    requires { AreInside sources.now }
    ensures found { IfOk result (λ o. IfSome o (λ nodes. IsFirstCycle (ArcIn sources.now) nodes)) }
    ensures none { IfOk result (λ o. IsNone o → (nodes : List ℕ) → ¬ IsCycle (ArcIn sources.now) nodes) }
{
    let table = marks_of(alloc, sources)?;
    let marks = table.as_slice();
    for number in 0..sources.len() {
        let first = short_number(number)?;
        let found = marked_cycle(alloc, sources, marks, first)?;
        if found.is_some() {
            return Ok(found);
        }
    }
    Ok(None)
}
