//! The numbers of a graph from which chains of arcs lead to one.

ghost use Rattle.std.specs.Prelude.{◌≡◌, IfOk, OnOk};
ghost use Rattle.graphs.specs.Graphs.{AreInside, sources_at};
ghost use Rattle.nesting.specs.Reached.{HasMet};
ghost use Rattle.port_links.specs.Reached.{AreReaching};

use known_nets::no_marks;
use nesting::{meet, number_at};
use std::alloc::Global;
use vrt_model::{NoMemory, Seq};

/// The numbers from which arcs lead to one.
fn sources_at(sources: &[Seq<u32>], n: usize) -> &[u32]
    ensures { result.now ≡ sources_at sources.now n }
{
    if n < sources.len() {
        sources[n].as_slice()
    } else {
        &[]
    }
}

/// Marks and lists those of some numbers that are not marked.
fn meet_all(marks: &mut Vec<bool>, met: &mut Seq<usize>, numbers: &[u32]) -> Result<(), NoMemory>
    ensures { OnOk result (HasMet marks.old.items marks.new.items met.old met.new numbers.now) }
{
    for number in numbers {
        meet(marks, met, *number as usize)?;
    }
    Ok(())
}

/// Marks at the numbers of a graph from which chains of arcs lead to one. Each arc is gone along once at most.
pub(crate) fn reaching(alloc: Global, sources: &[Seq<u32>], to: u32) -> Result<Vec<bool>, NoMemory>
    requires { AreInside sources.now }
    ensures { IfOk result (λ marks. AreReaching sources.now to marks.items) }
{
    let mut marks = no_marks(alloc, sources.len())?;
    let mut met = Seq::new(alloc);
    meet_all(&mut marks, &mut met, sources_at(sources, to as usize))?;
    for at in 0..usize::MAX {
        let Some(number) = number_at(&met, at) else {
            return Ok(marks);
        };
        meet_all(&mut marks, &mut met, sources_at(sources, number))?;
    }
    Err(NoMemory)
}
