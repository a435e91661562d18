//! A cell and those below it, in an order.

ghost use Rattle.std.specs.Prelude.{◌≡◌, ◌<◌, length, filter, IfOk};
ghost use Rattle.cells_below.specs.Below.{AreBelow, AreNumbered};
ghost use Rattle.cells_below.specs.Met.{keeps};

use crate::marks::marks_below;
use nesting::is_marked;
use rule_index::RuleIndex;
use std::alloc::Global;
use vrt_model::{Design, NoMemory, Seq};

/// Whether a cell is this one or is marked.
fn is_kept(top: usize, marks: &[bool], number: u32) -> bool
    ensures { result ≡ keeps top marks.now number }
{
    if number as usize == top {
        return true;
    }
    is_marked(marks, number as usize)
}

/// Those of a list that are this one or are marked.
fn kept(alloc: Global, top: usize, marks: &[bool], order: &[u32]) -> Result<Seq<u32>, NoMemory>
    ensures { IfOk result (λ cells. cells ≡ filter (keeps top marks.now) order.now) }
{
    let mut cells = Seq::new(alloc);
    for number in order {
        if is_kept(top, marks, *number) {
            cells.append(*number)?;
        }
    }
    Ok(cells)
}

/// A cell and those that stand in it at any depth, in this order of cells, in time in proportion to the instance cards
/// that are met. Want of memory is the only refusal.
pub fn cells_below(
    alloc: Global,
    index: &RuleIndex,
    design: &Design,
    top: usize,
    order: &[u32],
) -> Result<Seq<u32>, NoMemory>
    requires numbered { AreNumbered design.now index.now }
    requires there { top < length design.now.cells }
    ensures { IfOk result (AreBelow design.now top order.now) }
{
    let marks = marks_below(alloc, index, design, top)?;
    kept(alloc, top, marks.as_slice(), order)
}
