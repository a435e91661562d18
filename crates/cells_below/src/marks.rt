//! The cells that stand in one, by a search down from it.

ghost use Rattle.std.specs.Prelude.{◌≡◌, ◌<◌, length, IfOk, OnOk};
ghost use Rattle.cells_below.specs.Below.{AreNumbered};
ghost use Rattle.cells_below.specs.Met.{number_in, numbers_on};
ghost use Rattle.nesting.specs.Reached.{AreWithin, HasMet};
ghost use Rattle.vrt_model.specs.Comparison.{cell_at};
ghost use Rattle.vrt_model.specs.Hierarchy.{cells_in};

use nesting::{meet, no_marks, number_at};
use rule_index::RuleIndex;
use std::alloc::Global;
use vrt_model::{Design, InstanceCard, NoMemory, Seq};

/// The number of the cell of a name, 0 where there is none.
fn number_of(index: &RuleIndex, name: &[u8]) -> usize
    ensures { result ≡ number_in index.now name.now }
{
    match index.cells.get(name) {
        Some(number) => *number,
        None => 0,
    }
}

/// Meets the cells on instance cards.
fn meet_cards(
    index: &RuleIndex,
    marks: &mut Vec<bool>,
    met: &mut Seq<usize>,
    cards: &[InstanceCard],
) -> Result<(), NoMemory>
    ensures { OnOk result (HasMet marks.old.items marks.new.items met.old met.new (numbers_on index.now cards.now)) }
{
    for card in cards {
        meet(marks, met, number_of(index, card.cell.as_bytes()))?;
    }
    Ok(())
}

/// The instance cards of a cell.
fn cards_of(design: &Design, number: usize) -> &[InstanceCard]
    ensures { result.now ≡ (cell_at design.now number).instances }
{
    match design.cells.get(number) {
        Some(cell) => cell.instances.as_slice(),
        None => &[],
    }
}

/// Meets the cells that stand directly in one.
fn meet_inner(
    index: &RuleIndex,
    design: &Design,
    marks: &mut Vec<bool>,
    met: &mut Seq<usize>,
    number: usize,
) -> Result<(), NoMemory>
    requires { AreNumbered design.now index.now }
    ensures { OnOk result (HasMet marks.old.items marks.new.items met.old met.new (cells_in design.now number)) }
{
    meet_cards(index, marks, met, cards_of(design, number))?;
    Ok(())
}

/// Marks of the cells that stand in one, at any depth, in time in proportion to the instance cards that are met.
pub fn marks_below(
    alloc: Global,
    index: &RuleIndex,
    design: &Design,
    top: usize,
) -> Result<Vec<bool>, NoMemory>
    requires numbered { AreNumbered design.now index.now }
    requires there { top < length design.now.cells }
    ensures { IfOk result (λ marks. AreWithin (cells_in design.now) top marks.items) }
{
    let mut marks = no_marks(alloc, design.cells.len())?;
    let mut met = Seq::new(alloc);
    meet_inner(index, design, &mut marks, &mut met, top)?;
    for at in 0..usize::MAX {
        let Some(number) = number_at(&met, at) else {
            return Ok(marks);
        };
        meet_inner(index, design, &mut marks, &mut met, number)?;
    }
    Err(NoMemory)
}
