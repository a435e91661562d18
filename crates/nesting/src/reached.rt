//! Whether one contains itself.

ghost use Rattle.std.specs.Prelude.{◌≡◌, ◌<◌, true, false, length, IfOk, OnOk};
ghost use Rattle.vrt_model.specs.Nesting.{ContainsItself};
ghost use Rattle.nesting.specs.Depths.{AreInside, in_list};
ghost use Rattle.nesting.specs.Reached.{AreWithin, HasMet};

use crate::search::{is_marked, meet, no_marks, number_at};
use std::alloc::Global;
use vrt_model::{NoMemory, Seq};

/// Meets numbers.
fn meet_all(marks: &mut Vec<bool>, met: &mut Seq<usize>, numbers: &[usize]) -> Result<(), NoMemory>
    ensures { OnOk result (HasMet marks.old.items marks.new.items met.old met.new numbers.now) }
{
    for number in numbers {
        meet(marks, met, *number)?;
    }
    Ok(())
}

/// The numbers that stand directly in one.
fn inner_at(inner: &[Seq<usize>], number: usize) -> &[usize]
    ensures { result.now ≡ in_list inner.now number }
{
    if number < inner.len() {
        inner[number].as_slice()
    } else {
        &[]
    }
}

/// Marks of those that stand in one, at any depth, in time in proportion to the lists that are met.
fn marks_within(alloc: Global, inner: &[Seq<usize>], top: usize) -> Result<Vec<bool>, NoMemory>
    requires { AreInside inner.now }
    ensures { IfOk result (λ marks. AreWithin (in_list inner.now) top marks.items) }
{
    let mut marks = no_marks(alloc, inner.len())?;
    let mut met = Seq::new(alloc);
    meet_all(&mut marks, &mut met, inner_at(inner, top))?;
    for at in 0..usize::MAX {
        let Some(number) = number_at(&met, at) else {
            return Ok(marks);
        };
        meet_all(&mut marks, &mut met, inner_at(inner, number))?;
    }
    Err(NoMemory)
}

/// Whether one stands in itself, at any depth.
pub(crate) fn is_in_itself(
    alloc: Global,
    inner: &[Seq<usize>],
    top: usize,
) -> Result<bool, NoMemory>
    requires inside { AreInside inner.now }
    requires there { top < length inner.now }
    ensures yes { IfOk result (λ b. b ≡ true → ContainsItself (in_list inner.now) top) }
    ensures no { IfOk result (λ b. b ≡ false → ¬ ContainsItself (in_list inner.now) top) }
{
    let marks = marks_within(alloc, inner, top)?;
    Ok(is_marked(marks.as_slice(), top))
}
