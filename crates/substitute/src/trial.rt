//! The marks at the places of a cell where an instance that is tried is whole too.

ghost use Rattle.std.specs.Prelude.{◌≡◌, ◌<◌, ◌||◌, ◌==◌, ℕ, IfOk, length};
ghost use Rattle.whole_circuits.specs.Insides.{IsCutAt};
ghost use Rattle.whole_circuits.specs.Shown.{AreMarks};
ghost use Rattle.vrt_model.specs.Cut.{Cut};
ghost use Rattle.vrt_model.specs.Lists.{mark_at};
ghost use Rattle.substitute.specs.Trial.{AreMarksBeside};

use crate::taken::mark;
use net_places::Unrolled;
use std::alloc::Global;
use vrt_model::NoMemory;
use whole_circuits::{Marks, inside_marks};

/// A copy of marks.
pub(crate) fn copy_marks(alloc: Global, marks: &[bool]) -> Result<Vec<bool>, NoMemory>
    ensures { IfOk result (λ copy. copy.items ≡ marks.now) }
{
    match marks.to_vec(alloc) {
        Ok(copy) => Ok(copy),
        Err(_) => Err(NoMemory),
    }
}

/// The marks of both kinds at the places of an unrolled cell, by those of its whole instances.
pub fn marks_with(alloc: Global, unrolled: &Unrolled, whole: &[bool]) -> Result<Marks, NoMemory>
    ensures same { IfOk result (λ marks. marks.whole.items ≡ whole.now) }
    ensures are { IfOk result (λ marks. (cut : Cut) → IsCutAt cut unrolled.now whole.now → AreMarks cut marks) }
{
    let inside = inside_marks(alloc, unrolled, whole)?;
    let whole = copy_marks(alloc, whole)?;
    Ok(Marks { whole, inside })
}

/// A copy of marks with one more.
fn with_mark(alloc: Global, whole: &[bool], at: usize) -> Result<Vec<bool>, NoMemory>
    requires { at < length whole.now }
    ensures { IfOk result (λ marks. (n : ℕ) → mark_at marks.items n ≡ (mark_at whole.now n || at == n)) }
{
    let mut marks = copy_marks(alloc, whole)?;
    mark(&mut marks, at);
    Ok(marks)
}

/// The marks of both kinds where one more instance is whole.
pub fn marks_beside(
    alloc: Global,
    unrolled: &Unrolled,
    whole: &[bool],
    at: usize,
) -> Result<Marks, NoMemory>
    requires { at < length whole.now }
    ensures { IfOk result (λ marks. AreMarksBeside unrolled.now whole.now at marks) }
{
    let with = with_mark(alloc, whole, at)?;
    marks_with(alloc, unrolled, with.as_slice())
}
