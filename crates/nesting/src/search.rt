//! The steps of a search down from one: a mark for each number, and a list of those that were met.

ghost use Rattle.std.specs.Prelude.{◌≡◌, ◌++◌, ◌∷◌, [], false, replicate, slice_get, IfOk, OnOk};
ghost use Rattle.vrt_model.specs.Lists.{mark_at};
ghost use Rattle.nesting.specs.Reached.{HasMet};

use std::alloc::Global;
use vrt_model::{NoMemory, Seq};

/// Adds a number at the end.
fn append(list: &mut Seq<usize>, number: usize) -> Result<(), NoMemory>
    ensures { OnOk result (list.new ≡ list.old ++ number ∷ []) }
{
    match list.push(number) {
        Ok(()) => Ok(()),
        Err(_) => Err(NoMemory),
    }
}

/// No marks.
pub fn no_marks(alloc: Global, count: usize) -> Result<Vec<bool>, NoMemory>
    ensures { IfOk result (λ marks. marks.items ≡ replicate count false) }
{
    match vec![in alloc; false; count] {
        Ok(marks) => Ok(marks),
        Err(_) => Err(NoMemory),
    }
}

/// Whether a number is marked.
pub fn is_marked(marks: &[bool], number: usize) -> bool
    ensures { result ≡ mark_at marks.now number }
{
    if number < marks.len() {
        marks[number]
    } else {
        false
    }
}

/// Marks a number and puts it behind those that were met, unless it was met before.
pub fn meet(marks: &mut Vec<bool>, met: &mut Seq<usize>, number: usize) -> Result<(), NoMemory>
    ensures { OnOk result (HasMet marks.old.items marks.new.items met.old met.new (number ∷ [])) }
{
    if number < marks.len() && !is_marked(marks.as_slice(), number) {
        append(met, number)?;
        marks[number] = true;
    }
    Ok(())
}

/// The number that was met at a place, if there is one.
pub fn number_at(met: &Seq<usize>, at: usize) -> Option<usize>
    ensures { result ≡ slice_get met.now at }
{
    met.get(at).copied()
}
