//! Marks by net.

ghost use Rattle.std.specs.Prelude.{◌≡◌, false, replicate, IfOk};
ghost use Rattle.vrt_model.specs.Lists.{mark_at};

use std::alloc::Global;
use vrt_model::NoMemory;

/// As many marks as there are nets, none of them set.
pub fn no_marks(alloc: Global, count: usize) -> Result<Vec<bool>, NoMemory>
    ensures { IfOk result (λ t. t.items ≡ replicate count false) }
{
    match vec![in alloc; false; count] {
        Ok(marks) => Ok(marks),
        Err(_) => Err(NoMemory),
    }
}

/// Whether a net is marked. None is past the end.
pub fn is_marked(marks: &[bool], net: usize) -> bool
    ensures { result ≡ mark_at marks.now net }
{
    if net < marks.len() { marks[net] } else { false }
}
