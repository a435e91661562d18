//! Lists of nets.

ghost use Rattle.std.specs.Prelude.{◌≡◌, ◌++◌, ◌∷◌, [], IfOk, OnOk};

use std::alloc::Global;
use vrt_model::NoMemory;

/// Adds a net at the end.
pub(crate) fn append(list: &mut Vec<usize>, net: usize) -> Result<(), NoMemory>
    ensures { OnOk result (list.new.items ≡ list.old.items ++ net ∷ []) }
{
    match list.push(net) {
        Ok(()) => Ok(()),
        Err(_) => Err(NoMemory),
    }
}

/// Adds nets at the end.
pub(crate) fn append_all(list: &mut Vec<usize>, nets: &[usize]) -> Result<(), NoMemory>
    ensures { OnOk result (list.new.items ≡ list.old.items ++ nets.now) }
{
    match list.extend_from_slice(nets) {
        Ok(()) => Ok(()),
        Err(_) => Err(NoMemory),
    }
}

/// A list of the same nets.
pub(crate) fn copied(alloc: Global, nets: &[usize]) -> Result<Vec<usize>, NoMemory>
    ensures { IfOk result (λ t. t.items ≡ nets.now) }
{
    match nets.iter().copied().collect(alloc) {
        Ok(list) => Ok(list),
        Err(_) => Err(NoMemory),
    }
}
