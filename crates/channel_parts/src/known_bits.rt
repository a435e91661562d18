//! The bits of known nets as a list.

ghost use Rattle.std.specs.Prelude.{◌≡◌, IfOk};

use std::alloc::Global;
use vrt_model::{NoMemory, Seq};

/// A copy of the bits of known nets.
pub(crate) fn copied(alloc: Global, known: &[Option<bool>]) -> Result<Seq<Option<bool>>, NoMemory>
    ensures { IfOk result (λ copy. copy ≡ known.now) }
{
    let mut copy = Seq::new(alloc);
    for bit in known {
        copy.append(*bit)?;
    }
    Ok(copy)
}
