//! Lists.

ghost use Rattle.std.specs.Prelude.{◌≡◌, ◌∷◌, ◌++◌, [], OnOk, OnErr};

use vrt_model::{NoMemory, Seq};

/// Adds an item at the end of a list. Where memory is wanting, the list is as it was.
pub fn append<T: Drop>(list: &mut Seq<T>, item: T) -> Result<(), NoMemory>
    ensures ok { OnOk result (list.new ≡ list.old ++ item ∷ []) }
    ensures err { OnErr result (list.new ≡ list.old) }
{
    match list.push(item) {
        Ok(()) => Ok(()),
        Err(_) => Err(NoMemory),
    }
}
