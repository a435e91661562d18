//! Copies of names, and lists that grow.

ghost use Rattle.std.specs.Prelude.{◌≡◌, ◌++◌, ◌∷◌, [], IfOk, OnOk};

use std::alloc::Global;
use vrt_model::{NoMemory, Seq, Text};

/// A copy of a name.
pub fn copy(alloc: Global, name: &Text) -> Result<Text, NoMemory>
    ensures { IfOk result (λ text. text ≡ name.now) }
{
    Text::from_bytes(alloc, name.as_bytes())
}

/// Copies of two names.
pub fn copy_two(alloc: Global, first: &Text, second: &Text) -> Result<(Text, Text), NoMemory>
    ensures { IfOk result (λ two. (two.0 ≡ first.now) × (two.1 ≡ second.now)) }
{
    let first = copy(alloc, first)?;
    let second = copy(alloc, second)?;
    Ok((first, second))
}

/// Adds an item at the end of a list.
pub fn append<T: Drop>(list: &mut Seq<T>, item: T) -> Result<(), NoMemory>
    ensures { OnOk result (list.new ≡ list.old ++ item ∷ []) }
{
    match list.push(item) {
        Ok(()) => Ok(()),
        Err(_) => Err(NoMemory),
    }
}
