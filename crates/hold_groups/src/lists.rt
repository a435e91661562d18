//! Lists that grow, and numbers of 32 bits.

ghost use Rattle.std.specs.Prelude.{◌≡◌, ◌+◌, ◌++◌, ◌∷◌, [], IfOk, OnOk};
ghost use Rattle.std.specs.List.{cons_option};

use std::alloc::Global;
use vrt_model::{NoMemory, Seq, Text};

/// Adds an item, if there is one.
pub(crate) fn add_some<T: Copy>(list: &mut Seq<T>, item: Option<T>) -> Result<(), NoMemory>
    ensures { OnOk result (list.new ≡ list.old ++ cons_option item []) }
{
    let Some(item) = item else {
        return Ok(());
    };
    match list.push(item) {
        Ok(()) => Ok(()),
        Err(_) => Err(NoMemory),
    }
}

/// Adds a copy of a name.
pub(crate) fn add_name(alloc: Global, list: &mut Seq<Text>, name: &[u8]) -> Result<(), NoMemory>
    ensures { OnOk result (list.new ≡ list.old ++ name.now ∷ []) }
{
    let text = Text::from_bytes(alloc, name)?;
    list.append(text)
}

/// Adds a copy of a name with more bytes at its end.
pub(crate) fn add_longer(
    alloc: Global,
    list: &mut Seq<Text>,
    name: &[u8],
    more: &[u8],
) -> Result<(), NoMemory>
    ensures { OnOk result (list.new ≡ list.old ++ (name.now ++ more.now) ∷ []) }
{
    let mut text = Text::from_bytes(alloc, name)?;
    text.extend(more)?;
    list.append(text)
}

/// The number after a number. Where it needs more than 32 bits, it is refused as want of memory.
pub(crate) fn next(number: u32) -> Result<u32, NoMemory>
    ensures { IfOk result (λ n. n ≡ number + 1) }
{
    match number.checked_add(1) {
        Some(next) => Ok(next),
        None => Err(NoMemory),
    }
}

/// A number as one of 32 bits. Where it needs more, it is refused as want of memory.
pub(crate) fn small(number: usize) -> Result<u32, NoMemory>
    ensures { IfOk result (λ n. n ≡ number) }
{
    match u32::try_from(number) {
        Ok(number) => Ok(number),
        Err(_) => Err(NoMemory),
    }
}
