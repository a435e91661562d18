//! The ends of holds as keys: two holds lead to the same end exactly where their keys are the same.

ghost use Rattle.std.specs.Prelude.{◌≡◌, IfOk};
ghost use Rattle.hold_groups.specs.Grouped.{end_kind, end_name, end_number, key_of};

use std::alloc::Global;
use vrt_model::{HoldEnd, NoMemory, Text};

/// Which kind of end it is, as a byte.
fn end_kind(end: &HoldEnd) -> u8
    ensures { result ≡ end_kind end.now }
{
    match end {
        HoldEnd::Own(_) => 0,
        HoldEnd::Latch { instance: None, .. } => 1,
        HoldEnd::Latch {
            instance: Some(_),
            ..
        } => 2,
    }
}

/// The net or the instance of an end, 0 for an element of the checked cell.
fn end_number(end: &HoldEnd) -> u32
    ensures { result ≡ end_number end.now }
{
    match end {
        HoldEnd::Own(net) => net.0,
        HoldEnd::Latch { instance: None, .. } => 0,
        HoldEnd::Latch {
            instance: Some(instance),
            ..
        } => *instance,
    }
}

/// The name of the element of an end, empty for a net.
fn end_name(end: &HoldEnd) -> &[u8]
    ensures { result.now ≡ end_name end.now }
{
    match end {
        HoldEnd::Own(_) => &[],
        HoldEnd::Latch { element, .. } => element.as_bytes(),
    }
}

/// The key of an end: a byte for its kind, four for its number, and its name.
pub(crate) fn key_of(alloc: Global, end: &HoldEnd) -> Result<Text, NoMemory>
    ensures { IfOk result (λ key. key ≡ key_of end.now) }
{
    let mut key = Text::from_bytes(alloc, &[end_kind(end)])?;
    let number = end_number(end).to_le_bytes();
    key.extend(&number)?;
    key.extend(end_name(end))?;
    Ok(key)
}
