//! The outputs of whole instances.

ghost use Rattle.std.specs.Prelude.{◌≡◌, ◌<◌, Some, length, slice_get};
ghost use Rattle.vrt_model.specs.Path.{level_of_drive};

use vrt_model::{Drive, WholePin};

/// The output at a place of a list.
pub(crate) fn pin_at(outputs: &[WholePin], at: usize) -> &WholePin
    requires { at < length outputs.now }
    ensures { slice_get outputs.now at ≡ Some result.now }
{
    &outputs[at]
}

/// The level of the root at an output, by its drive: the source level, where nothing is said.
pub(crate) fn drive_level(source: u8, drive: Drive) -> u32
    ensures { result ≡ level_of_drive source drive }
{
    match drive {
        Drive::Soft => source as u32,
        Drive::Level(level) => level as u32,
    }
}
