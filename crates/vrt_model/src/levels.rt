//! The two scales of levels.

ghost use Rattle.std.specs.Prelude.{◌≡◌};
ghost use Rattle.vrt_model.specs.Levels.{least_by, source_by, usual_at};

/// The scale of rules that say none.
pub const USUAL_SCALE: u8 = 8;

/// The fine scale, of fifteen levels.
pub const FINE_SCALE: u8 = 16;

/// The level of sources at the usual scale.
pub const USUAL_SOURCE: u8 = 8;

/// The level of sources at the fine scale, the greatest of all levels.
pub const MOST_SOURCE: u8 = 15;

/// A place for each level at either scale, from 0 to the greatest.
pub const LEVEL_COUNTS: u8 = 16;

/// The level of sources, by whether the scale is the fine one.
pub(crate) fn source_by(fine: bool) -> u8
    ensures { result ≡ source_by fine }
{
    if fine { MOST_SOURCE } else { USUAL_SOURCE }
}

/// The least level of a device.
pub(crate) fn least_by(fine: bool) -> u8
    ensures { result ≡ least_by fine }
{
    if fine { 6 } else { 4 }
}

/// The level of a device for which no rule has one, at a scale.
pub fn usual_at(scale: u8) -> u8
    ensures { result ≡ usual_at scale }
{
    if scale == FINE_SCALE { 10 } else { 6 }
}
