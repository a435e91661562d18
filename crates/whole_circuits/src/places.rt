//! The places of an unrolled cell by their numbers.

ghost use Rattle.std.specs.Prelude.{◌<◌, length};
ghost use Rattle.vrt_model.specs.Lists.{At};

use net_places::{Place, Unrolled};

/// The place with a number.
pub fn place_at(unrolled: &Unrolled, at: usize) -> &Place
    requires { at < length unrolled.now.places }
    ensures { At unrolled.entry.now.places at result.now }
{
    &unrolled.places.as_slice()[at]
}
