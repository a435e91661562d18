//! Places that are unrolled, each behind the one before.

ghost use Rattle.std.specs.Prelude.{◌≡◌, ◌<◌, ◌≤◌, ◌+◌, ◌^◌, ◌++◌, length, IfOk, OnOk};
ghost use Rattle.net_places.specs.Places.{AreWithin, own_below, places_below};

use crate::places::{Place, copy_place, place_inside};
use net_tables::NetTables;
use std::alloc::Global;
use vrt_model::{Design, Net, NoMemory, Seq};

/// Adds a place and all places in it, at most so deep. It answers the flat net behind their own nets. It takes time in
/// proportion to the cards that are unrolled.
pub(crate) fn unroll_from(
    alloc: Global,
    design: &Design,
    tables: &NetTables,
    globals: &[Net],
    depth: u32,
    place: &Place,
    places: &mut Seq<Place>,
) -> Result<u32, NoMemory>
    requires within { AreWithin tables.now }
    requires room { place.now.base + own_below tables.now depth place.now.cell < 2 ^ 32 }
    requires deep { place.now.depth + depth ≤ 32 }
    ensures places { OnOk result (places.new ≡ places.old ++ places_below design.now tables.now globals.now depth (length places.old) place.now) }
    ensures next { IfOk result (λ next. next ≡ place.now.base + own_below tables.now depth place.now.cell) }
{
    let number = places.len();
    let own = copy_place(alloc, place)?;
    places.append(own)?;
    let Some(nets) = tables.cells.get(place.cell) else {
        return Ok(place.base);
    };
    let mut next = place.base + nets.names.own.len() as u32;
    if depth == 0 {
        return Ok(next);
    }
    let below = depth - 1;
    for (card, instance) in nets.instances.as_slice().iter().enumerate() {
        let inner = place_inside(alloc, design, globals, number, place, card, instance, next)?;
        next = unroll_from(alloc, design, tables, globals, below, &inner, places)?;
    }
    Ok(next)
}
