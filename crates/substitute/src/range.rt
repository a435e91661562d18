//! An instance and what is inside it: a range of places, and one of devices.

ghost use Rattle.std.specs.Prelude.{◌≡◌, ◌<◌, ◌≤◌, ℕ, List, length, suc};
ghost use Rattle.std.specs.List.{slice_range};
ghost use Rattle.net_places.specs.Links.{IsUnrolled};
ghost use Rattle.vrt_model.specs.Inputs.{IsDesign};
ghost use Rattle.vrt_model.specs.Unrolled.{Top};
ghost use Rattle.vrt_model.specs.declared.blif.Blif.{Blif as BlifValue};
ghost use Rattle.vrt_model.specs.declared.whole.CellFacts.{CellFacts as FactsValue};
ghost use Rattle.substitute.specs.Ranges.{IsEnd, devices_gone};
ghost use Rattle.substitute.specs.Underway.{AreTables};

use crate::tables::Tables;
use net_places::Unrolled;
use vrt_model::Device;
use whole_circuits::{devices_before, place_at};

/// The number of the first place behind an instance that is not inside it.
fn end_of(unrolled: &Unrolled, at: usize) -> usize
    requires { at < length unrolled.now.places }
    ensures { (t : Top) (i : ℕ) → IsDesign t.design → IsUnrolled t unrolled.now → at ≡ suc i → IsEnd t i result }
{
    let count = unrolled.places.len();
    for end in at + 1..count {
        if place_at(unrolled, end).around < at {
            return end;
        }
    }
    count
}

/// The devices from one number up to another, none where there are no such numbers.
fn part(devices: &[Device], from: usize, to: usize) -> &[Device]
    ensures { from ≤ to → to ≤ length devices.now → result.now ≡ slice_range devices.now from to }
{
    if from <= to && to <= devices.len() {
        &devices[from..to]
    } else {
        &[]
    }
}

/// The devices of an instance and of all inside it.
pub fn devices_gone<'a>(tables: Tables<'a>, at: usize) -> &'a [Device]
    requires { at < length tables.unrolled.now.places }
    ensures { (t : Top) (blif : BlifValue) (facts : List FactsValue) (i : ℕ) → at ≡ suc i → AreTables t blif facts tables.entry → result.now ≡ devices_gone t i }
{
    let end = end_of(tables.unrolled, at);
    let from = devices_before(tables.owners, at);
    let to = devices_before(tables.owners, end);
    part(tables.flat.devices.as_slice(), from, to)
}
