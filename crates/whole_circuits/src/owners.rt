//! The places at which devices stand.

ghost use Rattle.std.specs.Prelude.{◌≡◌, ◌+◌, ◌++◌, ◌∷◌, [], IfOk, OnOk, replicate};
ghost use Rattle.net_places.specs.Links.{IsUnrolled};
ghost use Rattle.whole_circuits.specs.Shown.{card_count, device_places, devices_before};
ghost use Rattle.vrt_model.specs.Unrolled.{Top};

use net_places::Unrolled;
use std::alloc::Global;
use vrt_model::{Design, NoMemory};

/// How many transistors a cell has, none where there is no such cell.
fn card_count(design: &Design, cell: usize) -> usize
    ensures { result ≡ card_count design.now cell }
{
    match design.cells.get(cell) {
        Some(found) => found.devices.len(),
        None => 0,
    }
}

/// Adds a number at the end.
fn add(numbers: &mut Vec<usize>, number: usize) -> Result<(), NoMemory>
    ensures { OnOk result (numbers.new.items ≡ numbers.old.items ++ number ∷ []) }
{
    match numbers.push(number) {
        Ok(()) => Ok(()),
        Err(_) => Err(NoMemory),
    }
}

/// Adds a number so many times.
fn add_times(numbers: &mut Vec<usize>, number: usize, count: usize) -> Result<(), NoMemory>
    ensures { OnOk result (numbers.new.items ≡ numbers.old.items ++ replicate count number) }
{
    for _at in 0..count {
        add(numbers, number)?;
    }
    Ok(())
}

/// The next number.
pub(crate) fn one_more(number: usize) -> Result<usize, NoMemory>
    ensures { IfOk result (λ next. next ≡ number + 1) }
{
    match number.checked_add(1) {
        Some(next) => Ok(next),
        None => Err(NoMemory),
    }
}

/// How many devices stand at places before one, by the places of the devices. It looks at some places alone, since they rise.
pub fn devices_before(places: &[usize], place: usize) -> usize
    ensures { (t : Top) → places.now ≡ device_places t → result ≡ devices_before t place }
{
    let mut low = 0;
    let mut high = places.len();
    'halves: while low < high {
        let middle = low + (high - low) / 2;
        if places[middle] < place {
            low = middle + 1;
        } else {
            high = middle;
        }
    }
    low
}

/// For each device of an unrolled cell the number of the place at which it stands.
pub fn device_places(
    alloc: Global,
    design: &Design,
    unrolled: &Unrolled,
) -> Result<Vec<usize>, NoMemory>
    ensures { IfOk result (λ places. (t : Top) → t.design ≡ design.now → IsUnrolled t unrolled.now → places.items ≡ device_places t) }
{
    let mut owners = Vec::new(alloc);
    let mut at = 0;
    let mut rest = unrolled.places.as_slice();
    'places: while let Some((place, behind)) = rest.split_first() {
        add_times(&mut owners, at, card_count(design, place.cell))?;
        at = one_more(at)?;
        rest = behind;
    }
    Ok(owners)
}
