//! The devices and instances of a flat circuit that are left where some of its instances are whole.

ghost use Rattle.std.specs.Prelude.{◌≡◌, ◌++◌, ◌∷◌, [], IfOk, OnOk, cond};
ghost use Rattle.whole_circuits.specs.Shown.{AreMarks, device_places, devices_left};
ghost use Rattle.vrt_model.specs.CheckedParts.{checked_devices, checked_instances};
ghost use Rattle.vrt_model.specs.Cut.{Cut};
ghost use Rattle.vrt_model.specs.FlatCircuit.{flat_devices, flat_instances};

use crate::copies::copy_items;
use crate::marks::{Marks, is_left_at};
use crate::owners::one_more;
use known_nets::is_marked;
use std::alloc::Global;
use vrt_model::{Device, FlatInstance, NoMemory, Seq, Text};

/// A copy of a device.
fn copy_device(alloc: Global, device: &Device) -> Result<Device, NoMemory>
    ensures { IfOk result (λ copy. copy ≡ device.now) }
{
    let name = Text::from_bytes(alloc, device.name.as_bytes())?;
    Ok(Device {
        name,
        kind: device.kind,
        gate: device.gate,
        left: device.left,
        right: device.right,
        level: device.level,
        keeper: device.keeper,
    })
}

/// Adds a copy of a device, unless its place is left out.
fn add_device(
    alloc: Global,
    shown: &mut Seq<Device>,
    device: &Device,
    left_out: bool,
) -> Result<(), NoMemory>
    ensures { OnOk result (shown.new ≡ shown.old ++ cond left_out [] (device.now ∷ [])) }
{
    if left_out {
        return Ok(());
    }
    let copy = copy_device(alloc, device)?;
    shown.append(copy)
}

/// The devices that are left where some instances are whole: those of the places that are neither whole nor inside a whole
/// one. The devices are those of the flat circuit, with the places at which they stand.
pub fn shown_devices(
    alloc: Global,
    marks: &Marks,
    places: &[usize],
    devices: &[Device],
) -> Result<Seq<Device>, NoMemory>
    ensures { IfOk result (λ shown. (cut : Cut) → AreMarks cut marks.now → places.now ≡ device_places cut.top → devices.now ≡ flat_devices cut.top → shown ≡ checked_devices cut) }
{
    let mut shown = Seq::new(alloc);
    let mut places_left = places;
    let mut devices_left = devices;
    'devices: while let (Some((place, places)), Some((device, devices))) = (
        places_left.split_first(),
        devices_left.split_first(),
    ) {
        add_device(alloc, &mut shown, device, is_left_at(marks, *place))?;
        places_left = places;
        devices_left = devices;
    }
    Ok(shown)
}

/// A copy of an instance.
fn copy_instance(alloc: Global, instance: &FlatInstance) -> Result<FlatInstance, NoMemory>
    ensures { IfOk result (λ copy. copy ≡ instance.now) }
{
    let path = Text::from_bytes(alloc, instance.path.as_bytes())?;
    let ports = copy_items(alloc, instance.ports.as_slice())?;
    Ok(FlatInstance {
        path,
        cell: instance.cell,
        ports,
    })
}

/// Adds a copy of an instance, unless it is inside a whole one.
fn add_instance(
    alloc: Global,
    shown: &mut Seq<FlatInstance>,
    instance: &FlatInstance,
    inside: bool,
) -> Result<(), NoMemory>
    ensures { OnOk result (shown.new ≡ shown.old ++ cond inside [] (instance.now ∷ [])) }
{
    if inside {
        return Ok(());
    }
    let copy = copy_instance(alloc, instance)?;
    shown.append(copy)
}

/// The instances that are not inside whole ones, of those of the flat circuit.
pub fn shown_instances(
    alloc: Global,
    marks: &Marks,
    instances: &[FlatInstance],
) -> Result<Seq<FlatInstance>, NoMemory>
    ensures { IfOk result (λ shown. (cut : Cut) → AreMarks cut marks.now → instances.now ≡ flat_instances cut.top → shown ≡ checked_instances cut) }
{
    let inside = marks.inside.as_slice();
    let mut shown = Seq::new(alloc);
    let mut place = 1;
    let mut rest = instances;
    'instances: while let Some((instance, behind)) = rest.split_first() {
        add_instance(alloc, &mut shown, instance, is_marked(inside, place))?;
        place = one_more(place)?;
        rest = behind;
    }
    Ok(shown)
}
