//! The instances of an unrolled cell.

ghost use Rattle.std.specs.Prelude.{◌≡◌, ◌<◌, ◌^◌, IfOk, map};
ghost use Rattle.net_places.specs.Instances.{AreSmall, instance_by};
ghost use Rattle.net_places.specs.Links.{IsUnrolled};
ghost use Rattle.vrt_model.specs.FlatCircuit.{flat_instances as all_instances};
ghost use Rattle.vrt_model.specs.Unrolled.{Top};

use crate::places::{Place, copy_nets};
use crate::whole::Unrolled;
use std::alloc::Global;
use vrt_model::{FlatInstance, NoMemory, Seq, Text};

/// The instance at a place.
fn instance_at(alloc: Global, place: &Place) -> Result<FlatInstance, NoMemory>
    requires { place.now.cell < 2 ^ 32 }
    ensures { IfOk result (λ instance. instance ≡ instance_by place.now) }
{
    let path = Text::from_bytes(alloc, place.path.as_bytes())?;
    let ports = copy_nets(alloc, place.ports.as_slice())?;
    Ok(FlatInstance {
        path,
        cell: place.cell as u32,
        ports,
    })
}

/// The instances at places.
fn instances_at(alloc: Global, places: &[Place]) -> Result<Seq<FlatInstance>, NoMemory>
    requires { AreSmall places.now }
    ensures { IfOk result (λ instances. instances ≡ map instance_by places.now) }
{
    let mut instances = Seq::new(alloc);
    for place in places {
        let instance = instance_at(alloc, place)?;
        instances.append(instance)?;
    }
    Ok(instances)
}

/// The instances of an unrolled cell: all places but the cell itself, in instance order. The numbers of their cells are to
/// fit 32 bits, as those of a netlist do.
pub fn flat_instances(alloc: Global, unrolled: &Unrolled) -> Result<Seq<FlatInstance>, NoMemory>
    requires { AreSmall unrolled.now.places }
    ensures { IfOk result (λ instances. (t : Top) → IsUnrolled t unrolled.now → instances ≡ all_instances t) }
{
    match unrolled.places.as_slice().split_first() {
        Some((_, inner)) => instances_at(alloc, inner),
        None => Ok(Seq::new(alloc)),
    }
}
