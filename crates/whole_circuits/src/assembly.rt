//! The circuit of a cell with some of its instances left whole.

ghost use Rattle.std.specs.Prelude.{◌≡◌, All, IfOk, List};
ghost use Rattle.net_places.specs.Instances.{AreSmall};
ghost use Rattle.whole_circuits.specs.Insides.{IsCutAt};
ghost use Rattle.whole_circuits.specs.Shown.{AreMarks, device_places};
ghost use Rattle.whole_circuits.specs.WholeCells.{AreWholeCells};
ghost use Rattle.vrt_model.specs.Checked.{IsCircuitWith};
ghost use Rattle.vrt_model.specs.Circuits.{IsCircuit, IsHold};
ghost use Rattle.vrt_model.specs.Cut.{Cut};
ghost use Rattle.vrt_model.specs.FlatCircuit.{flat_circuit_of};
ghost use Rattle.vrt_model.specs.declared.blif.Blif.{Blif as BlifValue};
ghost use Rattle.vrt_model.specs.declared.whole.CellFacts.{CellFacts as FactsValue};

use crate::copies::copy_nets;
use crate::ends::net_ends;
use crate::holds::moved_holds;
use crate::marks::Marks;
use crate::shown::{shown_devices, shown_instances};
use crate::whole_cell::WholeCell;
use crate::wholes::wholes_of;
use net_places::Unrolled;
use std::alloc::Global;
use vrt_model::{Circuit, NoMemory, Phase};

/// The circuit of a cell with the instances left whole that have marks, from its flat circuit and from a table of what the
/// instances of each cell have in common: its nets keep their numbers, the devices and instances inside whole instances
/// go, and holds stay. It takes time and memory in proportion to the flat circuit and to the models and links of the
/// whole instances.
pub fn circuit_with(
    alloc: Global,
    phases: &[Phase],
    flat: &Circuit,
    unrolled: &Unrolled,
    places: &[usize],
    cells: &[Option<WholeCell>],
    marks: &Marks,
) -> Result<Circuit, NoMemory>
    requires holds { All (IsHold flat.now) flat.now.holds }
    requires small { AreSmall unrolled.now.places }
    ensures { IfOk result (λ circuit. (cut : Cut) (blif : BlifValue) (facts : List FactsValue) → IsCutAt cut unrolled.now marks.now.whole.items → AreMarks cut marks.now → flat.now ≡ flat_circuit_of cut.top → IsCircuit flat.now → places.now ≡ device_places cut.top → AreWholeCells cut blif facts unrolled.now phases.now cells.now → IsCircuitWith cut blif facts circuit) }
{
    let whole = marks.whole.as_slice();
    let devices = shown_devices(alloc, marks, places, flat.devices.as_slice())?;
    let count = flat.nets.len();
    let ends = net_ends(alloc, count, devices.as_slice(), cells, whole, unrolled)?;
    let wholes = wholes_of(alloc, phases, &ends, cells, whole, unrolled)?;
    let holds = moved_holds(alloc, marks, flat)?;
    let instances = shown_instances(alloc, marks, flat.instances.as_slice())?;
    let nets = copy_nets(alloc, flat.nets.as_slice())?;
    Ok(Circuit {
        nets,
        devices,
        holds,
        instances,
        wholes,
        source: flat.source,
    })
}
