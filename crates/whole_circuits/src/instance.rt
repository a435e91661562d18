//! An instance that is left whole.

ghost use Rattle.std.specs.Prelude.{◌≡◌, ◌<◌, ◌^◌, IfOk, List};
ghost use Rattle.whole_circuits.specs.Ends.{HasEnds};
ghost use Rattle.whole_circuits.specs.WholeCells.{IsPlacedWhole, IsWholeCell};
ghost use Rattle.vrt_model.specs.Cut.{Cut, NumberedPlace, whole_places};
ghost use Rattle.vrt_model.specs.Lists.{Among};
ghost use Rattle.vrt_model.specs.WholeInstances.{IsWholeAt};
ghost use Rattle.vrt_model.specs.declared.blif.Blif.{Blif as BlifValue};
ghost use Rattle.vrt_model.specs.declared.circuit.Circuit.{Circuit as CircuitValue};
ghost use Rattle.vrt_model.specs.declared.whole.CellFacts.{CellFacts as FactsValue};

use crate::copies::{copy_items, copy_model};
use crate::ends::{NetEnds, settled_pins};
use crate::links::whole_links;
use crate::pins::{driven_pins, input_pins};
use crate::whole_cell::WholeCell;
use net_places::Place;
use std::alloc::Global;
use vrt_model::{NoMemory, Phase, Text, Whole};

/// The instance at a place as a whole one: its pins are at the nets to which the place ties the ports of the cell, an output has the drive
/// that is told of it, and is soft where it meets gates alone; and its links are those of the cell.
pub(crate) fn whole_at(
    alloc: Global,
    phases: &[Phase],
    ends: &NetEnds,
    own: &WholeCell,
    place: &Place,
) -> Result<Whole, NoMemory>
    requires { place.now.cell < 2 ^ 32 }
    ensures { IfOk result (λ whole. (cut : Cut) (blif : BlifValue) (facts : List FactsValue) (c : CircuitValue) (p : NumberedPlace) → cut.top.rules.phases ≡ phases.now → HasEnds cut blif facts c ends.now → Among (whole_places cut) p → IsWholeCell cut.top blif facts p.at.cell own.now → IsPlacedWhole cut.top blif p place.now → IsWholeAt cut blif facts p whole) }
{
    let nets = place.ports.as_slice();
    let ports = own.ports.as_slice();
    let inputs = input_pins(alloc, ports, nets, own.observed.as_slice())?;
    let pins = driven_pins(alloc, ports, nets, own.drives.as_slice())?;
    let outputs = settled_pins(alloc, ends, pins.as_slice())?;
    let links = whole_links(
        alloc,
        phases,
        ports,
        nets,
        outputs.as_slice(),
        own.links.as_slice(),
    )?;
    let path = Text::from_bytes(alloc, place.path.as_bytes())?;
    let clocked = copy_items(alloc, own.clocked.as_slice())?;
    let model = copy_model(alloc, &own.model)?;
    Ok(Whole {
        path,
        cell: place.cell as u32,
        model,
        clocked,
        inputs,
        outputs,
        links,
    })
}
