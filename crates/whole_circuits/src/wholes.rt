//! The instances of an unrolled cell that are left whole.

ghost use Rattle.std.specs.Prelude.{◌≡◌, ◌<◌, ◌^◌, ◌++◌, ◌∷◌, [], IfOk, OnOk, List, Some, length};
ghost use Rattle.std.specs.List.{AllZip};
ghost use Rattle.net_places.specs.Instances.{AreSmall};
ghost use Rattle.whole_circuits.specs.Ends.{HasEnds};
ghost use Rattle.whole_circuits.specs.Insides.{IsCutAt};
ghost use Rattle.whole_circuits.specs.WholeCells.{AreWholeCells, GrowsTo, IsPlacedWhole, IsWholeCell};
ghost use Rattle.vrt_model.specs.Cut.{Cut, NumberedPlace, whole_places};
ghost use Rattle.vrt_model.specs.Lists.{Among};
ghost use Rattle.vrt_model.specs.WholeInstances.{IsWholeAt};
ghost use Rattle.vrt_model.specs.declared.blif.Blif.{Blif as BlifValue};
ghost use Rattle.vrt_model.specs.declared.circuit.Circuit.{Circuit as CircuitValue};
ghost use Rattle.vrt_model.specs.declared.whole.CellFacts.{CellFacts as FactsValue};

use crate::ends::NetEnds;
use crate::instance::whole_at;
use crate::places::place_at;
use crate::whole_cell::{WholeCell, cell_of};
use known_nets::is_marked;
use net_places::{Place, Unrolled};
use std::alloc::Global;
use vrt_model::{NoMemory, Phase, Seq, Whole};

/// Adds the instance at a place, of a cell whose instances may be left whole.
fn add_whole(
    alloc: Global,
    phases: &[Phase],
    ends: &NetEnds,
    own: &WholeCell,
    place: &Place,
    wholes: &mut Seq<Whole>,
) -> Result<(), NoMemory>
    requires { place.now.cell < 2 ^ 32 }
    ensures { OnOk result ((cut : Cut) (blif : BlifValue) (facts : List FactsValue) (c : CircuitValue) (p : NumberedPlace) (before : List NumberedPlace) → cut.top.rules.phases ≡ phases.now → HasEnds cut blif facts c ends.now → Among (whole_places cut) p → IsWholeCell cut.top blif facts p.at.cell own.now → IsPlacedWhole cut.top blif p place.now → AllZip (IsWholeAt cut blif facts) before wholes.old → AllZip (IsWholeAt cut blif facts) (before ++ p ∷ []) wholes.new) }
{
    let whole = whole_at(alloc, phases, ends, own, place)?;
    wholes.append(whole)?;
    Ok(())
}

/// Adds the instance at a place, if it is left whole.
fn add_place(
    alloc: Global,
    phases: &[Phase],
    ends: &NetEnds,
    cells: &[Option<WholeCell>],
    whole: &[bool],
    unrolled: &Unrolled,
    at: usize,
    wholes: &mut Seq<Whole>,
) -> Result<(), NoMemory>
    requires there { at < length unrolled.now.places }
    requires small { AreSmall unrolled.now.places }
    ensures { OnOk result ((cut : Cut) (blif : BlifValue) (facts : List FactsValue) (c : CircuitValue) → HasEnds cut blif facts c ends.now → IsCutAt cut unrolled.now whole.now → AreWholeCells cut blif facts unrolled.now phases.now cells.now → GrowsTo cut blif facts at wholes.old wholes.new) }
{
    if !is_marked(whole, at) {
        return Ok(());
    }
    let place = place_at(unrolled, at);
    match cell_of(cells, place) {
        Some(own) => {
            add_whole(alloc, phases, ends, own, place, wholes)?;
            Ok(())
        }
        None => Ok(()),
    }
}

/// The instances of an unrolled cell that are left whole, in their order, by a table of what the instances of each cell have
/// in common.
pub(crate) fn wholes_of(
    alloc: Global,
    phases: &[Phase],
    ends: &NetEnds,
    cells: &[Option<WholeCell>],
    whole: &[bool],
    unrolled: &Unrolled,
) -> Result<Seq<Whole>, NoMemory>
    requires small { AreSmall unrolled.now.places }
    ensures { IfOk result (λ wholes. (cut : Cut) (blif : BlifValue) (facts : List FactsValue) (c : CircuitValue) → HasEnds cut blif facts c ends.now → IsCutAt cut unrolled.now whole.now → AreWholeCells cut blif facts unrolled.now phases.now cells.now → AllZip (IsWholeAt cut blif facts) (whole_places cut) wholes) }
{
    let mut wholes = Seq::new(alloc);
    for at in 0..unrolled.places.len() {
        add_place(alloc, phases, ends, cells, whole, unrolled, at, &mut wholes)?;
    }
    Ok(wholes)
}
