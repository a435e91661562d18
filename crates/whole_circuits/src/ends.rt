//! What ends at the nets of a circuit with whole instances: channels, and outputs of those instances. An output at whose net nothing else
//! ends is soft.

ghost use Rattle.std.specs.Prelude.{◌≡◌, ◌<◌, ◌++◌, List, length, map, IfOk, OnOk};
ghost use Rattle.whole_circuits.specs.Ends.{AreEnds, AreOutputCounts, CountsOf, GrowsBy, is_alone, settled_by};
ghost use Rattle.whole_circuits.specs.Insides.{IsCutAt};
ghost use Rattle.whole_circuits.specs.WholeCells.{AreWholeCells, IsPlacedWhole, IsWholeCell};
ghost use Rattle.vrt_model.specs.Cut.{Cut, NumberedPlace};
ghost use Rattle.vrt_model.specs.WholeInstances.{OutputAt, all_outputs, outputs_of_place};
ghost use Rattle.vrt_model.specs.declared.blif.Blif.{Blif as BlifValue};
ghost use Rattle.vrt_model.specs.declared.rules.Phase.{Phase as PhaseValue};
ghost use Rattle.vrt_model.specs.declared.whole.CellFacts.{CellFacts as FactsValue};

use crate::counts::{bears_all, both, channel_counts, count_at, count_place, no_counts};
use crate::pins::driven_pins;
use crate::places::place_at;
use crate::whole_cell::{WholeCell, cell_of};
use known_nets::is_marked;
use net_places::{Place, Unrolled};
use std::alloc::Global;
use vrt_model::{Device, Drive, NoMemory, Seq, WholePin};

/// What ends at each net of a circuit with whole instances.
pub(crate) struct NetEnds {
    /// For each net a count for each level: of the channels there of devices of this level.
    pub channels: Vec<usize>,
    /// For each net the number of outputs of whole instances there.
    pub outputs: Vec<usize>,
}

/// By hand, so that letting go of them is a call.
impl Drop for NetEnds {
    fn drop(self) {
        let NetEnds {
            channels: _channels,
            outputs: _outputs,
        } = self;
    }
}

/// Counts the pins of an instance at their nets.
fn count_pins(counts: &mut Vec<usize>, pins: &[WholePin]) -> Result<(), NoMemory>
    ensures { OnOk result (CountsOf pins.now counts.old.items counts.new.items) }
{
    let mut rest = pins;
    'pins: while let Some((pin, behind)) = rest.split_first() {
        count_place(counts, true, pin.net.0 as usize)?;
        rest = behind;
    }
    Ok(())
}

/// Counts the outputs of the instance at a place, of a cell whose instances may be left whole.
fn count_whole(
    alloc: Global,
    own: &WholeCell,
    place: &Place,
    counts: &mut Vec<usize>,
) -> Result<(), NoMemory>
    ensures counts { OnOk result ((cut : Cut) (blif : BlifValue) (facts : List FactsValue) (p : NumberedPlace) (before : List OutputAt) → IsWholeCell cut.top blif facts p.at.cell own.now → IsPlacedWhole cut.top blif p place.now → AreOutputCounts before counts.old.items → AreOutputCounts (before ++ outputs_of_place cut.top blif facts p) counts.new.items) }
    ensures len { OnOk result (length counts.new.items ≡ length counts.old.items) }
{
    let ports = own.ports.as_slice();
    let nets = place.ports.as_slice();
    let pins = driven_pins(alloc, ports, nets, own.drives.as_slice())?;
    count_pins(counts, pins.as_slice())
}

/// Counts the outputs of the instance at a place, if it is left whole.
fn count_instance(
    alloc: Global,
    cells: &[Option<WholeCell>],
    whole: &[bool],
    unrolled: &Unrolled,
    at: usize,
    counts: &mut Vec<usize>,
) -> Result<(), NoMemory>
    requires there { at < length unrolled.now.places }
    ensures grows { OnOk result ((cut : Cut) (blif : BlifValue) (facts : List FactsValue) (phases : List PhaseValue) → IsCutAt cut unrolled.now whole.now → AreWholeCells cut blif facts unrolled.now phases cells.now → GrowsBy cut blif facts at counts.old.items counts.new.items) }
    ensures len { OnOk result (length counts.new.items ≡ length counts.old.items) }
{
    if !is_marked(whole, at) {
        return Ok(());
    }
    let place = place_at(unrolled, at);
    match cell_of(cells, place) {
        Some(own) => count_whole(alloc, own, place, counts),
        None => Ok(()),
    }
}

/// For each of so many nets how many outputs of whole instances are there.
fn output_counts(
    alloc: Global,
    count: usize,
    cells: &[Option<WholeCell>],
    whole: &[bool],
    unrolled: &Unrolled,
) -> Result<Vec<usize>, NoMemory>
    ensures len { IfOk result (λ counts. length counts.items ≡ count) }
    ensures are { IfOk result (λ counts. (cut : Cut) (blif : BlifValue) (facts : List FactsValue) (phases : List PhaseValue) → IsCutAt cut unrolled.now whole.now → AreWholeCells cut blif facts unrolled.now phases cells.now → AreOutputCounts (all_outputs cut blif facts) counts.items) }
{
    let mut counts = no_counts(alloc, count)?;
    for at in 0..unrolled.places.len() {
        count_instance(alloc, cells, whole, unrolled, at, &mut counts)?;
    }
    Ok(counts)
}

/// What ends at so many nets, by the devices that are left and a table of what the instances of each cell have in common.
pub(crate) fn net_ends(
    alloc: Global,
    count: usize,
    devices: &[Device],
    cells: &[Option<WholeCell>],
    whole: &[bool],
    unrolled: &Unrolled,
) -> Result<NetEnds, NoMemory>
    ensures { IfOk result (λ ends. (cut : Cut) (blif : BlifValue) (facts : List FactsValue) (phases : List PhaseValue) → IsCutAt cut unrolled.now whole.now → AreWholeCells cut blif facts unrolled.now phases cells.now → AreEnds count devices.now (all_outputs cut blif facts) ends) }
{
    let channels = channel_counts(alloc, count, devices)?;
    let outputs = output_counts(alloc, count, cells, whole, unrolled)?;
    Ok(NetEnds { channels, outputs })
}

/// Whether nothing but gates and one output is at a net.
fn is_alone(ends: &NetEnds, net: u32) -> bool
    ensures { result ≡ is_alone ends.now net }
{
    let unmet = bears_all(ends.channels.as_slice(), Drive::Soft, net);
    let one = count_at(ends.outputs.as_slice(), net as usize) == 1;
    both(unmet, one)
}

/// An output pin, soft where it meets gates alone.
fn settled(ends: &NetEnds, pin: WholePin) -> WholePin
    ensures { result ≡ settled_by ends.now pin }
{
    let drive = if is_alone(ends, pin.net.0) {
        Drive::Soft
    } else {
        pin.drive
    };
    WholePin {
        net: pin.net,
        signal: pin.signal,
        drive,
        observed: pin.observed,
    }
}

/// Output pins, each soft where it meets gates alone.
pub(crate) fn settled_pins(
    alloc: Global,
    ends: &NetEnds,
    pins: &[WholePin],
) -> Result<Seq<WholePin>, NoMemory>
    ensures { IfOk result (λ made. made ≡ map (settled_by ends.now) pins.now) }
{
    let mut made = Seq::new(alloc);
    for pin in pins {
        made.append(settled(ends, *pin))?;
    }
    Ok(made)
}
