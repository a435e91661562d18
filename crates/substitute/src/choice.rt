//! The instances of a cell that are left whole, tried one after the other.

ghost use Rattle.std.specs.Prelude.{◌≡◌, ◌<◌, ◌+◌, ◌*◌, ◌||◌, ◌==◌, ℕ, suc, List, Option, Bool, All, length, replicate, IfOk, OnOk};
ghost use Rattle.std.specs.Option.{option_copied};
ghost use Rattle.known_nets.specs.Incidence.{AreHeldMarks};
ghost use Rattle.known_nets.specs.Wired.{IsWired};
ghost use Rattle.net_places.specs.Instances.{AreSmall};
ghost use Rattle.whole_circuits.specs.Counts.{AreCounts};
ghost use Rattle.whole_circuits.specs.declared.taken.Taken.TheVariants.{Free as FreeNet};
ghost use Rattle.whole_circuits.specs.declared.whole_cell.WholeCell.{WholeCell as CellValue};
ghost use Rattle.vrt_model.specs.Circuits.{IsHold};
ghost use Rattle.vrt_model.specs.Levels.{level_counts};
ghost use Rattle.vrt_model.specs.Lists.{At, mark_at};
ghost use Rattle.vrt_model.specs.Unrolled.{Top};
ghost use Rattle.vrt_model.specs.declared.blif.Blif.{Blif as BlifValue};
ghost use Rattle.vrt_model.specs.declared.whole.CellFacts.{CellFacts as FactsValue};
ghost use Rattle.vrt_model.specs.declared.whole.WholePin.{WholePin as PinValue};
ghost use Rattle.substitute.specs.Chosen.{IsRightly, cut_of};
ghost use Rattle.substitute.specs.Ranges.{AreSettled, with_chosen};
ghost use Rattle.substitute.specs.Taken.{TakesPins};
ghost use Rattle.substitute.specs.Underway.{AreChosen, AreChosenBelow, AreCountsOf, AreReached, AreTables, HasEntry, IsNextTrial, IsOutside};
ghost use Rattle.substitute.specs.declared.tables.Tables.{Tables as TablesValue};

use crate::candidate::passes;
use crate::range::devices_gone;
use crate::tables::Tables;
use crate::taken::{mark, take_outputs};
use known_nets::{held_nets, is_marked, no_marks};
use net_places::Unrolled;
use std::alloc::Global;
use vrt_model::{Device, NoMemory, WholePin};
use whole_circuits::{
    NetMarks, WholeCell, add_inside, channel_counts, count_channels, driven_pins, no_outputs,
    place_at,
};

/// The instances that are chosen so far.
pub struct Chosen {
    /// A mark for each place, set where a chosen instance stands.
    pub whole: Vec<bool>,
    /// A mark for each place that has been tried, set where it is inside a chosen instance.
    pub inside: Vec<bool>,
    /// Which nets have holds, which outputs of chosen instances are at each, and how many channels that are not inside chosen ones end there.
    pub nets: NetMarks,
}

/// By hand, so that letting go of them is a call.
impl Drop for Chosen {
    fn drop(self) {
        let Chosen {
            whole: _whole,
            inside: _inside,
            nets: _nets,
        } = self;
    }
}

/// No marks at the nets but those of holds, and the counts of all channels.
fn bare_nets(alloc: Global, tables: Tables<'_>) -> Result<NetMarks, NoMemory>
    requires { IsWired tables.flat.now }
    ensures held { IfOk result (λ nets. AreHeldMarks tables.entry.flat.now nets.held.items) }
    ensures taken { IfOk result (λ nets. nets.taken.items ≡ replicate (length tables.entry.flat.now.nets) FreeNet) }
    ensures each { IfOk result (λ nets. length nets.channels.items ≡ level_counts * length tables.entry.flat.now.nets) }
    ensures counts { IfOk result (λ nets. AreCounts (length tables.entry.flat.now.nets) tables.entry.flat.now.devices nets.channels.items) }
{
    let count = tables.flat.nets.len();
    let taken = no_outputs(alloc, count)?;
    let held = held_nets(alloc, tables.flat)?;
    let channels = channel_counts(alloc, count, tables.flat.devices.as_slice())?;
    Ok(NetMarks {
        held,
        channels,
        taken,
    })
}

/// No instance is chosen.
fn none_chosen(alloc: Global, tables: Tables<'_>) -> Result<Chosen, NoMemory>
    requires { IsWired tables.flat.now }
    ensures { IfOk result (λ chosen. (asked : Bool) (t : Top) (blif : BlifValue) (facts : List FactsValue) → AreTables t blif facts tables.entry → AreChosen asked t blif facts tables.entry 0 chosen) }
{
    let whole = no_marks(alloc, tables.unrolled.places.len())?;
    let inside = no_marks(alloc, 1)?;
    let nets = bare_nets(alloc, tables)?;
    Ok(Chosen {
        whole,
        inside,
        nets,
    })
}

/// What the instances of a cell have in common, if they may be left whole.
fn entry_of(cells: &[Option<WholeCell>], cell: usize) -> Option<&WholeCell>
    ensures { (entry : Option CellValue) → At cells.entry.now cell entry → option_copied result ≡ entry }
{
    match cells.get(cell) {
        Some(Some(own)) => Some(own),
        Some(None) => None,
        None => None,
    }
}

/// Counts the channels of some devices in again, unless they stay out.
fn settle(channels: &mut Vec<usize>, out: bool, devices: &[Device]) -> Result<(), NoMemory>
    ensures len { OnOk result (length channels.new.items ≡ length channels.old.items) }
    ensures is { OnOk result (AreSettled out devices.now channels.old.items channels.new.items) }
{
    if out {
        return Ok(());
    }
    count_channels(channels, true, devices)
}

/// Whether an instance that is tried, of these output pins, is rightly chosen besides those that are. If so, its channels are no longer counted. Without a
/// look at cycles it takes time in proportion to the places and devices inside the instance, and to the square of its outputs.
fn is_right(
    alloc: Global,
    asked: bool,
    tables: Tables<'_>,
    at: usize,
    chosen: &mut Chosen,
    pins: &[WholePin],
) -> Result<bool, NoMemory>
    requires holds { All (IsHold tables.flat.now) tables.flat.now.holds }
    requires small { AreSmall tables.unrolled.now.places }
    requires there { at < length tables.unrolled.now.places }
    requires trial { (t : Top) × (blif : BlifValue) × (facts : List FactsValue) × (i : ℕ) × (own : CellValue) × (at ≡ suc i) × IsNextTrial asked t blif facts tables i chosen.old own pins.now }
    ensures whole { chosen.new.whole ≡ chosen.old.whole }
    ensures inside { chosen.new.inside ≡ chosen.old.inside }
    ensures held { chosen.new.nets.held ≡ chosen.old.nets.held }
    ensures taken { chosen.new.nets.taken ≡ chosen.old.nets.taken }
    ensures right { IfOk result (λ right. (t : Top) (blif : BlifValue) (facts : List FactsValue) (i : ℕ) (own : CellValue) → at ≡ suc i → IsNextTrial asked t blif facts tables.entry i chosen.old own pins.now → IsRightly asked (cut_of t chosen.old.whole.items) blif facts i right) }
    ensures counts { IfOk result (λ right. (t : Top) (blif : BlifValue) (facts : List FactsValue) (i : ℕ) (own : CellValue) → at ≡ suc i → IsNextTrial asked t blif facts tables.entry i chosen.old own pins.now → AreCountsOf (with_chosen right (cut_of t chosen.old.whole.items) i) (length tables.entry.flat.now.nets) chosen.new.nets.channels.items) }
{
    let gone = devices_gone(tables, at);
    count_channels(&mut chosen.nets.channels, false, gone)?;
    let right = passes(
        alloc,
        asked,
        tables,
        chosen.whole.as_slice(),
        at,
        &chosen.nets,
        pins,
    )?;
    settle(&mut chosen.nets.channels, right, gone)?;
    Ok(right)
}

/// Chooses the instance at a place, of these output pins.
fn choose(chosen: &mut Chosen, at: usize, pins: &[WholePin])
    requires there { at < length chosen.old.whole.items }
    requires nets { All (λ (p : PinValue). p.net.0 < length chosen.old.nets.taken.items) pins.now }
    ensures each { length chosen.new.whole.items ≡ length chosen.old.whole.items }
    ensures whole { (n : ℕ) → mark_at chosen.new.whole.items n ≡ (mark_at chosen.old.whole.items n || at == n) }
    ensures inside { chosen.new.inside ≡ chosen.old.inside }
    ensures held { chosen.new.nets.held ≡ chosen.old.nets.held }
    ensures channels { chosen.new.nets.channels ≡ chosen.old.nets.channels }
    ensures room { length chosen.new.nets.taken.items ≡ length chosen.old.nets.taken.items }
    ensures taken { TakesPins pins.now chosen.old.nets.taken.items chosen.new.nets.taken.items }
{
    mark(&mut chosen.whole, at);
    take_outputs(&mut chosen.nets.taken, pins);
}

/// Tries the instance at a place, of a cell whose instances may be left whole, that is outside the chosen ones.
fn try_outside(
    alloc: Global,
    asked: bool,
    tables: Tables<'_>,
    at: usize,
    own: &WholeCell,
    chosen: &mut Chosen,
) -> Result<(), NoMemory>
    requires holds { All (IsHold tables.flat.now) tables.flat.now.holds }
    requires small { AreSmall tables.unrolled.now.places }
    requires there { at < length tables.unrolled.now.places }
    requires outside { (t : Top) × (blif : BlifValue) × (facts : List FactsValue) × (i : ℕ) × (at ≡ suc i) × IsOutside asked t blif facts tables i chosen.old own.now }
    ensures { OnOk result ((t : Top) (blif : BlifValue) (facts : List FactsValue) (i : ℕ) → at ≡ suc i → IsOutside asked t blif facts tables.entry i chosen.old own.now → AreChosen asked t blif facts tables.entry (suc i) chosen.new) }
{
    let nets = place_at(tables.unrolled, at).ports.as_slice();
    let pins = driven_pins(alloc, own.ports.as_slice(), nets, own.drives.as_slice())?;
    let right = is_right(alloc, asked, tables, at, chosen, pins.as_slice())?;
    if right {
        choose(chosen, at, pins.as_slice());
    }
    Ok(())
}

/// Tries the instance at a place, of a cell whose instances may be left whole.
fn try_whole(
    alloc: Global,
    asked: bool,
    tables: Tables<'_>,
    at: usize,
    own: &WholeCell,
    chosen: &mut Chosen,
) -> Result<(), NoMemory>
    requires holds { All (IsHold tables.flat.now) tables.flat.now.holds }
    requires small { AreSmall tables.unrolled.now.places }
    requires there { at < length tables.unrolled.now.places }
    requires chosen { (t : Top) × (blif : BlifValue) × (facts : List FactsValue) × (i : ℕ) × (at ≡ suc i) × HasEntry asked t blif facts tables i chosen.old own.now }
    ensures { OnOk result ((t : Top) (blif : BlifValue) (facts : List FactsValue) (i : ℕ) → at ≡ suc i → HasEntry asked t blif facts tables.entry i chosen.old own.now → AreChosen asked t blif facts tables.entry (suc i) chosen.new) }
{
    let inside = is_marked(chosen.inside.as_slice(), at);
    if inside {
        return Ok(());
    }
    try_outside(alloc, asked, tables, at, own, chosen)
}

/// Marks the place that comes next, if it is inside a chosen instance.
fn come_to(unrolled: &Unrolled, at: usize, chosen: &mut Chosen) -> Result<(), NoMemory>
    requires { at < length unrolled.now.places }
    ensures { OnOk result ((asked : Bool) (t : Top) (blif : BlifValue) (facts : List FactsValue) (tables : TablesValue) (i : ℕ) → at ≡ suc i → tables.unrolled.now ≡ unrolled.now → AreChosen asked t blif facts tables i chosen.old → AreReached asked t blif facts tables i chosen.new) }
{
    add_inside(chosen.whole.as_slice(), &mut chosen.inside, unrolled, at)
}

/// Tries the instance at a place that is marked if it is inside a chosen one.
fn try_place(
    alloc: Global,
    asked: bool,
    tables: Tables<'_>,
    at: usize,
    chosen: &mut Chosen,
) -> Result<(), NoMemory>
    requires holds { All (IsHold tables.flat.now) tables.flat.now.holds }
    requires small { AreSmall tables.unrolled.now.places }
    requires there { at < length tables.unrolled.now.places }
    requires reached { (t : Top) × (blif : BlifValue) × (facts : List FactsValue) × (i : ℕ) × (at ≡ suc i) × AreReached asked t blif facts tables i chosen.old }
    ensures { OnOk result ((t : Top) (blif : BlifValue) (facts : List FactsValue) (i : ℕ) → at ≡ suc i → AreReached asked t blif facts tables.entry i chosen.old → AreChosen asked t blif facts tables.entry (suc i) chosen.new) }
{
    let cell = place_at(tables.unrolled, at).cell;
    match entry_of(tables.cells, cell) {
        Some(own) => try_whole(alloc, asked, tables, at, own, chosen),
        None => Ok(()),
    }
}

/// Tries the instance at the place that comes next.
fn try_instance(
    alloc: Global,
    asked: bool,
    tables: Tables<'_>,
    at: usize,
    chosen: &mut Chosen,
) -> Result<(), NoMemory>
    requires holds { All (IsHold tables.flat.now) tables.flat.now.holds }
    requires small { AreSmall tables.unrolled.now.places }
    requires there { (0 < at) × (at < length tables.unrolled.now.places) }
    requires chosen { (t : Top) × (blif : BlifValue) × (facts : List FactsValue) × AreChosenBelow asked t blif facts tables at chosen.old }
    ensures { OnOk result ((t : Top) (blif : BlifValue) (facts : List FactsValue) → AreChosenBelow asked t blif facts tables.entry at chosen.old → AreChosenBelow asked t blif facts tables.entry (at + 1) chosen.new) }
{
    come_to(tables.unrolled, at, chosen)?;
    try_place(alloc, asked, tables, at, chosen)
}

/// The instances that are chosen, tried in the order of their places: each that is outside those chosen before it, of a cell whose
/// instances may be left whole, with outputs that are allowed, and, where cycles are asked for, by which no arc leads around.
/// Where cycles are asked for each trial takes time in proportion to the flat circuit, else in proportion to the instance that is tried: the places and
/// devices inside it, and the square of its outputs.
pub fn choose_all(alloc: Global, asked: bool, tables: Tables<'_>) -> Result<Chosen, NoMemory>
    requires holds { All (IsHold tables.flat.now) tables.flat.now.holds }
    requires wired { IsWired tables.flat.now }
    requires small { AreSmall tables.unrolled.now.places }
    requires tables { (t : Top) × (blif : BlifValue) × (facts : List FactsValue) × AreTables t blif facts tables }
    ensures { IfOk result (λ chosen. (t : Top) (blif : BlifValue) (facts : List FactsValue) → AreTables t blif facts tables.entry → AreChosenBelow asked t blif facts tables.entry (length tables.entry.unrolled.now.places) chosen) }
{
    let mut chosen = none_chosen(alloc, tables)?;
    for at in 1..tables.unrolled.places.len() {
        try_instance(alloc, asked, tables, at, &mut chosen)?;
    }
    Ok(chosen)
}
