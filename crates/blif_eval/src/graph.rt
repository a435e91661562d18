//! What depends on what in a model, as a graph.

ghost use Rattle.std.specs.Prelude.{◌≡◌, ◌++◌, ◌∷◌, [], cond, IfOk, OnOk};
ghost use Rattle.blif_eval.specs.Plans.{entry_of};
ghost use Rattle.blif_eval.specs.Sources.{control_list, control_place, element_sources, graph_by, inputs_at, is_shut, shuts, sources_by};

use crate::driver_table::{Driver, Storage};
use crate::known::entry;
use std::alloc::Global;
use vrt_model::{Cover, FlatModel, NoMemory, Seq};

/// The inputs of the cover at a place, none where there is no cover.
fn inputs_at(covers: &[Cover], place: usize) -> &[u32]
    ensures { result.now ≡ inputs_at covers.now place }
{
    if place < covers.len() {
        covers[place].inputs.as_slice()
    } else {
        &[]
    }
}

/// A copy of some numbers.
pub(crate) fn copied(alloc: Global, numbers: &[u32]) -> Result<Seq<u32>, NoMemory>
    ensures { IfOk result (λ copy. copy ≡ numbers.now) }
{
    let mut copy = Seq::new(alloc);
    for number in numbers {
        copy.append(*number)?;
    }
    Ok(copy)
}

/// A list of one number.
fn one(alloc: Global, number: u32) -> Result<Seq<u32>, NoMemory>
    ensures { IfOk result (λ list. list ≡ number ∷ []) }
{
    let mut list = Seq::new(alloc);
    list.append(number)?;
    Ok(list)
}

/// The place of a control among known bits: that of its signal, or, for the default clock, the one behind all signals.
fn control_place(control: Option<u32>, signals: usize) -> usize
    ensures { result ≡ control_place control signals }
{
    match control {
        Some(signal) => signal as usize,
        None => signals,
    }
}

/// Whether a control keeps an element shut, by what is known of its bit.
fn shuts(known: Option<bool>, open_at: bool) -> bool
    ensures { result ≡ shuts known open_at }
{
    match known {
        Some(bit) => bit != open_at,
        None => false,
    }
}

/// Whether the known control keeps an element shut.
fn is_shut(bits: &[Option<bool>], signals: usize, storage: Storage) -> bool
    ensures { result ≡ is_shut bits.now signals storage }
{
    let place = control_place(storage.control, signals);
    let known = entry(bits, place);
    shuts(known, storage.open_at)
}

/// Adds what an element takes in, unless it is shut.
fn add_source(list: &mut Seq<u32>, source: u32, shut: bool) -> Result<(), NoMemory>
    ensures { OnOk result (list.new ≡ list.old ++ cond shut [] (source ∷ [])) }
{
    if shut { Ok(()) } else { list.append(source) }
}

/// Adds the signal at a control, if there is one.
fn add_control(list: &mut Seq<u32>, control: Option<u32>) -> Result<(), NoMemory>
    ensures { OnOk result (list.new ≡ list.old ++ control_list control) }
{
    match control {
        Some(signal) => list.append(signal),
        None => Ok(()),
    }
}

/// The numbers from which arcs lead to an element.
fn element_sources(alloc: Global, storage: Storage, shut: bool) -> Result<Seq<u32>, NoMemory>
    ensures { IfOk result (λ sources. sources ≡ element_sources storage shut) }
{
    let mut sources = Seq::new(alloc);
    add_source(&mut sources, storage.source, shut)?;
    add_control(&mut sources, storage.control)?;
    Ok(sources)
}

/// The numbers from which arcs lead to one that has this driver.
fn sources_by(
    alloc: Global,
    flat: &FlatModel,
    bits: &[Option<bool>],
    driver: Driver,
) -> Result<Seq<u32>, NoMemory>
    ensures { IfOk result (λ sources. sources ≡ sources_by flat.now bits.now driver) }
{
    match driver {
        Driver::Given => Ok(Seq::new(alloc)),
        Driver::Covered(place) => copied(alloc, inputs_at(flat.covers.as_slice(), place)),
        Driver::Stored(number) => one(alloc, number),
        Driver::Element(storage) => {
            let shut = is_shut(bits, flat.signals.len(), storage);
            element_sources(alloc, storage, shut)
        }
    }
}

/// For each signal and each element, the numbers from which arcs lead to it, by what gives each its bit and by the bits
/// that are known.
pub(crate) fn graph_of(
    alloc: Global,
    flat: &FlatModel,
    bits: &[Option<bool>],
    drivers: &[Driver],
) -> Result<Seq<Seq<u32>>, NoMemory>
    ensures { IfOk result (λ graph. graph ≡ graph_by flat.now bits.now drivers.now) }
{
    let mut graph = Seq::new(alloc);
    for driver in drivers {
        let sources = sources_by(alloc, flat, bits, *driver)?;
        graph.append(sources)?;
    }
    Ok(graph)
}
