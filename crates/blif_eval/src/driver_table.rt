//! What gives each signal and each element of a model its bit.

ghost use Rattle.std.specs.Prelude.{◌≡◌, ◌+◌, ◌<◌, ◌++◌, ◌∷◌, [], Some, not, length, replicate, set, slice_get, IfOk, OnOk};
ghost use Rattle.blif_eval.specs.Drivers.{AddsElement, AddsElements, AreDrivers, AreMade, AreNoted, edge_elements, elements_by, level_elements};
ghost use Rattle.blif_eval.specs.declared.driver_table.Driver.TheVariants.{Given};
ghost use Rattle.vrt_model.specs.FlatModels.{IsFlatModel};
ghost use Rattle.vrt_model.specs.ModelArcs.{last_by};

use std::alloc::Global;
use vrt_model::{FlatLatch, FlatModel, LatchKind, NoMemory, Seq};

/// A storage element of a latch.
#[derive(Clone, Copy)]
pub struct Storage {
    /// The number of the element among all elements of the model, from 0.
    pub element: u32,
    /// The number of what the element takes in: a signal, or, for a slave, its master.
    pub source: u32,
    /// The number of the signal that opens and shuts the element; none for the default clock.
    pub control: Option<u32>,
    /// The bit of the control at which the element takes in its source. At the other one it keeps its bit.
    pub open_at: bool,
}

/// What gives a signal or an element its bit. Elements are numbered after the signals.
#[derive(Clone, Copy)]
pub enum Driver {
    /// Nothing in the model: the signal is an input or a clock.
    Given,
    /// The cover at a place in `FlatModel.covers`, from 0.
    Covered(usize),
    /// A latch: the signal has the bit of the element with this number.
    Stored(u32),
    /// A latch, of which this is an element.
    Element(Storage),
}

/// What gives a number its bit.
pub(crate) fn driver_at(drivers: &[Driver], number: u32) -> Driver
    requires { number < length drivers.now }
    ensures { slice_get drivers.now number ≡ Some result }
{
    drivers[number as usize]
}

/// No signal has a driver yet.
fn no_drivers(alloc: Global, signals: usize) -> Result<Vec<Driver>, NoMemory>
    ensures { IfOk result (λ drivers. drivers.items ≡ replicate signals Given) }
{
    match vec![in alloc; Driver::Given; signals] {
        Ok(drivers) => Ok(drivers),
        Err(_) => Err(NoMemory),
    }
}

/// A signal has a driver.
fn note(drivers: &mut Vec<Driver>, signal: u32, driver: Driver)
    requires signal { signal < length drivers.old.items }
    ensures { drivers.new.items ≡ set drivers.old.items signal driver }
{
    drivers[signal as usize] = driver;
}

/// The outputs of covers have these as their drivers.
fn note_covers(drivers: &mut Vec<Driver>, flat: &FlatModel)
    requires model { IsFlatModel flat.now }
    requires none { drivers.old.items ≡ replicate (length flat.now.signals) Given }
    ensures { AreNoted flat.now (length flat.now.covers) 0 drivers.new.items }
{
    for (place, cover) in flat.covers.as_slice().iter().enumerate() {
        note(drivers, cover.output, Driver::Covered(place));
    }
}

/// Adds an element, and gives its number behind the signals.
fn add_element(
    elements: &mut Seq<Driver>,
    signals: u32,
    source: u32,
    control: Option<u32>,
    open_at: bool,
) -> Result<u32, NoMemory>
    ensures { IfOk result (λ number. AddsElement signals source control open_at elements.old elements.new number) }
{
    let Ok(element) = u32::try_from(elements.len()) else {
        return Err(NoMemory);
    };
    let Some(number) = signals.checked_add(element) else {
        return Err(NoMemory);
    };
    elements.append(Driver::Element(Storage {
        element,
        source,
        control,
        open_at,
    }))?;
    Ok(number)
}

/// Adds the one element of a latch that a level of its control opens.
fn add_level(
    elements: &mut Seq<Driver>,
    signals: u32,
    latch: FlatLatch,
    open_at: bool,
) -> Result<u32, NoMemory>
    ensures { IfOk result (λ number. AddsElements (level_elements (length elements.old) latch open_at) elements.old elements.new (signals + length elements.old) number) }
{
    let number = add_element(elements, signals, latch.input, latch.control, open_at)?;
    Ok(number)
}

/// Adds the master and the slave of a latch that an edge of its control opens.
fn add_edge(
    elements: &mut Seq<Driver>,
    signals: u32,
    latch: FlatLatch,
    open_at: bool,
) -> Result<u32, NoMemory>
    ensures { IfOk result (λ number. AddsElements (edge_elements signals (length elements.old) latch open_at) elements.old elements.new (signals + (length elements.old + 1)) number) }
{
    let master = add_element(elements, signals, latch.input, latch.control, open_at)?;
    let slave = add_element(elements, signals, master, latch.control, !open_at)?;
    Ok(slave)
}

/// Adds the elements of a latch, and gives the number of the one that its output shows.
fn add_latch(elements: &mut Seq<Driver>, signals: u32, latch: FlatLatch) -> Result<u32, NoMemory>
    ensures { IfOk result (λ number. AddsElements (elements_by signals (length elements.old) latch latch.kind) elements.old elements.new (signals + last_by (length elements.old) latch.kind) number) }
{
    match latch.kind {
        LatchKind::Ah => add_level(elements, signals, latch, true),
        LatchKind::Al => add_level(elements, signals, latch, false),
        LatchKind::Re => add_edge(elements, signals, latch, false),
        LatchKind::Fe => add_edge(elements, signals, latch, true),
    }
}

/// The latch at a place.
fn latch_at(latches: &[FlatLatch], at: usize) -> FlatLatch
    requires { at < length latches.now }
    ensures { slice_get latches.now at ≡ Some result }
{
    latches[at]
}

/// The outputs of latches have the last of their elements as drivers, which are added in the order of the latches.
fn note_latches(
    drivers: &mut Vec<Driver>,
    elements: &mut Seq<Driver>,
    signals: u32,
    flat: &FlatModel,
) -> Result<(), NoMemory>
    requires model { IsFlatModel flat.now }
    requires signals { signals ≡ length flat.now.signals }
    requires covers { AreNoted flat.now (length flat.now.covers) 0 drivers.old.items }
    requires none { elements.old ≡ [] }
    ensures noted { OnOk result (AreNoted flat.now (length flat.now.covers) (length flat.now.latches) drivers.new.items) }
    ensures made { OnOk result (AreMade flat.now (length flat.now.latches) elements.new) }
{
    for at in 0..flat.latches.len() {
        let latch = latch_at(flat.latches.as_slice(), at);
        let number = add_latch(elements, signals, latch)?;
        note(drivers, latch.output, Driver::Stored(number));
    }
    Ok(())
}

/// Adds drivers at the end.
fn extend(drivers: &mut Seq<Driver>, more: &[Driver]) -> Result<(), NoMemory>
    ensures { OnOk result (drivers.new ≡ drivers.old ++ more.now) }
{
    for driver in more {
        drivers.append(*driver)?;
    }
    Ok(())
}

/// The drivers of the signals, and behind them those of the elements.
fn joined(alloc: Global, signals: &[Driver], elements: &[Driver]) -> Result<Seq<Driver>, NoMemory>
    ensures { IfOk result (λ drivers. drivers ≡ signals.now ++ elements.now) }
{
    let mut drivers = Seq::new(alloc);
    extend(&mut drivers, signals)?;
    extend(&mut drivers, elements)?;
    Ok(drivers)
}

/// What gives each signal, and behind the signals each element, its bit.
pub(crate) fn drivers_of(alloc: Global, flat: &FlatModel) -> Result<Seq<Driver>, NoMemory>
    requires model { IsFlatModel flat.now }
    ensures { IfOk result (λ drivers. AreDrivers flat.now drivers) }
{
    let Ok(count) = u32::try_from(flat.signals.len()) else {
        return Err(NoMemory);
    };
    let mut signals = no_drivers(alloc, flat.signals.len())?;
    note_covers(&mut signals, flat);
    let mut elements = Seq::new(alloc);
    note_latches(&mut signals, &mut elements, count, flat)?;
    joined(alloc, signals.as_slice(), elements.as_slice())
}
