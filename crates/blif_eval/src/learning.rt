//! Which signals of a model have a known bit: those that are given one, and the outputs of covers that read known bits
//! alone. Covers are learned in an order in which each stands behind those that it reads, so that each is looked at once.

ghost use Rattle.std.specs.Prelude.{◌≡◌, ◌+◌, Option, length, IfOk};
ghost use Rattle.blif_eval.specs.Drivers.{AreDrivers};
ghost use Rattle.blif_eval.specs.KnownBits.{AreKnown};
ghost use Rattle.blif_eval.specs.Learning.{HasLearnedBy, IsLearningOrder, awaited, awaited_at, awaited_by, awaiting};
ghost use Rattle.vrt_model.specs.FlatModels.{IsFlatModel};

use crate::driver_table::{Driver, driver_at};
use crate::graph::copied;
use crate::known::{is_known, learn};
use graphs::placing_of;
use std::alloc::Global;
use vrt_model::{Cover, FlatModel, NoMemory, Seq};

/// The signals whose bits a cover awaits, so that its output is learned: its inputs, but none where the output is known.
fn awaited(alloc: Global, known: &[Option<bool>], cover: &Cover) -> Result<Seq<u32>, NoMemory>
    ensures { IfOk result (λ signals. signals ≡ awaited known.now cover.now) }
{
    if is_known(known, cover.output) {
        Ok(Seq::new(alloc))
    } else {
        copied(alloc, cover.inputs.as_slice())
    }
}

/// What the cover at a place awaits, nothing where there is no cover.
fn awaited_at(
    alloc: Global,
    covers: &[Cover],
    known: &[Option<bool>],
    place: usize,
) -> Result<Seq<u32>, NoMemory>
    ensures { IfOk result (λ signals. signals ≡ awaited_at covers.now known.now place) }
{
    match covers.get(place) {
        Some(cover) => awaited(alloc, known, cover),
        None => Ok(Seq::new(alloc)),
    }
}

/// What is awaited for the bit of a signal or an element with this driver, so that it is learned.
fn awaited_by(
    alloc: Global,
    flat: &FlatModel,
    known: &[Option<bool>],
    driver: Driver,
) -> Result<Seq<u32>, NoMemory>
    ensures { IfOk result (λ signals. signals ≡ awaited_by flat.now known.now driver) }
{
    match driver {
        Driver::Covered(place) => awaited_at(alloc, flat.covers.as_slice(), known, place),
        _ => Ok(Seq::new(alloc)),
    }
}

/// For each signal and each element what is awaited, so that its bit is learned.
fn awaiting(
    alloc: Global,
    flat: &FlatModel,
    known: &[Option<bool>],
    drivers: &[Driver],
) -> Result<Seq<Seq<u32>>, NoMemory>
    ensures { IfOk result (λ graph. graph ≡ awaiting flat.now known.now drivers.now) }
{
    let mut graph = Seq::new(alloc);
    for driver in drivers {
        let signals = awaited_by(alloc, flat, known, *driver)?;
        graph.append(signals)?;
    }
    Ok(graph)
}

/// The numbers of the signals and elements, each behind what it awaits; those are left out that await themselves, or what
/// does.
fn learning_order(
    alloc: Global,
    flat: &FlatModel,
    known: &[Option<bool>],
    drivers: &[Driver],
) -> Result<Seq<u32>, NoMemory>
    requires model { IsFlatModel flat.now }
    requires drivers { AreDrivers flat.now drivers.now }
    ensures { IfOk result (λ steps. IsLearningOrder flat.now known.now steps) }
{
    let graph = awaiting(alloc, flat, known, drivers)?;
    let placing = placing_of(alloc, graph.as_slice())?;
    Ok(placing.steps)
}

/// Learns the bit of a signal by its driver, where that is a cover all of whose inputs are known.
fn learn_by(bits: &mut Vec<Option<bool>>, flat: &FlatModel, driver: Driver)
    requires model { IsFlatModel flat.now }
    requires size { length bits.old.items ≡ length flat.now.signals + 1 }
    ensures { HasLearnedBy flat.now driver bits.old.items bits.new.items }
{
    if let Driver::Covered(place) = driver {
        if let Some(cover) = flat.covers.get(place) {
            learn(bits, cover);
        }
    }
}

/// Learns the bits of signals one by one, in an order in which each stands behind what it awaits.
fn learn_all(bits: &mut Vec<Option<bool>>, flat: &FlatModel, drivers: &[Driver], steps: &[u32])
    requires model { IsFlatModel flat.now }
    requires size { length bits.old.items ≡ length flat.now.signals + 1 }
    requires drivers { AreDrivers flat.now drivers.now }
    requires steps { IsLearningOrder flat.now bits.old.items steps.now }
    ensures { AreKnown flat.now bits.old.items bits.new.items }
{
    for number in steps {
        learn_by(bits, flat, driver_at(drivers, *number));
    }
}

/// A copy of a table of bits.
fn copied_bits(alloc: Global, bits: &[Option<bool>]) -> Result<Vec<Option<bool>>, NoMemory>
    ensures { IfOk result (λ copy. copy.items ≡ bits.now) }
{
    match Vec::from_slice(alloc, bits) {
        Ok(copy) => Ok(copy),
        Err(_) => Err(NoMemory),
    }
}

/// The bits of the signals that are known where some are given, and behind the signals that of the default clock, if it
/// is given.
pub(crate) fn known_bits(
    alloc: Global,
    flat: &FlatModel,
    known: &[Option<bool>],
    drivers: &[Driver],
) -> Result<Vec<Option<bool>>, NoMemory>
    requires model { IsFlatModel flat.now }
    requires size { length known.now ≡ length flat.now.signals + 1 }
    requires drivers { AreDrivers flat.now drivers.now }
    ensures { IfOk result (λ bits. AreKnown flat.now known.now bits.items) }
{
    let steps = learning_order(alloc, flat, known, drivers)?;
    let mut bits = copied_bits(alloc, known)?;
    learn_all(&mut bits, flat, drivers, steps.as_slice());
    Ok(bits)
}
