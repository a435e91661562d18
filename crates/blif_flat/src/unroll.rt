//! The signals, covers and latches of an unrolled model.

ghost use Rattle.std.specs.Prelude.{◌≡◌, ◌+◌, ◌≤◌, None, ◌++◌, map, length, option_map, unwrap_or, IfOk, OnOk};
ghost use Rattle.vrt_model.specs.FlatBlif.{signals_of};
ghost use Rattle.vrt_model.specs.Models.{bad_sub};
ghost use Rattle.blif_flat.specs.Places.{HasOwn, HasRoom, IsPlace, cover_in, latch_in, number_in, own_names, place_in, places_of, size_of, with_places};
ghost use Rattle.vrt_model.specs.declared.blif.LatchKind.TheVariants.{Re};
ghost use Rattle.blif_checks.specs.Tables.{AreTables};

use crate::places::{Place, name_at, number_at, sub_place};
use blif_checks::Tables;
use std::alloc::Global;
use vrt_model::{
    Blif, BlifModel, Cover, CoverLine, FlatLatch, LatchKind, LatchLine, NoMemory, Seq, Text,
};

/// What is unrolled so far.
#[derive(Drop)]
pub(crate) struct Parts {
    pub signals: Seq<Text>,
    pub covers: Seq<Cover>,
    pub latches: Seq<FlatLatch>,
}

/// The flat signals that names at a place are.
pub(crate) fn numbers_of(alloc: Global, place: &Place, names: &[Text]) -> Result<Seq<u32>, NoMemory>
    requires { HasRoom place.now }
    ensures { IfOk result (λ numbers. numbers ≡ map (number_in place.now) names.now) }
{
    let mut numbers = Seq::new(alloc);
    for name in names {
        if numbers.push(number_at(place, name.as_bytes())).is_err() {
            return Err(NoMemory);
        }
    }
    Ok(numbers)
}

/// Copies of texts.
pub(crate) fn copies_of(alloc: Global, texts: &[Text]) -> Result<Seq<Text>, NoMemory>
    ensures { IfOk result (λ copies. copies ≡ texts.now) }
{
    let mut copies = Seq::new(alloc);
    for text in texts {
        let copy = Text::from_bytes(alloc, text.as_bytes())?;
        if copies.push(copy).is_err() {
            return Err(NoMemory);
        }
    }
    Ok(copies)
}

/// A cover at a place.
fn cover_of(alloc: Global, place: &Place, cover: &CoverLine) -> Result<Cover, NoMemory>
    requires { HasRoom place.now }
    ensures { IfOk result (λ flat. flat ≡ cover_in place.now cover.now) }
{
    Ok(Cover {
        inputs: numbers_of(alloc, place, cover.inputs.as_slice())?,
        output: number_at(place, cover.output.as_bytes()),
        on: cover.on,
        rows: copies_of(alloc, cover.rows.as_slice())?,
    })
}

/// What a latch does at its control. Without a type it has the rising edge.
fn kind_of(kind: Option<LatchKind>) -> LatchKind
    ensures { result ≡ unwrap_or kind Re }
{
    match kind {
        Some(kind) => kind,
        None => LatchKind::Re,
    }
}

/// The flat signal of a control, if there is one.
fn control_of(place: &Place, control: &Option<Text>) -> Option<u32>
    requires { HasRoom place.now }
    ensures { result ≡ option_map (number_in place.now) control.now }
{
    match control {
        Some(control) => Some(number_at(place, control.as_bytes())),
        None => None,
    }
}

/// A latch at a place.
fn latch_of(place: &Place, latch: &LatchLine) -> FlatLatch
    requires { HasRoom place.now }
    ensures { result ≡ latch_in place.now latch.now }
{
    FlatLatch {
        input: number_at(place, latch.input.as_bytes()),
        output: number_at(place, latch.output.as_bytes()),
        kind: kind_of(latch.kind),
        control: control_of(place, &latch.control),
    }
}

/// Adds the own signals of a place by their names with its path.
fn add_signals(alloc: Global, place: &Place, signals: &mut Seq<Text>) -> Result<(), NoMemory>
    ensures { OnOk result (signals.new ≡ signals.old ++ own_names place.now) }
{
    let own = place.inner.to_texts(alloc)?;
    for name in own.as_slice() {
        let text = name_at(alloc, &place.path, name.as_bytes())?;
        if signals.push(text).is_err() {
            return Err(NoMemory);
        }
    }
    Ok(())
}

/// Adds covers at a place.
fn add_covers(
    alloc: Global,
    place: &Place,
    covers: &[CoverLine],
    flat: &mut Seq<Cover>,
) -> Result<(), NoMemory>
    requires { HasRoom place.now }
    ensures { OnOk result (flat.new ≡ flat.old ++ map (cover_in place.now) covers.now) }
{
    for cover in covers {
        let one = cover_of(alloc, place, cover)?;
        if flat.push(one).is_err() {
            return Err(NoMemory);
        }
    }
    Ok(())
}

/// Adds latches at a place.
fn add_latches(
    place: &Place,
    latches: &[LatchLine],
    flat: &mut Seq<FlatLatch>,
) -> Result<(), NoMemory>
    requires { HasRoom place.now }
    ensures { OnOk result (flat.new ≡ flat.old ++ map (latch_in place.now) latches.now) }
{
    for latch in latches {
        if flat.push(latch_of(place, latch)).is_err() {
            return Err(NoMemory);
        }
    }
    Ok(())
}

/// Adds what a model at a place has of its own.
fn add_own(
    alloc: Global,
    place: &Place,
    model: &BlifModel,
    parts: &mut Parts,
) -> Result<(), NoMemory>
    requires { HasRoom place.now }
    ensures { OnOk result (HasOwn place.now model.now parts.old parts.new) }
{
    add_signals(alloc, place, &mut parts.signals)?;
    add_covers(alloc, place, model.covers.as_slice(), &mut parts.covers)?;
    add_latches(place, model.latches.as_slice(), &mut parts.latches)
}

/// Adds what a model at a place and those in it have, at most so deep. Each sub-model stands before those in it, and
/// these before the next card. It takes time in proportion to the cards that are unrolled.
pub(crate) fn unroll(
    alloc: Global,
    blif: &Blif,
    tables: &Tables,
    signals: &[Seq<Text>],
    place: &Place,
    depth: u32,
    parts: &mut Parts,
) -> Result<(), NoMemory>
    requires tables { AreTables blif.now tables.now }
    requires lists { signals.now ≡ map signals_of blif.now.models }
    requires subs { bad_sub blif.now ≡ None }
    requires is_place { IsPlace blif.now place.now }
    requires base { place.now.base ≡ length parts.old.signals }
    requires room { length parts.old.signals + size_of blif.now depth (place_in place.now) ≤ 20000 }
    ensures { OnOk result (parts.new ≡ with_places blif.now (places_of blif.now depth (place_in place.now)) parts.old) }
{
    let Some(model) = blif.models.get(place.model) else {
        return Ok(());
    };
    add_own(alloc, place, model, parts)?;
    if depth == 0 {
        return Ok(());
    }
    let below = depth - 1;
    for (number, sub) in model.subs.as_slice().iter().enumerate() {
        let base = parts.signals.len() as u32;
        let inner = sub_place(alloc, blif, tables, signals, place, number, sub, base)?;
        unroll(alloc, blif, tables, signals, &inner, below, parts)?;
    }
    Ok(())
}
