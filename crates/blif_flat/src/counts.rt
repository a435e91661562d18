//! How much stands in models once their sub-models are unrolled, counted model by model.

ghost use Rattle.std.specs.Prelude.{◌≡◌, ◌+◌, [], None, map, length, get_or, IfOk, OnOk};
ghost use Rattle.vrt_model.specs.FlatBlif.{signals_of};
ghost use Rattle.vrt_model.specs.Models.{bad_sub};
ghost use Rattle.vrt_model.specs.Unsupported.{carried};
ghost use Rattle.blif_flat.specs.Counts.{AreCounts, AreModelTables, AreSums, AreSumsOf, counts_with, inside_in, rows_in, sub_inside, sum_over, weight};
ghost use Rattle.blif_flat.specs.Network.{rows_of};
ghost use Rattle.vrt_model.specs.declared.blif.Blif.{Blif as BlifValue};

use crate::tables::ModelTables;
use blif_checks::{number_of, signals_of};
use names::Names;
use std::alloc::Global;
use vrt_model::{BlifModel, CoverLine, NoMemory, Seq, SubLine, Text};

/// What is counted: signals, rows of covers, and sub-models.
#[derive(Clone, Copy)]
pub(crate) enum Counted {
    Signals,
    Rows,
    Subs,
}

/// A sub-model: its model's number, how many signals it has of its own, and how many rows.
#[derive(Clone, Copy)]
pub(crate) struct Inside {
    pub model: usize,
    pub signals: u64,
    pub rows: u64,
}

/// How many signals, rows of covers and sub-models an unrolled model has, without its network or with it. A count past the greatest number of 64 bits
/// is that number.
#[derive(Clone, Copy)]
pub(crate) struct Counts {
    pub signals: u64,
    pub rows: u64,
    pub subs: u64,
}

/// What a sub-model counts of its own.
fn weight_of(kind: Counted, inside: Inside) -> u64
    ensures { result ≡ weight kind inside }
{
    match kind {
        Counted::Signals => inside.signals,
        Counted::Rows => inside.rows,
        Counted::Subs => 1,
    }
}

/// The number at a place, 0 where there is none.
fn number_at(numbers: &[u64], place: usize) -> u64
    ensures { result ≡ get_or numbers.now place 0 }
{
    if place < numbers.len() {
        numbers[place]
    } else {
        0
    }
}

/// What sub-models count, with what those in them count.
fn sum_of(kind: Counted, insides: &[Inside], sums: &[u64]) -> u64
    ensures { result ≡ sum_over kind sums.now insides.now }
{
    let mut sum = 0u64;
    for inside in insides {
        let more = weight_of(kind, *inside).saturating_add(number_at(sums, inside.model));
        sum = sum.saturating_add(more);
    }
    sum
}

/// What the models below each count, by one level more.
fn next_sums(
    alloc: Global,
    kind: Counted,
    all: &[Seq<Inside>],
    sums: &[u64],
) -> Result<Seq<u64>, NoMemory>
    ensures { IfOk result (λ next. next ≡ map (sum_over kind sums.now) all.now) }
{
    let mut next = Seq::new(alloc);
    for insides in all {
        if next.push(sum_of(kind, insides.as_slice(), sums)).is_err() {
            return Err(NoMemory);
        }
    }
    Ok(next)
}

/// What the models below each count, 32 levels deep.
fn sums_of(alloc: Global, kind: Counted, all: &[Seq<Inside>]) -> Result<Seq<u64>, NoMemory>
    ensures { IfOk result (λ sums. AreSums all.now kind 32 sums) }
{
    let mut sums = Seq::new(alloc);
    for round in 0..32u32 {
        sums = next_sums(alloc, kind, all, sums.as_slice())?;
    }
    Ok(sums)
}

/// How many rows covers have.
pub(crate) fn rows_of(covers: &[CoverLine]) -> u64
    ensures { result ≡ carried (rows_of covers.now) }
{
    let mut rows = 0u64;
    for cover in covers {
        rows = rows.saturating_add(cover.rows.len() as u64);
    }
    rows
}

/// The rows of each model.
fn all_rows(alloc: Global, models: &[BlifModel]) -> Result<Seq<u64>, NoMemory>
    ensures { IfOk result (λ rows. rows ≡ map rows_in models.now) }
{
    let mut rows = Seq::new(alloc);
    for model in models {
        if rows.push(rows_of(model.covers.as_slice())).is_err() {
            return Err(NoMemory);
        }
    }
    Ok(rows)
}

/// The signals of a model, in their order.
fn signal_list(alloc: Global, model: &BlifModel) -> Result<Seq<Text>, NoMemory>
    ensures { IfOk result (λ list. list ≡ signals_of model.now) }
{
    let names = signals_of(alloc, model)?;
    let list = names.to_texts(alloc)?;
    Ok(list)
}

/// The signals of each model, in their order: inputs, clocks, outputs, then by first mention in covers, latches and
/// ties.
pub(crate) fn all_signals(alloc: Global, models: &[BlifModel]) -> Result<Seq<Seq<Text>>, NoMemory>
    ensures { IfOk result (λ lists. lists ≡ map signals_of models.now) }
{
    let mut lists = Seq::new(alloc);
    for model in models {
        let list = signal_list(alloc, model)?;
        if lists.push(list).is_err() {
            return Err(NoMemory);
        }
    }
    Ok(lists)
}

/// How many names the list at a place has, 0 where there is none.
fn size_at(lists: &[Seq<Text>], place: usize) -> u64
    ensures { result ≡ length (get_or lists.now place []) }
{
    match lists.get(place) {
        Some(list) => list.len() as u64,
        None => 0,
    }
}

/// A sub-model, with what it has of its own: all signals but those that are tied.
fn inside_of(names: &Names, signals: &[Seq<Text>], rows: &[u64], sub: &SubLine) -> Inside
    ensures { result ≡ sub_inside names.now signals.now rows.now sub.now }
{
    let model = number_of(names, sub.model.as_bytes());
    Inside {
        model,
        signals: size_at(signals, model).saturating_sub(sub.ties.len() as u64),
        rows: number_at(rows, model),
    }
}

/// The sub-models of a model.
fn insides_of(
    alloc: Global,
    names: &Names,
    signals: &[Seq<Text>],
    rows: &[u64],
    model: &BlifModel,
) -> Result<Seq<Inside>, NoMemory>
    ensures { IfOk result (λ insides. insides ≡ inside_in names.now signals.now rows.now model.now) }
{
    let mut insides = Seq::new(alloc);
    for sub in model.subs.as_slice() {
        if insides.push(inside_of(names, signals, rows, sub)).is_err() {
            return Err(NoMemory);
        }
    }
    Ok(insides)
}

/// The sub-models of each model.
fn all_insides(
    alloc: Global,
    names: &Names,
    signals: &[Seq<Text>],
    rows: &[u64],
    models: &[BlifModel],
) -> Result<Seq<Seq<Inside>>, NoMemory>
    ensures { IfOk result (λ all. all ≡ map (inside_in names.now signals.now rows.now) models.now) }
{
    let mut all = Seq::new(alloc);
    for model in models {
        let insides = insides_of(alloc, names, signals, rows, model)?;
        if all.push(insides).is_err() {
            return Err(NoMemory);
        }
    }
    Ok(all)
}

/// What models have of their own and what stands below each, for all models of a file.
pub(crate) struct Sums {
    pub rows: Seq<u64>,
    pub signals_below: Seq<u64>,
    pub rows_below: Seq<u64>,
    pub subs_below: Seq<u64>,
}

/// By hand, so that letting go of one is a call.
impl Drop for Sums {
    fn drop(self) {
        let Sums {
            rows: _rows,
            signals_below: _signals_below,
            rows_below: _rows_below,
            subs_below: _subs_below,
        } = self;
    }
}

impl Sums {
    /// With nothing counted. It takes no memory.
    fn new(alloc: Global) -> Self {
        Sums {
            rows: Seq::new(alloc),
            signals_below: Seq::new(alloc),
            rows_below: Seq::new(alloc),
            subs_below: Seq::new(alloc),
        }
    }

    /// Counts the models of a file.
    fn fill(
        &mut self,
        alloc: Global,
        names: &Names,
        signals: &[Seq<Text>],
        models: &[BlifModel],
    ) -> Result<(), NoMemory>
        ensures { OnOk result (AreSumsOf names.now signals.now models.now self.new) }
    {
        self.rows = all_rows(alloc, models)?;
        let all = all_insides(alloc, names, signals, self.rows.as_slice(), models)?;
        self.signals_below = sums_of(alloc, Counted::Signals, all.as_slice())?;
        self.rows_below = sums_of(alloc, Counted::Rows, all.as_slice())?;
        self.subs_below = sums_of(alloc, Counted::Subs, all.as_slice())?;
        Ok(())
    }
}

/// The sums of all models of a file, by their names and signals. It takes time in proportion to the cards of all models.
pub(crate) fn sums_by(
    alloc: Global,
    names: &Names,
    signals: &[Seq<Text>],
    models: &[BlifModel],
) -> Result<Sums, NoMemory>
    ensures { IfOk result (AreSumsOf names.now signals.now models.now) }
{
    let mut sums = Sums::new(alloc);
    sums.fill(alloc, names, signals, models)?;
    Ok(sums)
}

/// A count of a model with what stands below it.
fn with_below(sums: &Seq<u64>, model: usize, own: u64) -> u64
    ensures { result ≡ carried (own + get_or sums.now model 0) }
{
    own.saturating_add(number_at(sums.as_slice(), model))
}

/// The counts of a model, by the sums of all models.
pub(crate) fn counts_of(tables: &ModelTables, model: usize) -> Counts
    ensures { (blif : BlifValue) → AreModelTables blif tables.now → bad_sub blif ≡ None → AreCounts blif model result }
{
    let sums = &tables.sums;
    let own_signals = size_at(tables.signals.as_slice(), model);
    let own_rows = number_at(sums.rows.as_slice(), model);
    Counts {
        signals: with_below(&sums.signals_below, model, own_signals),
        rows: with_below(&sums.rows_below, model, own_rows),
        subs: with_below(&sums.subs_below, model, 0),
    }
}

/// Counts with so many signals and rows more.
pub(crate) fn counts_with(counts: Counts, signals: u64, rows: u64) -> Counts
    ensures { result ≡ counts_with counts signals rows }
{
    Counts {
        signals: counts.signals.saturating_add(signals),
        rows: counts.rows.saturating_add(rows),
        subs: counts.subs,
    }
}
