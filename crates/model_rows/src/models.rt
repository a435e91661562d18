//! Models and their values: a chain, a ring and constants.

use crate::checks::{append, are_constants, are_model_spans, are_outside, is_flat_model, unknown};
use crate::spans::{bit, is_live, put, take, word};
use crate::stop::Stop;
use crate::values::{valuation, value};
use bdd_core::Store;
use blif_eval::{PlanFault, eval_model, model_plan};
use node_pool::Span;
use row_script::Page;
use std::alloc::Global;
use vrt_model::{Cover, FlatModel, Seq, Text};

/// The most signals of a model.
const MOST: usize = 1000;

/// A model that is drawn. It has at most one input, which is its last signal.
pub(crate) struct Model {
    /// What is drawn so far.
    pub(crate) flat: FlatModel,
}

/// By hand, so that letting go of one is a call.
impl Drop for Model {
    fn drop(self) {
        let Model { flat: _flat } = self;
    }
}

/// Adds a text at the end of a list.
fn append_text(texts: &mut Seq<Text>, text: Text) -> Result<(), Stop> {
    match texts.push(text) {
        Ok(()) => Ok(()),
        Err(_) => Err(Stop::NoMemory),
    }
}

/// A cover without inputs and rows.
fn empty(alloc: Global, output: u32, on: bool) -> Cover {
    Cover {
        inputs: Seq::new(alloc),
        output,
        on,
        rows: Seq::new(alloc),
    }
}

/// A cover with one row, by its signals and their bits.
pub(crate) fn with_row(
    alloc: Global,
    output: u32,
    on: bool,
    reads: &[(u32, bool)],
) -> Result<Cover, Stop> {
    let mut cover = empty(alloc, output, on);
    let mut row = Text::new(alloc);
    for (signal, bit) in reads {
        append(&mut cover.inputs, *signal)?;
        if row.push(if *bit { b'1' } else { b'0' }).is_err() {
            return Err(Stop::NoMemory);
        }
    }
    append_text(&mut cover.rows, row)?;
    Ok(cover)
}

/// The spans of a model's words.
#[derive(Clone, Copy)]
pub(crate) struct Spans {
    /// A word for each signal, and one for the default clock.
    pub(crate) inputs: Span,
    /// A word for the old bit of each element.
    pub(crate) held: Span,
    /// A word for each signal, and behind them one for each element.
    pub(crate) out: Span,
}

/// Takes the spans of a model, with the bit of the first variable as its input.
fn take_spans(store: &mut Store, signals: u32, input: Option<u32>) -> Result<Spans, Stop> {
    let inputs = take(store, signals.saturating_add(1))?;
    let held = take(store, 0)?;
    let out = take(store, signals)?;
    if let Some(signal) = input {
        let first = bit(store, 0)?;
        put(store, inputs, signal, first);
    }
    Ok(Spans { inputs, held, out })
}

/// A store with the values of all signals.
struct Evaluated {
    store: Store,
    spans: Spans,
}

/// By hand, so that letting go of one is a call.
impl Drop for Evaluated {
    fn drop(self) {
        let Evaluated {
            store: _store,
            spans: _spans,
        } = self;
    }
}

impl Evaluated {
    /// The bit of a signal where the first variable has a bit.
    fn value(&self, alloc: Global, signal: u32, input: bool) -> Result<bool, Stop> {
        let at = valuation(alloc, [1].as_slice(), input as u32)?;
        value(&self.store, word(&self.store, self.spans.out, signal), &at)
    }

    /// The bits of a signal where the first variable is 0 and where it is 1.
    fn values(&self, alloc: Global, signal: u32) -> Result<(bool, bool), Stop> {
        let off = self.value(alloc, signal, false)?;
        let on = self.value(alloc, signal, true)?;
        Ok((off, on))
    }
}

/// The numbers with which a model is refused, where so many bits are known.
pub(crate) fn first_cycle(
    alloc: Global,
    flat: &FlatModel,
    known: &Seq<Option<bool>>,
) -> Result<Option<Seq<u32>>, Stop> {
    if !is_flat_model(alloc, flat)? {
        return Err(Stop::Unfit);
    }
    if known.len() != flat.signals.len() + 1 || !are_outside(flat, known) {
        return Err(Stop::Unfit);
    }
    match model_plan(alloc, flat, known) {
        Ok(_plan) => Ok(None),
        Err(PlanFault::ModelCycle { signals }) => Ok(Some(signals)),
        Err(PlanFault::NoMemory) => Err(Stop::NoMemory),
    }
}

/// Writes the values of the signals and elements of a model, where so many bits are known.
pub(crate) fn evaluate(
    alloc: Global,
    flat: &FlatModel,
    known: &Seq<Option<bool>>,
    store: &mut Store,
    spans: Spans,
) -> Result<(), Stop> {
    let Spans { inputs, held, out } = spans;
    if !is_flat_model(alloc, flat)? || !are_model_spans(store, flat, inputs, held, out) {
        return Err(Stop::Unfit);
    }
    if known.len() != flat.signals.len() + 1 || !are_outside(flat, known) {
        return Err(Stop::Unfit);
    }
    if !is_live(store, inputs) || !are_constants(store, known, inputs) {
        return Err(Stop::Unfit);
    }
    match model_plan(alloc, flat, known) {
        Ok(plan) => Ok(eval_model(store, flat, &plan, inputs, held, out)?),
        Err(PlanFault::ModelCycle { .. }) => Err(Stop::Unfit),
        Err(PlanFault::NoMemory) => Err(Stop::NoMemory),
    }
}

impl Model {
    /// With so many signals, of which the last is its input where `has_input` holds.
    pub(crate) fn new(alloc: Global, signals: u32, has_input: bool) -> Result<Model, Stop> {
        let mut flat = FlatModel {
            signals: Seq::new(alloc),
            inputs: Seq::new(alloc),
            clocks: Seq::new(alloc),
            outputs: Seq::new(alloc),
            covers: Seq::new(alloc),
            latches: Seq::new(alloc),
            dontcares: Seq::new(alloc),
        };
        for _ in 0..signals {
            append_text(&mut flat.signals, Text::from_bytes(alloc, b"s")?)?;
        }
        if has_input && signals > 0 {
            append(&mut flat.inputs, signals - 1)?;
        }
        Ok(Model { flat })
    }

    /// Adds a cover.
    pub(crate) fn add(&mut self, cover: Cover) -> Result<(), Stop> {
        match self.flat.covers.push(cover) {
            Ok(()) => Ok(()),
            Err(_) => Err(Stop::NoMemory),
        }
    }

    /// The signals with which the model is refused.
    fn cycle(&self, alloc: Global) -> Result<Option<Seq<u32>>, Stop> {
        let known = unknown(alloc, self.flat.signals.len().saturating_add(1))?;
        first_cycle(alloc, &self.flat, &known)
    }

    /// Writes the values of the signals.
    fn evaluate(&self, alloc: Global, store: &mut Store, spans: Spans) -> Result<(), Stop> {
        let known = unknown(alloc, self.flat.signals.len().saturating_add(1))?;
        evaluate(alloc, &self.flat, &known, store, spans)
    }

    /// A store with the values of all signals.
    fn values(&self, alloc: Global, budget: u32) -> Result<Evaluated, Stop> {
        let count = self.flat.signals.len().min(MOST) as u32;
        let input = self.flat.inputs.get(0).copied();
        let vars = self.flat.inputs.len().min(1) as u32;
        let budget = budget.clamp(2, 64_000_000);
        let mut store = Store::with_budget(alloc, budget, 2 * count + 1, vars)?;
        let spans = take_spans(&mut store, count, input)?;
        self.evaluate(alloc, &mut store, spans)?;
        Ok(Evaluated { store, spans })
    }
}

/// Each of a thousand signals is the complement of the next, and the last is the input.
fn chain(alloc: Global) -> Result<Model, Stop> {
    let mut model = Model::new(alloc, 1000, true)?;
    for signal in 0..999u32 {
        let reads = [(signal + 1, false)];
        model.add(with_row(alloc, signal, true, reads.as_slice())?)?;
    }
    Ok(model)
}

/// Tells the values of signals.
fn tell_values(
    page: &mut Page,
    name: &str,
    evaluated: &Evaluated,
    signals: &[u32],
) -> Result<(), Stop> {
    for signal in signals {
        let values = evaluated.values(page.alloc(), *signal)?;
        page.word(name);
        page.word(": signal");
        page.behind_blank(*signal);
        page.word(" is ");
        page.debug(&values);
        page.word("\n");
    }
    Ok(())
}

/// Tells the numbers with which a model is refused, if it is.
pub(crate) fn tell_cycle(page: &mut Page, cycle: Option<Seq<u32>>) {
    match cycle {
        Some(signals) => page.debug(&signals.as_slice()),
        None => page.word("no cycle"),
    }
    page.word("\n");
}

/// Tells the two ends of a chain of inverters.
pub(crate) fn tell_chain(page: &mut Page) -> Result<(), Stop> {
    let evaluated = chain(page.alloc())?.values(page.alloc(), 4)?;
    tell_values(page, "chain", &evaluated, [999, 0].as_slice())
}

/// Signals 1 and 2 read each other, and signal 0 reads the input alone.
fn ring(alloc: Global) -> Result<Model, Stop> {
    let mut model = Model::new(alloc, 4, true)?;
    model.add(with_row(alloc, 0, true, [(3, false)].as_slice())?)?;
    model.add(with_row(alloc, 1, true, [(2, true), (3, true)].as_slice())?)?;
    model.add(with_row(alloc, 2, true, [(1, true)].as_slice())?)?;
    Ok(model)
}

/// Tells the signals with which a ring is refused.
pub(crate) fn tell_ring(page: &mut Page) -> Result<(), Stop> {
    page.word("ring: ");
    let cycle = ring(page.alloc())?.cycle(page.alloc())?;
    tell_cycle(page, cycle);
    Ok(())
}

/// With a row of no inputs a cover is constant 1, or 0 where the row is of the off-set; without rows it is constant 0.
fn constants(alloc: Global) -> Result<Model, Stop> {
    let mut model = Model::new(alloc, 4, false)?;
    model.add(with_row(alloc, 0, true, [].as_slice())?)?;
    model.add(empty(alloc, 1, true))?;
    model.add(with_row(alloc, 2, false, [].as_slice())?)?;
    model.add(empty(alloc, 3, false))?;
    Ok(model)
}

/// Tells the values of covers without inputs.
pub(crate) fn tell_constants(page: &mut Page) -> Result<(), Stop> {
    let evaluated = constants(page.alloc())?.values(page.alloc(), 2)?;
    tell_values(page, "constants", &evaluated, [0, 1, 2, 3].as_slice())
}
