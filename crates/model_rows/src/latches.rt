//! Latches of each kind, at both bits of their clock.

use crate::checks::{append, append_known, element_number};
use crate::models::{Model, Spans, evaluate, first_cycle, tell_cycle, with_row};
use crate::spans::{bit, put, take, word};
use crate::stop::Stop;
use crate::values::{valuation, value};
use bdd_core::{H, ONE, Store, ZERO};
use row_script::Page;
use std::alloc::Global;
use vrt_model::{FlatLatch, LatchKind, Seq};

/// The functions that a latch gives, each as its bits at the eight valuations of the input, the held bit of the first
/// element and that of the second: 15 is the input, 51 the first held bit and 85 the second.
#[derive(Clone, Copy)]
struct Given {
    /// That of its output.
    output: u32,
    /// That of its first element.
    first: u32,
    /// That of its last element.
    last: u32,
}

/// The signal that is the output of the latch.
const OUTPUT: u32 = 0;

/// The signal that is the clock.
const CLOCK: u32 = 1;

/// The signal that is the input.
const INPUT: u32 = 2;

/// A model of one latch: its output, its clock and its input.
fn drawn(alloc: Global, kind: LatchKind, control: Option<u32>) -> Result<Model, Stop> {
    let mut model = Model::new(alloc, 3, true)?;
    append(&mut model.flat.clocks, CLOCK)?;
    let latch = FlatLatch {
        input: INPUT,
        output: OUTPUT,
        kind,
        control,
    };
    match model.flat.latches.push(latch) {
        Ok(()) => Ok(model),
        Err(_) => Err(Stop::NoMemory),
    }
}

/// What is known of three signals, of which one is the clock, and of the default clock.
fn known(
    alloc: Global,
    clock: Option<bool>,
    default: Option<bool>,
) -> Result<Seq<Option<bool>>, Stop> {
    let mut known = Seq::new(alloc);
    for bit in [None, clock, None, default] {
        append_known(&mut known, bit)?;
    }
    Ok(known)
}

/// The handle of a constant.
fn constant(bit: bool) -> H {
    if bit { ONE } else { ZERO }
}

/// Takes the spans of a latch, with the first variable as its input and the next two as held bits.
fn take_spans(store: &mut Store, elements: u32, clock: bool, default: bool) -> Result<Spans, Stop> {
    let inputs = take(store, 4)?;
    let held = take(store, elements)?;
    let out = take(store, elements.saturating_add(3))?;
    let input = bit(store, 0)?;
    put(store, inputs, INPUT, input);
    put(store, inputs, CLOCK, constant(clock));
    put(store, inputs, 3, constant(default));
    for at in 0..elements.min(2) {
        let old = bit(store, at + 1)?;
        put(store, held, at, old);
    }
    Ok(Spans { inputs, held, out })
}

/// The bits of a function at the eight valuations of three variables, as a number.
fn table(alloc: Global, store: &Store, f: H) -> Result<u32, Stop> {
    let mut table = 0u32;
    for number in 0..8u32 {
        let here = valuation(alloc, [4, 2, 1].as_slice(), number)?;
        let bit = value(store, f, &here)? as u32;
        table = table.saturating_mul(2).saturating_add(bit);
    }
    Ok(table)
}

/// What a latch gives where its clock and the default clock have these bits.
fn work_out(
    alloc: Global,
    kind: LatchKind,
    control: Option<u32>,
    clock: bool,
    default: bool,
) -> Result<Given, Stop> {
    let model = drawn(alloc, kind, control)?;
    let Some(elements) = element_number(model.flat.latches.as_slice()) else {
        return Err(Stop::Unfit);
    };
    let mut store = Store::with_budget(alloc, 1000, 20, 3)?;
    let spans = take_spans(&mut store, elements, clock, default)?;
    let known = known(alloc, Some(clock), Some(default))?;
    evaluate(alloc, &model.flat, &known, &mut store, spans)?;
    let output = table(alloc, &store, word(&store, spans.out, OUTPUT))?;
    let first = table(alloc, &store, word(&store, spans.out, 3))?;
    let last = table(
        alloc,
        &store,
        word(&store, spans.out, elements.saturating_add(2)),
    )?;
    Ok(Given {
        output,
        first,
        last,
    })
}

/// Tells a latch, the bit at which it is, and what it gives there.
fn tell_given(page: &mut Page, kind: LatchKind, at: &str, bit: bool, given: Given) {
    page.word("latch ");
    page.debug(&kind);
    page.word(at);
    page.bit(bit);
    page.word(": output");
    page.behind_blank(given.output);
    page.word(", elements");
    page.behind_blank(given.first);
    page.word(" to");
    page.behind_blank(given.last);
    page.word("\n");
}

/// Tells what a latch gives by its own clock, and by the default clock; the other of the two has the other bit.
fn tell(page: &mut Page, kind: LatchKind, bit: bool) -> Result<(), Stop> {
    let own = work_out(page.alloc(), kind, Some(CLOCK), bit, !bit)?;
    tell_given(page, kind, " at ", bit, own);
    let default = work_out(page.alloc(), kind, None, !bit, bit)?;
    tell_given(page, kind, " at default ", bit, default);
    Ok(())
}

/// Tells what latches of each kind give at both bits of their clock.
pub(crate) fn tell_kinds(page: &mut Page) -> Result<(), Stop> {
    for bit in [false, true] {
        tell(page, LatchKind::Ah, bit)?;
        tell(page, LatchKind::Al, bit)?;
        tell(page, LatchKind::Re, bit)?;
        tell(page, LatchKind::Fe, bit)?;
    }
    Ok(())
}

/// A latch that takes in the complement of its own output. The input is not read.
fn ring(alloc: Global, clock: Option<bool>) -> Result<Option<Seq<u32>>, Stop> {
    let mut model = Model::new(alloc, 4, true)?;
    append(&mut model.flat.clocks, CLOCK)?;
    model.add(with_row(alloc, INPUT, true, [(OUTPUT, false)].as_slice())?)?;
    let latch = FlatLatch {
        input: INPUT,
        output: OUTPUT,
        kind: LatchKind::Ah,
        control: Some(CLOCK),
    };
    if model.flat.latches.push(latch).is_err() {
        return Err(Stop::NoMemory);
    }
    let mut known = known(alloc, clock, None)?;
    append_known(&mut known, None)?;
    first_cycle(alloc, &model.flat, &known)
}

/// Tells with which numbers a latch that takes in the complement of its own output is refused.
pub(crate) fn tell_rings(page: &mut Page) -> Result<(), Stop> {
    for clock in [None, Some(false), Some(true)] {
        let cycle = ring(page.alloc(), clock)?;
        page.word("latch ring at ");
        page.debug(&clock);
        page.word(": ");
        tell_cycle(page, cycle);
    }
    Ok(())
}
