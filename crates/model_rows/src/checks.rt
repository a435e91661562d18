//! Whether what the rows have made meets the conditions of the calls over models.

ghost use Rattle.std.specs.Prelude.{◌≡◌, ℕ, ◌+◌, ◌<◌, ◌≤◌, ◌++◌, ◌∷◌, ◌==◌, ◌⊎◌, [], All, Bool, Some, true, cond, length, map, slice_get, sum_by, count_by, IfOk, IfSome, OnOk};
ghost use Rattle.bdd_core.specs.Store.{IsSpan};
ghost use Rattle.bdd_core.specs.Words.{IsApart, IsFilled};
ghost use Rattle.blif_eval.specs.Evaluated.{AreConstants, HasModelSpans};
ghost use Rattle.blif_eval.specs.Plans.{AreOutside, entry_of};
ghost use Rattle.model_rows.specs.Outputs.{outputs_in};
ghost use Rattle.vrt_model.specs.Elements.{element_count, element_names};
ghost use Rattle.vrt_model.specs.FlatModels.{IsControl, IsCover, IsFlatModel, IsLatch, IsRow, drivers_of};
ghost use Rattle.vrt_model.specs.Lists.{Among};
ghost use Rattle.vrt_model.specs.declared.flat_model.FlatLatch.{FlatLatch as LatchValue};
ghost use Rattle.vrt_model.specs.declared.flat_model.Cover.{Cover as CoverValue};
ghost use Rattle.vrt_model.specs.declared.flat_model.DontCare.{DontCare as DontCareValue};

use crate::spans::is_live;
use bdd_core::Store;
use node_pool::Span;
use std::alloc::Global;
use vrt_model::{Cover, DontCare, FlatLatch, FlatModel, LatchKind, NoMemory, Seq, Text};

fn are_signs(bytes: &[u8]) -> bool
    ensures { result ≡ true → All (λ b. (b ≡ 48) ⊎ (b ≡ 49) ⊎ (b ≡ 45)) bytes.now }
{
    bytes.iter().all(|b| *b == 48 || *b == 49 || *b == 45)
}

fn is_row(row: &Text, width: usize) -> bool
    ensures { result ≡ true → IsRow width row.now }
{
    row.as_bytes().len() == width && are_signs(row.as_bytes())
}

fn are_rows(rows: &[Text], width: usize) -> bool
    ensures { result ≡ true → All (IsRow width) rows.now }
{
    rows.iter().all(|row| is_row(row, width))
}

/// Whether numbers, as those of signals, are all below a count.
pub(crate) fn are_below(numbers: &[u32], count: u32) -> bool
    ensures { result ≡ true → All (λ s. s < count) numbers.now }
{
    numbers.iter().all(|s| *s < count)
}

/// Whether a cover reads and gives signals below a count, and each row has a `0`, `1` or `-` for each input.
pub(crate) fn is_cover(cover: &Cover, count: u32) -> bool
    ensures { result ≡ true → IsCover count cover.now }
{
    are_below(cover.inputs.as_slice(), count)
        && cover.output < count
        && are_rows(cover.rows.as_slice(), cover.inputs.len())
}

/// Whether each word of a span is a live handle.
pub(crate) fn are_live(store: &Store, span: Span) -> bool
    requires { IsSpan store.now span }
    ensures { result ≡ true → IsFilled store.now span }
{
    let count = store.node_count();
    for s in 0..span.len {
        if store.read(span, s) >= count {
            return false;
        }
    }
    true
}

/// Adds a number at the end of a list.
pub(crate) fn append(list: &mut Seq<u32>, number: u32) -> Result<(), NoMemory>
    ensures { OnOk result (list.new ≡ list.old ++ number ∷ []) }
{
    match list.push(number) {
        Ok(()) => Ok(()),
        Err(_) => Err(NoMemory),
    }
}

/// How often a number stands in a list.
fn times(numbers: &[u32], s: u32) -> usize
    ensures { result ≡ count_by (λ d. d == s) numbers.now }
{
    numbers.iter().filter(|d| **d == s).count()
}

fn is_one(a: usize, b: usize, c: usize) -> bool
    ensures { result ≡ true → a + b + c ≡ 1 }
{
    (a == 1 && b == 0 && c == 0) || (a == 0 && b == 1 && c == 0) || (a == 0 && b == 0 && c == 1)
}

/// Adds the outputs of covers.
fn add_outputs(list: &mut Seq<u32>, covers: &[Cover]) -> Result<(), NoMemory>
    ensures { OnOk result (list.new ≡ list.old ++ map (λ (c : CoverValue). c.output) covers.now) }
{
    for cover in covers {
        append(list, cover.output)?;
    }
    Ok(())
}

/// Adds the outputs of latches.
fn add_latch_outputs(list: &mut Seq<u32>, latches: &[FlatLatch]) -> Result<(), NoMemory>
    ensures { OnOk result (list.new ≡ list.old ++ map (λ (l : LatchValue). l.output) latches.now) }
{
    for latch in latches {
        append(list, latch.output)?;
    }
    Ok(())
}

/// The outputs of covers, and behind them those of latches.
fn outputs(alloc: Global, flat: &FlatModel) -> Result<Seq<u32>, NoMemory>
    ensures { IfOk result (λ list. list ≡ outputs_in flat.now) }
{
    let mut list = Seq::new(alloc);
    add_outputs(&mut list, flat.covers.as_slice())?;
    add_latch_outputs(&mut list, flat.latches.as_slice())?;
    Ok(list)
}

fn have_one_driver(flat: &FlatModel, outputs: &[u32]) -> bool
    requires few { length flat.now.signals ≤ 20000 }
    requires outputs { outputs.now ≡ outputs_in flat.now }
    ensures { result ≡ true → (s : ℕ) → s < length flat.now.signals → count_by (λ d. d == s) (drivers_of flat.now) ≡ 1 }
{
    let count = flat.signals.len() as u32;
    for s in 0..count {
        let inputs = times(flat.inputs.as_slice(), s);
        let clocks = times(flat.clocks.as_slice(), s);
        if !is_one(inputs, clocks, times(outputs, s)) {
            return false;
        }
    }
    true
}

fn are_few_rows(covers: &[Cover]) -> bool
    ensures { result ≡ true → sum_by (λ (c : CoverValue). length c.rows) covers.now ≤ 200000 }
{
    let mut left = 200000usize;
    for cover in covers {
        if cover.rows.len() > left {
            return false;
        }
        left -= cover.rows.len();
    }
    true
}

fn is_control(control: Option<u32>, count: u32) -> bool
    ensures { result ≡ true → IsControl count control }
{
    match control {
        Some(signal) => signal < count,
        None => true,
    }
}

fn is_latch(latch: &FlatLatch, count: u32) -> bool
    ensures { result ≡ true → IsLatch count latch.now }
{
    latch.input < count && latch.output < count && is_control(latch.control, count)
}

fn are_latches(latches: &[FlatLatch], count: u32) -> bool
    ensures { result ≡ true → All (IsLatch count) latches.now }
{
    latches.iter().all(|latch| is_latch(latch, count))
}

/// Whether the signals of don't-care bits and their outputs are below a count.
fn are_dontcares(dontcares: &[DontCare], count: u32) -> bool
    ensures { result ≡ true → All (λ (d : DontCareValue). (d.output < count) × (d.bit < count)) dontcares.now }
{
    dontcares
        .iter()
        .all(|one| one.output < count && one.bit < count)
}

fn are_in_range(flat: &FlatModel, count: u32) -> bool
    ensures { result ≡ true → All (λ s. s < count) flat.now.inputs × All (λ s. s < count) flat.now.clocks × All (λ s. s < count) flat.now.outputs × All (IsCover count) flat.now.covers × All (IsLatch count) flat.now.latches × All (λ (d : DontCareValue). (d.output < count) × (d.bit < count)) flat.now.dontcares }
{
    are_below(flat.inputs.as_slice(), count)
        && are_below(flat.clocks.as_slice(), count)
        && are_below(flat.outputs.as_slice(), count)
        && flat
            .covers
            .as_slice()
            .iter()
            .all(|cover| is_cover(cover, count))
        && are_latches(flat.latches.as_slice(), count)
        && are_dontcares(flat.dontcares.as_slice(), count)
}

fn is_well_formed(flat: &FlatModel, outputs: &[u32]) -> bool
    requires few { length flat.now.signals ≤ 20000 }
    requires rows { sum_by (λ (c : CoverValue). length c.rows) flat.now.covers ≤ 200000 }
    requires range { All (λ s. s < length flat.now.signals) flat.now.inputs × All (λ s. s < length flat.now.signals) flat.now.clocks × All (λ s. s < length flat.now.signals) flat.now.outputs × All (IsCover (length flat.now.signals)) flat.now.covers × All (IsLatch (length flat.now.signals)) flat.now.latches × All (λ (d : DontCareValue). (d.output < length flat.now.signals) × (d.bit < length flat.now.signals)) flat.now.dontcares }
    requires outputs { outputs.now ≡ outputs_in flat.now }
    ensures { result ≡ true → IsFlatModel flat.now }
{
    have_one_driver(flat, outputs)
}

/// Whether a model is well formed.
pub(crate) fn is_flat_model(alloc: Global, flat: &FlatModel) -> Result<bool, NoMemory>
    ensures { IfOk result (λ b. b ≡ true → IsFlatModel flat.now) }
{
    if flat.signals.len() > 20000 {
        return Ok(false);
    }
    if !are_few_rows(flat.covers.as_slice()) || !are_in_range(flat, flat.signals.len() as u32) {
        return Ok(false);
    }
    let outputs = outputs(alloc, flat)?;
    Ok(is_well_formed(flat, outputs.as_slice()))
}

fn are_apart(a: Span, b: Span) -> bool
    ensures { result ≡ true → IsApart a b }
{
    a.start as u64 + a.len as u64 <= b.start as u64
}

/// How many elements a latch has.
fn elements_of(kind: LatchKind) -> u32
    ensures { result ≡ element_count kind }
{
    match kind {
        LatchKind::Re | LatchKind::Fe => 2,
        LatchKind::Ah | LatchKind::Al => 1,
    }
}

/// The latch at a place.
fn latch_at(latches: &[FlatLatch], at: usize) -> FlatLatch
    requires { at < length latches.now }
    ensures { slice_get latches.now at ≡ Some result }
{
    latches[at]
}

/// How many elements latches have.
pub(crate) fn element_number(latches: &[FlatLatch]) -> Option<u32>
    ensures { IfSome result (λ n. n ≡ sum_by (λ (l : LatchValue). element_count l.kind) latches.now) }
{
    let mut number = 0u32;
    for at in 0..latches.len() {
        let latch = latch_at(latches, at);
        let Some(more) = number.checked_add(elements_of(latch.kind)) else {
            return None;
        };
        number = more;
    }
    Some(number)
}

/// Whether spans have the lengths that a model with so many elements asks for.
fn are_long(flat: &FlatModel, elements: u32, inputs: Span, held: Span, out: Span) -> bool
    requires elements { elements ≡ length (element_names flat.now) }
    ensures { result ≡ true → (inputs.len ≡ length flat.now.signals + 1) × (held.len ≡ length (element_names flat.now)) × (out.len ≡ length flat.now.signals + length (element_names flat.now)) }
{
    let signals = flat.signals.len() as u64;
    signals < 20001
        && inputs.len as u64 == signals + 1
        && held.len == elements
        && out.len as u64 == signals + elements as u64
}

/// Whether spans are those of a model.
pub(crate) fn are_model_spans(
    store: &Store,
    flat: &FlatModel,
    inputs: Span,
    held: Span,
    out: Span,
) -> bool
    ensures { result ≡ true → HasModelSpans flat.now inputs held out store.now }
{
    let Some(elements) = element_number(flat.latches.as_slice()) else {
        return false;
    };
    if !is_live(store, inputs) || !is_live(store, held) || !is_live(store, out) {
        return false;
    }
    if !are_long(flat, elements, inputs, held, out) {
        return false;
    }
    are_live(store, inputs)
        && are_live(store, held)
        && are_apart(inputs, out)
        && are_apart(held, out)
}

/// Whether a signal is an input or a clock.
fn is_given(flat: &FlatModel, s: u32) -> bool
    ensures { result ≡ true → Among (flat.now.inputs ++ flat.now.clocks) s }
{
    let inputs = times(flat.inputs.as_slice(), s);
    let clocks = times(flat.clocks.as_slice(), s);
    inputs > 0 || clocks > 0
}

/// What is known of a signal.
fn entry(known: &Seq<Option<bool>>, at: u32) -> Option<bool>
    ensures { result ≡ entry_of known.now at }
{
    match known.get(at as usize) {
        Some(bit) => *bit,
        None => None,
    }
}

/// Whether each known bit of a signal is that of an input or a clock.
pub(crate) fn are_outside(flat: &FlatModel, known: &Seq<Option<bool>>) -> bool
    ensures { result ≡ true → AreOutside flat.now known.now }
{
    if flat.signals.len() > 20000 {
        return false;
    }
    for s in 0..flat.signals.len() as u32 {
        if entry(known, s).is_some() && !is_given(flat, s) {
            return false;
        }
    }
    true
}

/// Whether a word is the constant that is known.
fn is_constant(known: Option<bool>, word: u32) -> bool
    ensures { result ≡ true → (b : Bool) → known ≡ Some b → word ≡ cond b 1 0 }
{
    match known {
        Some(true) => word == 1,
        Some(false) => word == 0,
        None => true,
    }
}

/// Whether the known bits stand in a span as constants.
pub(crate) fn are_constants(store: &Store, known: &Seq<Option<bool>>, span: Span) -> bool
    requires { IsSpan store.now span }
    ensures { result ≡ true → AreConstants known.now span store.now }
{
    if known.len() > span.len as usize {
        return false;
    }
    for s in 0..span.len {
        if !is_constant(entry(known, s), store.read(span, s)) {
            return false;
        }
    }
    true
}

/// Adds an entry at the end of a list of known bits.
pub(crate) fn append_known(list: &mut Seq<Option<bool>>, bit: Option<bool>) -> Result<(), NoMemory>
    ensures { OnOk result (list.new ≡ list.old ++ bit ∷ []) }
{
    match list.push(bit) {
        Ok(()) => Ok(()),
        Err(_) => Err(NoMemory),
    }
}

/// A list of this length in which no bit is known.
pub(crate) fn unknown(alloc: Global, count: usize) -> Result<Seq<Option<bool>>, NoMemory> {
    let mut known = Seq::new(alloc);
    for _at in 0..count {
        append_known(&mut known, None)?;
    }
    Ok(known)
}
