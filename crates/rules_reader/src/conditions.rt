//! The conditions of the faults of a line.

ghost use Rattle.std.specs.Prelude.{◌≡◌, [], ◌∷◌, ◌||◌, length, IfOk};
ghost use Rattle.std.specs.List.{list_any};
ghost use Rattle.vrt_model.specs.Lists.{has_name};
ghost use Rattle.rules_reader.specs.Keys.{clocks_on};
ghost use Rattle.rules_reader.specs.Refused.{clocks_named, first_missing, has_bad_expression, has_bad_number, is_bad_bit, is_bit_of, is_misplaced, known_from, lacks_bit, passes_limit, passes_own_limit, phases_named};

use crate::known::Known;
use crate::texts::copy;
use names::Names;
use rules_expression::{count_operators, is_form, is_too_deep};
use rules_lines::{ClockBit, Entry};
use std::alloc::Global;
use text_lines::{WordList, count_words, first_word};
use vrt_model::{NoMemory, Text};

fn is_of_clock(clock: &[u8], b: &ClockBit) -> bool
    ensures { result ≡ is_bit_of clock.now b.now }
{
    clock == b.clock.as_bytes()
}

/// Whether there is a bit of a clock.
fn has_bit(bits: &[ClockBit], clock: &[u8]) -> bool
    ensures { result ≡ list_any (is_bit_of clock.now) bits.now }
{
    let mut at = 0;
    'bits: while at < bits.len() {
        if is_of_clock(clock, &bits[at]) {
            return true;
        }
        at += 1;
    }
    false
}

fn lacks(bits: &[ClockBit], clock: &[u8]) -> bool
    ensures { result ≡ lacks_bit bits.now clock.now }
{
    !has_bit(bits, clock)
}

/// Whether some clock has no bit.
fn any_lacks(bits: &[ClockBit], clocks: &[Text]) -> bool
    ensures { result ≡ list_any (lacks_bit bits.now) clocks.now }
{
    let mut at = 0;
    'clocks: while at < clocks.len() {
        if lacks(bits, clocks[at].as_bytes()) {
            return true;
        }
        at += 1;
    }
    false
}

/// Whether a `phase` line comes too late, or gives some clock no bit.
fn is_phase_misplaced(alloc: Global, known: &Known, bits: &[ClockBit]) -> Result<bool, NoMemory>
    ensures { IfOk result (λ b. b ≡ (known.now.is_phase_named || list_any (lacks_bit bits.now) known.now.clocks)) }
{
    if known.is_phase_named {
        return Ok(true);
    }
    let clocks = known.clocks.to_texts(alloc)?;
    Ok(any_lacks(bits, clocks.as_slice()))
}

/// Whether a line comes too late, or gives some clock no bit.
pub fn is_line_misplaced(alloc: Global, known: &Known, entry: &Entry) -> Result<bool, NoMemory>
    ensures { IfOk result (λ b. b ≡ is_misplaced known.now entry.now) }
{
    match entry {
        Entry::ScaleLine { .. } => Ok(known.has_levels),
        Entry::ClockLine { .. } => Ok(!known.phases.is_empty()),
        Entry::PhaseLine { bits, .. } => is_phase_misplaced(alloc, known, bits.as_slice()),
        _ => Ok(false),
    }
}

fn has_no_bit(b: &ClockBit) -> bool
    ensures { result ≡ is_bad_bit b.now }
{
    b.bit.is_none()
}

fn any_has_no_bit(bits: &[ClockBit]) -> bool
    ensures { result ≡ list_any is_bad_bit bits.now }
{
    for b in bits {
        if has_no_bit(b) {
            return true;
        }
    }
    false
}

/// Whether a level or a size is not of its range and form at this scale, or a bit is neither 0 nor 1.
pub fn is_number_bad(scale: u8, entry: &Entry) -> bool
    ensures { result ≡ has_bad_number scale entry.now }
{
    match entry {
        Entry::DeviceLine { level, .. } => level.at(scale).is_none(),
        Entry::StrengthLine { level, .. } => level.at(scale).is_none(),
        Entry::PhaseLine { bits, .. } => any_has_no_bit(bits.as_slice()),
        Entry::HoldLine { size, .. } => size.at(scale).is_none(),
        Entry::EnterLine { bit, .. } => bit.is_none(),
        _ => false,
    }
}

/// Whether an expression has another form.
pub fn is_expression_bad(entry: &Entry) -> bool
    ensures { result ≡ has_bad_expression entry.now }
{
    match entry {
        Entry::AssumeLine { tokens, .. } => !is_form(tokens),
        _ => false,
    }
}

/// Whether a phase is known.
fn has_phase(phases: &Names, name: &[u8]) -> bool
    ensures { result ≡ has_name (known_from phases.now) name.now }
{
    if phases.is_empty() {
        return name == b"all".as_slice();
    }
    phases.contains(name)
}

fn missing_phase(alloc: Global, phases: &Names, name: &Text) -> Result<Option<Text>, NoMemory>
    ensures { IfOk result (λ found. found ≡ first_missing (known_from phases.now) (name.now ∷ [])) }
{
    if has_phase(phases, name.as_bytes()) {
        return Ok(None);
    }
    let name = copy(alloc, name)?;
    Ok(Some(name))
}

/// The first of some phases that is not known.
fn first_missing_phase(
    alloc: Global,
    phases: &Names,
    names: &WordList,
) -> Result<Option<Text>, NoMemory>
    ensures { IfOk result (λ found. found ≡ first_missing (known_from phases.now) names.now) }
{
    let mut rest = names.as_line();
    'names: while let Some((name, behind)) = first_word(rest) {
        if !has_phase(phases, name) {
            let name = Text::from_bytes(alloc, name)?;
            return Ok(Some(name));
        }
        rest = behind;
    }
    Ok(None)
}

/// The first phase that a line names and no line before declares.
pub fn unknown_phase(alloc: Global, phases: &Names, entry: &Entry) -> Result<Option<Text>, NoMemory>
    ensures { IfOk result (λ found. found ≡ first_missing (known_from phases.now) (phases_named entry.now)) }
{
    match entry {
        Entry::EnterLine { phase, .. } => missing_phase(alloc, phases, phase),
        Entry::ObserveLine { phases: named, .. } => { first_missing_phase(alloc, phases, named) }
        Entry::AssumeLine {
            phase: Some(phase),
            ..
        } => missing_phase(alloc, phases, phase),
        _ => Ok(None),
    }
}

fn missing_clock(alloc: Global, clocks: &Names, name: &Text) -> Result<Option<Text>, NoMemory>
    ensures { IfOk result (λ found. found ≡ first_missing clocks.now (name.now ∷ [])) }
{
    if clocks.contains(name.as_bytes()) {
        return Ok(None);
    }
    let name = copy(alloc, name)?;
    Ok(Some(name))
}

/// The first clock of a phase that is not known.
fn first_missing_clock(
    alloc: Global,
    clocks: &Names,
    bits: &[ClockBit],
) -> Result<Option<Text>, NoMemory>
    ensures { IfOk result (λ found. found ≡ first_missing clocks.now (clocks_on bits.now)) }
{
    let mut at = 0;
    'bits: while at < bits.len() {
        if !clocks.contains(bits[at].clock.as_bytes()) {
            let name = copy(alloc, &bits[at].clock)?;
            return Ok(Some(name));
        }
        at += 1;
    }
    Ok(None)
}

/// The first clock that a line names and no line before declares.
pub fn unknown_clock(alloc: Global, clocks: &Names, entry: &Entry) -> Result<Option<Text>, NoMemory>
    ensures { IfOk result (λ found. found ≡ first_missing clocks.now (clocks_named entry.now)) }
{
    match entry {
        Entry::ClockportLine { clock, .. } => missing_clock(alloc, clocks, &clock.name),
        Entry::DefaultclockLine { clock } => missing_clock(alloc, clocks, clock),
        Entry::PhaseLine { bits, .. } => first_missing_clock(alloc, clocks, bits.as_slice()),
        _ => Ok(None),
    }
}

/// How many words there are.
fn word_count(words: &WordList) -> usize
    ensures { result ≡ length words.now }
{
    count_words(words.as_line())
}

fn is_past_own_limit(clocks: &Names, phases: &Names, entry: &Entry) -> bool
    ensures { result ≡ passes_own_limit clocks.now phases.now entry.now }
{
    match entry {
        Entry::ClockLine { names } => {
            let count = word_count(names);
            count > 16 || clocks.len() > 16 - count
        }
        Entry::PhaseLine { .. } => phases.len() >= 16,
        Entry::AssumeLine { tokens, .. } => {
            is_too_deep(tokens) || count_operators(tokens) > 1000
        }
        _ => false,
    }
}

/// Whether a line passes a limit, where so many stand before it.
pub fn is_past_limit(count: usize, clocks: &Names, phases: &Names, entry: &Entry) -> bool
    ensures { result ≡ passes_limit count clocks.now phases.now entry.now }
{
    count >= 100_000 || is_past_own_limit(clocks, phases, entry)
}
