//! The fault of a line, by what the lines before it tell.

ghost use Rattle.std.specs.Prelude.{◌≡◌, ◌||◌, not, OnOk};
ghost use Rattle.vrt_model.specs.Lists.{is_empty};
ghost use Rattle.names.specs.Names.{with_names};
ghost use Rattle.text_lines.specs.Faults.{Judges};
ghost use Rattle.rules_reader.specs.Learned.{learned, learned_by};
ghost use Rattle.rules_reader.specs.Refused.{entry_fault, fault_by, levels_on, phases_named};
ghost use Rattle.rules_reader.specs.Tables.{clocks_in, phase_names_in, scale_from, scales_in};

use crate::cards::Card;
use crate::conditions::{
    is_expression_bad, is_line_misplaced, is_number_bad, is_past_limit, unknown_clock,
    unknown_phase,
};
use crate::faults::RulesFault;
use crate::keys::claim_keys;
use crate::known::Known;
use names::Names;
use rules_lines::Entry;
use std::alloc::Global;
use text_lines::{WordList, first_word};
use vrt_model::NoMemory;

/// Adds names, each that is not there.
fn add_names(known: &mut Names, names: &WordList) -> Result<(), NoMemory>
    ensures { OnOk result (known.new ≡ with_names known.old names.now) }
{
    let mut rest = names.as_line();
    'names: while let Some((name, behind)) = first_word(rest) {
        known.number(name)?;
        rest = behind;
    }
    Ok(())
}

/// Adds the clocks of a line.
fn learn_clocks(clocks: &mut Names, entry: &Entry) -> Result<(), NoMemory>
    ensures { OnOk result (clocks.new ≡ with_names clocks.old (clocks_in entry.now)) }
{
    match entry {
        Entry::ClockLine { names } => add_names(clocks, names),
        _ => Ok(()),
    }
}

/// Adds the phase of a line.
fn learn_phase(phases: &mut Names, entry: &Entry) -> Result<(), NoMemory>
    ensures { OnOk result (phases.new ≡ with_names phases.old (phase_names_in entry.now)) }
{
    match entry {
        Entry::PhaseLine { name, .. } => {
            phases.number(name.as_bytes())?;
            Ok(())
        }
        _ => Ok(()),
    }
}

/// Whether there is a word.
fn has_words(words: &WordList) -> bool
    ensures { result ≡ not (is_empty words.now) }
{
    match first_word(words.as_line()) {
        Some(_) => true,
        None => false,
    }
}

/// Whether a line names a phase.
fn names_phase(entry: &Entry) -> bool
    ensures { result ≡ not (is_empty (phases_named entry.now)) }
{
    match entry {
        Entry::EnterLine { .. } => true,
        Entry::ObserveLine { phases, .. } => has_words(phases),
        Entry::AssumeLine { phase, .. } => phase.is_some(),
        _ => false,
    }
}

/// The scale behind a line.
fn scale_behind(scale: u8, entry: &Entry) -> u8
    ensures { result ≡ scale_from scale (scales_in entry.now) }
{
    match entry {
        Entry::ScaleLine { scale } => *scale,
        _ => scale,
    }
}

/// Whether a line has a level or a size.
fn has_level(entry: &Entry) -> bool
    ensures { result ≡ not (is_empty (levels_on entry.now)) }
{
    match entry {
        Entry::DeviceLine { .. } => true,
        Entry::StrengthLine { .. } => true,
        Entry::HoldLine { .. } => true,
        _ => false,
    }
}

/// Judges what a line says, and learns it if it has no fault. Of several faults it answers the one of the lowest
/// number.
#[tactic(auto, unfolding(crate::specs::Refused::entry_fault))]
fn judge_entry(
    alloc: Global,
    count: usize,
    known: &mut Known,
    line: u32,
    entry: &Entry,
) -> Result<(), RulesFault>
    ensures fault { Judges RulesFault.NoMemory result (entry_fault count known.old line entry.now) }
    ensures next { OnOk result (known.new ≡ learned_by known.old entry.now) }
{
    let Ok(misplaced) = is_line_misplaced(alloc, known, entry) else {
        return Err(RulesFault::NoMemory);
    };
    if misplaced {
        return Err(RulesFault::Word { line });
    }
    if is_number_bad(known.scale, entry) {
        return Err(RulesFault::Number { line });
    }
    if is_expression_bad(entry) {
        return Err(RulesFault::Expr { line });
    }
    let Ok(repeated) = claim_keys(alloc, &mut known.keys, entry) else {
        return Err(RulesFault::NoMemory);
    };
    if let Some(name) = repeated {
        return Err(RulesFault::Twice { line, name });
    }
    let Ok(phase) = unknown_phase(alloc, &known.phases, entry) else {
        return Err(RulesFault::NoMemory);
    };
    if let Some(name) = phase {
        return Err(RulesFault::UnknownPhase { line, name });
    }
    let Ok(clock) = unknown_clock(alloc, &known.clocks, entry) else {
        return Err(RulesFault::NoMemory);
    };
    if let Some(name) = clock {
        return Err(RulesFault::UnknownClock { line, name });
    }
    if is_past_limit(count, &known.clocks, &known.phases, entry) {
        return Err(RulesFault::Limit { line });
    }
    if learn_clocks(&mut known.clocks, entry).is_err() {
        return Err(RulesFault::NoMemory);
    }
    if learn_phase(&mut known.phases, entry).is_err() {
        return Err(RulesFault::NoMemory);
    }
    known.is_phase_named = known.is_phase_named || names_phase(entry);
    known.scale = scale_behind(known.scale, entry);
    known.has_levels = known.has_levels || has_level(entry);
    Ok(())
}

/// Judges a line, and learns it if it has no fault. So many lines stand before it.
pub fn judge(alloc: Global, count: usize, known: &mut Known, card: &Card) -> Result<(), RulesFault>
    ensures fault { Judges RulesFault.NoMemory result (fault_by count known.old card.now) }
    ensures next { OnOk result (known.new ≡ learned known.old card.now) }
{
    let line = card.line;
    if !card.is_all_text {
        return Err(RulesFault::NotText { line });
    }
    match &card.entry {
        Some(entry) => judge_entry(alloc, count, known, line, entry),
        None => Err(RulesFault::Word { line }),
    }
}
