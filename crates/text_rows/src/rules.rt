//! Rules.

use crate::MOST_BYTES;
use row_script::Page;
use rules_reader::{RulesFault, read_rules};
use std::alloc::Global;
use vrt_model::Rules;

/// Tells how many rules of circuits there are.
fn tell_circuit_counts(page: &mut Page, rules: &Rules) {
    page.count(rules.supplies.len(), " supplies, ");
    page.count(rules.devices.len(), " devices, ");
    page.count(rules.strengths.len(), " strengths, ");
    page.count(rules.keepers.len(), " keepers, ");
    page.count(rules.holds.len(), " holds, ");
}

/// Tells how many rules of clocks and of what is checked there are.
fn tell_clocked_counts(page: &mut Page, rules: &Rules) {
    page.count(rules.clocks.len(), " clocks, ");
    page.count(rules.phases.len(), " phases, ");
    page.count(rules.clockports.len(), " clock ports, ");
    page.count(rules.enters.len(), " entries, ");
    page.count(rules.observes.len(), " observations, ");
    page.count(rules.assumes.len(), " assumptions");
}

/// The name that a fault has.
fn name_of(fault: &RulesFault) -> &[u8] {
    match fault {
        RulesFault::Twice { name, .. } => name.as_bytes(),
        RulesFault::UnknownPhase { name, .. } => name.as_bytes(),
        RulesFault::UnknownClock { name, .. } => name.as_bytes(),
        _ => &[],
    }
}

/// Tells how many rules a text has, or why it is refused.
pub(crate) fn tell(page: &mut Page, text: &[u8]) {
    if text.len() > MOST_BYTES {
        return page.word("too many bytes");
    }
    match read_rules(page.alloc(), text) {
        Ok(rules) => {
            tell_circuit_counts(page, &rules);
            tell_clocked_counts(page, &rules);
        }
        Err(fault) => page.fault(&fault, name_of(&fault)),
    }
}

/// Tells the net and the value of the first supply.
fn tell_supply(page: &mut Page, rules: &Rules) {
    if let Some(supply) = rules.supplies.get(0) {
        page.name(supply.net.as_bytes());
        page.word(" ");
        page.bit(supply.value);
    }
}

/// Tells the last phase, and its bit of the first clock.
fn tell_phase(page: &mut Page, rules: &Rules) {
    if let Some(phase) = rules.phases.as_slice().last() {
        page.name(phase.name.as_bytes());
        page.word(", ");
        page.count(phase.bits.len(), " bits, the first ");
        page.bit(phase.bits.get(0).copied().unwrap_or(false));
    }
}

/// Tells the phase and the value of the first entry.
fn tell_entry(page: &mut Page, rules: &Rules) {
    if let Some(entry) = rules.enters.get(0) {
        page.word("phase ");
        page.number(entry.phase);
        page.word(" ");
        page.bit(entry.value);
    }
}

/// Tells the levels of the second device rule and of the first strength rule, and the size of the first hold.
fn tell_levels(page: &mut Page, rules: &Rules) {
    let device = rules.devices.get(1).map_or(0, |rule| rule.level);
    let strength = rules.strengths.get(0).map_or(0, |rule| rule.level);
    let size = rules.holds.get(0).map_or(0, |rule| rule.size);
    page.count(device as usize, " ");
    page.count(strength as usize, " ");
    page.count(size as usize, "");
}

/// Tells the phase of the first assumption.
fn tell_assumption(page: &mut Page, rules: &Rules) {
    let phase = rules.assumes.get(0).map_or(None, |rule| rule.phase);
    page.debug(&phase);
}

/// Tells of rules: `supply`, `phase`, `entry`, `levels` or `assumption`.
fn answer(page: &mut Page, rules: &Rules, word: &str) {
    match word {
        "supply" => tell_supply(page, rules),
        "phase" => tell_phase(page, rules),
        "entry" => tell_entry(page, rules),
        "levels" => tell_levels(page, rules),
        "assumption" => tell_assumption(page, rules),
        _ => page.word("no such rule"),
    }
}

/// Tells of the rules of a text.
pub(crate) fn tell_rule(page: &mut Page, text: &[u8], word: &str) {
    if text.len() > MOST_BYTES {
        return page.word("too many bytes");
    }
    match read_rules(page.alloc(), text) {
        Ok(rules) => answer(page, &rules, word),
        Err(_) => page.word("rules that are not read"),
    }
}

/// Whether rules are read and have no more supplies than so many, or are refused for another cause than want of memory.
pub(crate) fn is_answered(alloc: Global, text: &[u8], most: usize) -> bool {
    if text.len() > MOST_BYTES {
        return false;
    }
    match read_rules(alloc, text) {
        Ok(rules) => rules.supplies.len() <= most,
        Err(RulesFault::NoMemory) => false,
        Err(_) => true,
    }
}
