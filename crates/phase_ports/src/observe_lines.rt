//! In which phases an output port is observed, by the `observe` rules of its cell.

ghost use Rattle.std.specs.Prelude.{◌≡◌, ◌&&◌, bytes_eq, find, option_and_then, slice_get};
ghost use Rattle.std.specs.Option.{option_copied};
ghost use Rattle.phase_ports.specs.Seen.{is_rule_of};
ghost use Rattle.rule_index.specs.Tables.{AreRuleTables};
ghost use Rattle.vrt_model.specs.CellRules.{is_observed_port};
ghost use Rattle.vrt_model.specs.Lists.{has_number};
ghost use Rattle.vrt_model.specs.declared.rules.ObserveRule.{ObserveRule as RuleValue};

use rule_index::RuleIndex;
use vrt_model::{ObserveRule, Rules, Text};

/// Whether the rule at a place is of the port.
fn is_rule_of(rules: &[ObserveRule], place: usize, port: &Text) -> bool
    ensures { result ≡ is_rule_of rules.now port.now place }
{
    match rules.get(place) {
        Some(rule) => rule.port.as_bytes() == port.as_bytes(),
        None => false,
    }
}

/// The first rule of a port among those at these places.
fn rule_among<'a>(
    rules: &'a [ObserveRule],
    places: &[usize],
    port: &Text,
) -> Option<&'a ObserveRule>
    ensures { option_copied result ≡ option_and_then (slice_get rules.entry.now) (find (is_rule_of rules.entry.now port.now) places.now) }
{
    let mut rest = places;
    'places: while let Some((place, behind)) = rest.split_first() {
        if is_rule_of(rules, *place, port) {
            return rules.get(*place);
        }
        rest = behind;
    }
    None
}

/// The first `observe` rule of a port of a cell: only the rules of this cell are looked at.
fn rule_of<'a>(
    index: &RuleIndex,
    rules: &'a Rules,
    cell: &Text,
    port: &Text,
) -> Option<&'a ObserveRule>
    requires tables { AreRuleTables rules.now index.now }
    ensures { option_copied result ≡ find (λ (r : RuleValue). bytes_eq r.cell cell.now && bytes_eq r.port port.now) rules.entry.now.observes }
{
    let places = index.lines.ports.observes.places(cell.as_bytes());
    rule_among(rules.observes.as_slice(), places, port)
}

/// Whether a rule names a phase.
fn has_phase(rule: &ObserveRule, phase: u32) -> bool
    ensures { result ≡ has_number rule.now.phases phase }
{
    rule.phases
        .as_slice()
        .iter()
        .any(|observed| *observed == phase)
}

/// Whether an output port is observed in a phase: in those of its rule, and in all where it has none.
pub fn is_observed_port(
    index: &RuleIndex,
    rules: &Rules,
    cell: &Text,
    port: &Text,
    phase: u32,
) -> bool
    requires tables { AreRuleTables rules.now index.now }
    ensures { result ≡ is_observed_port rules.now cell.now port.now phase }
{
    match rule_of(index, rules, cell, port) {
        Some(rule) => has_phase(rule, phase),
        None => true,
    }
}
