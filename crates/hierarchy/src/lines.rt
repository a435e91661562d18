//! The first name on each kind of line in the rules that is not there.

ghost use Rattle.std.specs.Prelude.{◌≡◌, filter_map};
ghost use Rattle.hierarchy.specs.Names.{earlier, earliest, missing_assumed, missing_by, missing_cell, missing_held, missing_in};
ghost use Rattle.hierarchy.specs.declared.sets.Kind.{Kind};
ghost use Rattle.vrt_model.specs.declared.rules.StrengthRule.{StrengthRule as StrengthValue};
ghost use Rattle.vrt_model.specs.declared.rules.ClockportRule.{ClockportRule as ClockportValue};
ghost use Rattle.vrt_model.specs.declared.rules.PairRule.{PairRule as PairValue};
ghost use Rattle.vrt_model.specs.declared.rules.PortRule.{PortRule as PortValue};
ghost use Rattle.vrt_model.specs.declared.rules.HoldRule.{HoldRule as HoldValue};
ghost use Rattle.vrt_model.specs.declared.rules.KeeperRule.{KeeperRule as KeeperValue};
ghost use Rattle.vrt_model.specs.declared.rules.MatchRule.{MatchRule as MatchValue};
ghost use Rattle.vrt_model.specs.declared.rules.InstanceMatchRule.{InstanceMatchRule as InstanceMatchValue};
ghost use Rattle.vrt_model.specs.declared.rules.EnterRule.{EnterRule as EnterValue};
ghost use Rattle.vrt_model.specs.declared.rules.ObserveRule.{ObserveRule as ObserveValue};
ghost use Rattle.vrt_model.specs.declared.rules.AssumeRule.{AssumeRule as AssumeValue};

use crate::lookups::{MissingName, Tables, find_assumed, find_cell, find_held, find_missing};
use crate::sets::Kind;
use vrt_model::{
    AssumeRule, ClockportRule, EnterRule, HoldRule, InstanceMatchRule, KeeperRule, MatchRule,
    ObserveRule, PairRule, PortRule, StrengthRule,
};

/// Of two names that of the earlier line, of one line the first.
pub(crate) fn earlier<'a>(
    one: Option<MissingName<'a>>,
    other: Option<MissingName<'a>>,
) -> Option<MissingName<'a>>
    ensures { missing_in result ≡ earlier (missing_in one.entry) (missing_in other.entry) }
{
    match (one, other) {
        (Some(first), Some(second)) => Some(if second.line < first.line {
            second
        } else {
            first
        }),
        (Some(first), None) => Some(first),
        (None, other) => other,
    }
}

/// The first name on a `strength` line that is not there.
pub(crate) fn strength_names<'a>(
    tables: &Tables,
    rules: &'a [StrengthRule],
) -> Option<MissingName<'a>>
    ensures { missing_in result ≡ earliest (filter_map (λ (r : StrengthValue). missing_by tables.now Kind.Devices r.line r.cell r.device) rules.entry.now) }
{
    let mut first = None;
    for rule in rules {
        let (cell, name) = (rule.cell.as_bytes(), rule.device.as_bytes());
        let found = find_missing(tables, Kind::Devices, rule.line, cell, name);
        first = earlier(first, found);
    }
    first
}

/// The first name on a `clockport` line that is not there.
pub(crate) fn clockport_names<'a>(
    tables: &Tables,
    rules: &'a [ClockportRule],
) -> Option<MissingName<'a>>
    ensures { missing_in result ≡ earliest (filter_map (λ (r : ClockportValue). missing_by tables.now Kind.Ports r.line r.cell r.port) rules.entry.now) }
{
    let mut first = None;
    for rule in rules {
        let (cell, name) = (rule.cell.as_bytes(), rule.port.as_bytes());
        let found = find_missing(tables, Kind::Ports, rule.line, cell, name);
        first = earlier(first, found);
    }
    first
}

/// The first name on a `pair` line that is not there.
pub(crate) fn pair_names<'a>(tables: &Tables, rules: &'a [PairRule]) -> Option<MissingName<'a>>
    ensures { missing_in result ≡ earliest (filter_map (λ (r : PairValue). missing_cell tables.now r.line r.cell) rules.entry.now) }
{
    let mut first = None;
    for rule in rules {
        let found = find_cell(tables, rule.line, rule.cell.as_bytes());
        first = earlier(first, found);
    }
    first
}

/// The first name on a `port` line that is not there.
pub(crate) fn port_names<'a>(tables: &Tables, rules: &'a [PortRule]) -> Option<MissingName<'a>>
    ensures { missing_in result ≡ earliest (filter_map (λ (r : PortValue). missing_by tables.now Kind.Ports r.line r.cell r.port) rules.entry.now) }
{
    let mut first = None;
    for rule in rules {
        let (cell, name) = (rule.cell.as_bytes(), rule.port.as_bytes());
        let found = find_missing(tables, Kind::Ports, rule.line, cell, name);
        first = earlier(first, found);
    }
    first
}

/// The first name on a `hold` line that is not there.
pub(crate) fn hold_names<'a>(tables: &Tables, rules: &'a [HoldRule]) -> Option<MissingName<'a>>
    ensures { missing_in result ≡ earliest (filter_map (λ (r : HoldValue). missing_by tables.now Kind.Nets r.line r.cell r.net) rules.entry.now) }
{
    let mut first = None;
    for rule in rules {
        let (cell, name) = (rule.cell.as_bytes(), rule.net.as_bytes());
        let found = find_missing(tables, Kind::Nets, rule.line, cell, name);
        first = earlier(first, found);
    }
    first
}

/// The first name on a `keeper` line that is not there.
pub(crate) fn keeper_names<'a>(tables: &Tables, rules: &'a [KeeperRule]) -> Option<MissingName<'a>>
    ensures { missing_in result ≡ earliest (filter_map (λ (r : KeeperValue). missing_by tables.now Kind.Devices r.line r.cell r.device) rules.entry.now) }
{
    let mut first = None;
    for rule in rules {
        let (cell, name) = (rule.cell.as_bytes(), rule.device.as_bytes());
        let found = find_missing(tables, Kind::Devices, rule.line, cell, name);
        first = earlier(first, found);
    }
    first
}

/// The first name on a `match` line of a net that is not there.
pub(crate) fn match_names<'a>(tables: &Tables, rules: &'a [MatchRule]) -> Option<MissingName<'a>>
    ensures { missing_in result ≡ earliest (filter_map (λ (r : MatchValue). missing_held tables.now r.line r.cell r.net) rules.entry.now) }
{
    let mut first = None;
    for rule in rules {
        let (cell, name) = (rule.cell.as_bytes(), rule.net.as_bytes());
        let found = find_held(tables, rule.line, cell, name);
        first = earlier(first, found);
    }
    first
}

/// The first name on a `match` line of an instance that is not there.
pub(crate) fn instance_match_names<'a>(
    tables: &Tables,
    rules: &'a [InstanceMatchRule],
) -> Option<MissingName<'a>>
    ensures { missing_in result ≡ earliest (filter_map (λ (r : InstanceMatchValue). missing_by tables.now Kind.Instances r.line r.cell r.instance) rules.entry.now) }
{
    let mut first = None;
    for rule in rules {
        let (cell, name) = (rule.cell.as_bytes(), rule.instance.as_bytes());
        let found = find_missing(tables, Kind::Instances, rule.line, cell, name);
        first = earlier(first, found);
    }
    first
}

/// The first name on an `enter` line that is not there.
pub(crate) fn enter_names<'a>(tables: &Tables, rules: &'a [EnterRule]) -> Option<MissingName<'a>>
    ensures { missing_in result ≡ earliest (filter_map (λ (r : EnterValue). missing_held tables.now r.line r.cell r.net) rules.entry.now) }
{
    let mut first = None;
    for rule in rules {
        let (cell, name) = (rule.cell.as_bytes(), rule.net.as_bytes());
        let found = find_held(tables, rule.line, cell, name);
        first = earlier(first, found);
    }
    first
}

/// The first name on an `observe` line that is not there.
pub(crate) fn observe_names<'a>(
    tables: &Tables,
    rules: &'a [ObserveRule],
) -> Option<MissingName<'a>>
    ensures { missing_in result ≡ earliest (filter_map (λ (r : ObserveValue). missing_by tables.now Kind.Ports r.line r.cell r.port) rules.entry.now) }
{
    let mut first = None;
    for rule in rules {
        let (cell, name) = (rule.cell.as_bytes(), rule.port.as_bytes());
        let found = find_missing(tables, Kind::Ports, rule.line, cell, name);
        first = earlier(first, found);
    }
    first
}

/// The first name on an `assume` line that is not there.
pub(crate) fn assume_names<'a>(tables: &Tables, rules: &'a [AssumeRule]) -> Option<MissingName<'a>>
    ensures { missing_in result ≡ earliest (filter_map (λ (r : AssumeValue). missing_assumed tables.now r.line r.cell r.expression) rules.entry.now) }
{
    let mut first = None;
    for rule in rules {
        let found = find_assumed(tables, rule.line, rule.cell.as_bytes(), &rule.expression);
        first = earlier(first, found);
    }
    first
}
