//! The first name in the rules that is not there.

ghost use Rattle.std.specs.Prelude.{◌≡◌, IfOk};
ghost use Rattle.vrt_model.specs.Hierarchy.{missing_name};
ghost use Rattle.vrt_model.specs.Inputs.{IsDesign};
ghost use Rattle.vrt_model.specs.Unsupported.{carried};
ghost use Rattle.hierarchy.specs.Names.{earliest, missing_in, names_before, names_between, names_missing, naming_lines};

use crate::lines::{
    assume_names, clockport_names, earlier, enter_names, hold_names, instance_match_names,
    keeper_names, match_names, observe_names, pair_names, port_names, strength_names,
};
use crate::lookups::{MissingName, Tables};
use std::alloc::Global;
use vrt_model::{Design, NoMemory, Rules};

/// The first name on the `strength`, `clockport`, `pair` and `port` lines that is not there.
fn first_name<'a>(tables: &Tables, rules: &'a Rules) -> Option<MissingName<'a>>
    ensures { missing_in result ≡ earliest (names_before tables.now rules.entry.now) }
{
    let first = strength_names(tables, rules.strengths.as_slice());
    let first = earlier(first, clockport_names(tables, rules.clockports.as_slice()));
    let first = earlier(first, pair_names(tables, rules.pairs.as_slice()));
    earlier(first, port_names(tables, rules.ports.as_slice()))
}

/// The same with the `hold`, `keeper` and `match` lines.
fn next_name<'a>(tables: &Tables, rules: &'a Rules) -> Option<MissingName<'a>>
    ensures { missing_in result ≡ earliest (names_between tables.now rules.entry.now) }
{
    let first = first_name(tables, rules);
    let first = earlier(first, hold_names(tables, rules.holds.as_slice()));
    let first = earlier(first, keeper_names(tables, rules.keepers.as_slice()));
    let first = earlier(first, match_names(tables, rules.matches.as_slice()));
    earlier(
        first,
        instance_match_names(tables, rules.instance_matches.as_slice()),
    )
}

/// The same with the `enter`, `observe` and `assume` lines, which are all that name what can be missing.
fn last_name<'a>(tables: &Tables, rules: &'a Rules) -> Option<MissingName<'a>>
    ensures { missing_in result ≡ earliest (names_missing tables.now rules.entry.now) }
{
    let first = next_name(tables, rules);
    let first = earlier(first, enter_names(tables, rules.enters.as_slice()));
    let first = earlier(first, observe_names(tables, rules.observes.as_slice()));
    earlier(first, assume_names(tables, rules.assumes.as_slice()))
}

/// How many lines name what can be missing.
fn naming_lines(rules: &Rules) -> usize
    ensures { result ≡ carried (naming_lines rules.now) }
{
    rules
        .strengths
        .len()
        .saturating_add(rules.clockports.len())
        .saturating_add(rules.pairs.len())
        .saturating_add(rules.ports.len())
        .saturating_add(rules.holds.len())
        .saturating_add(rules.keepers.len())
        .saturating_add(rules.matches.len())
        .saturating_add(rules.instance_matches.len())
        .saturating_add(rules.enters.len())
        .saturating_add(rules.observes.len())
        .saturating_add(rules.assumes.len())
}

/// The first rules line that names a cell, or a device, a net, a port or an instance of one, that the netlist has not, or
/// that matches or enters a net without a `hold` line; and the first such name on it. The nets of `supply` lines are not
/// asked. It takes time and memory in proportion to the cards and the rules, and none where no such line is there.
pub fn missing_name<'a>(
    alloc: Global,
    design: &Design,
    rules: &'a Rules,
) -> Result<Option<MissingName<'a>>, NoMemory>
    requires { IsDesign design.now }
    ensures { IfOk result (λ found. missing_in found ≡ missing_name design.now rules.entry.now) }
{
    if naming_lines(rules) == 0 {
        return Ok(None);
    }
    let mut tables = Tables::new(alloc);
    tables.fill(alloc, design, rules)?;
    Ok(last_name(&tables, rules))
}
