//! What is assumed of a cell as a function: its `assume` lines for a phase.

ghost use Rattle.std.specs.Prelude.{◌≡◌, sum_by};
ghost use Rattle.bdd_core.specs.Store.{IsLive, function_of};
ghost use Rattle.constraints.specs.Handles.{HasHandles, handle_in};
ghost use Rattle.constraints.specs.Obliged.{AddsTest, all_hold, assume_holds, assume_operations, is_asked};

use crate::expression::diagram;
use crate::ports::Ports;
use bdd_core::{H, Spent, Store};
use bdd_ops::and;
use vrt_model::AssumeRule;

/// Whether an `assume` line is for a cell in a phase.
pub(crate) fn is_asked(rule: &AssumeRule, cell: &[u8], phase: u32) -> bool
    ensures { result ≡ is_asked cell.now phase rule.now }
{
    let is_phase = match rule.phase {
        Some(other) => other == phase,
        None => true,
    };
    rule.cell.as_bytes() == cell && is_phase
}

/// A function, where besides an `assume` line holds, if it is for this cell and phase.
fn add_assumed(
    store: &mut Store,
    rule: &AssumeRule,
    cell: &[u8],
    phase: u32,
    ports: Ports<'_>,
    all: H,
) -> Result<H, Spent>
    requires handles { HasHandles store.old ports }
    requires all { IsLive store.old all }
    ensures { AddsTest (handle_in store.old.words ports.entry) (assume_operations cell.now phase rule.now) (function_of store.old all) (assume_holds store.old (handle_in store.old.words ports.entry) cell.now phase rule.now) store.old store.new result }
{
    store.sound();
    if !is_asked(rule, cell, phase) {
        return Ok(all);
    }
    let one = match diagram(store, &rule.expression, ports) {
        Ok(one) => one,
        Err(spent) => return Err(spent),
    };
    and(store, all, one)
}

/// A function, where besides each `assume` line for a cell and phase holds.
pub(crate) fn add_assumptions(
    store: &mut Store,
    rules: &[AssumeRule],
    cell: &[u8],
    phase: u32,
    ports: Ports<'_>,
    start: H,
) -> Result<H, Spent>
    requires handles { HasHandles store.old ports }
    requires start { IsLive store.old start }
    ensures { AddsTest (handle_in store.old.words ports.entry) (sum_by (assume_operations cell.now phase) rules.now) (function_of store.old start) (all_hold (assume_holds store.old (handle_in store.old.words ports.entry) cell.now phase) rules.now) store.old store.new result }
{
    store.sound();
    let mut all = start;
    let mut rest = rules;
    'rules: while let Some((rule, behind)) = rest.split_first() {
        all = match add_assumed(store, rule, cell, phase, ports, all) {
            Ok(all) => all,
            Err(spent) => return Err(spent),
        };
        rest = behind;
    }
    Ok(all)
}
