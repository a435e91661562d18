//! The nets of each cell that a rule declares to keep their charge.

ghost use Rattle.std.specs.Prelude.{◌≡◌, [], get_or, length, replicate, set, IfOk, OnOk};
ghost use Rattle.names.specs.Names.{with_name};
ghost use Rattle.hierarchy.specs.Held.{AreHeld, HasHeld};

use names::Names;
use std::alloc::Global;
use vrt_model::{HoldRule, NoMemory};

/// So many empty sets.
fn no_names(alloc: Global, count: usize) -> Result<Vec<Names>, NoMemory>
    ensures { IfOk result (λ sets. sets.items ≡ replicate count []) }
{
    let mut sets = Vec::new(alloc);
    for _at in 0..count {
        if sets.push(Names::new(alloc)).is_err() {
            return Err(NoMemory);
        }
    }
    Ok(sets)
}

/// Adds a name to the set at a place, if there is one.
fn add_at(sets: &mut Vec<Names>, at: usize, name: &[u8]) -> Result<(), NoMemory>
    ensures { OnOk result (sets.new.items ≡ set sets.old.items at (with_name (get_or sets.old.items at []) name.now)) }
{
    if at < sets.len() {
        sets[at].number(name)?;
    }
    Ok(())
}

/// Adds the net of a rule to the set of its cell, if there is such a cell.
fn add_held(sets: &mut Vec<Names>, cells: &Names, rule: &HoldRule) -> Result<(), NoMemory>
    ensures { OnOk result (HasHeld cells.now rule.now sets.old.items sets.new.items) }
{
    if let Some(at) = cells.place(rule.cell.as_bytes()) {
        add_at(sets, at, rule.net.as_bytes())?;
    }
    Ok(())
}

/// Adds the nets of rules to sets that are empty, one for each cell.
fn add_all_held(sets: &mut Vec<Names>, cells: &Names, rules: &[HoldRule]) -> Result<(), NoMemory>
    requires { sets.old.items ≡ replicate (length cells.now) [] }
    ensures { OnOk result (AreHeld cells.now rules.now sets.new.items) }
{
    for rule in rules {
        add_held(sets, cells, rule)?;
    }
    Ok(())
}

/// For each cell, by its number, the nets that a `hold` rule names.
pub(crate) fn held_nets(
    alloc: Global,
    cells: &Names,
    rules: &[HoldRule],
) -> Result<Vec<Names>, NoMemory>
    ensures { IfOk result (λ sets. AreHeld cells.now rules.now sets.items) }
{
    let mut sets = no_names(alloc, cells.len())?;
    add_all_held(&mut sets, cells, rules)?;
    Ok(sets)
}
