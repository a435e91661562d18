//! The levels of nets, which are told of an equal phase.

ghost use Rattle.std.specs.Prelude.{ℕ, ◌+◌, ◌≤◌, length};
ghost use Rattle.drive_levels.specs.NetLevels.{drive_operations};
ghost use Rattle.drive_levels.specs.PhaseLevels.{HasTables, KeepsTables};
ghost use Rattle.phase_check.specs.Levels.{TellsLevels};
ghost use Rattle.phase_check.specs.States.{IsSearchable, IsWished, KeepsRoom};
ghost use Rattle.phase_terms.specs.Ready.{comparison_in};

use crate::search::Search;
use bdd_core::{Spent, Store};
use drive_levels::{NetLevels, net_levels};

/// Writes the levels of the nets that are asked for, where the phase is equal: each has exactly the level that it has in the bare and in
/// the kept circuit at each valuation that meets the constraints, or none.
///
/// `Spent` comes only with more than four variables, where the operations so far and those of the levels may add more nodes than the
/// budget has; then as many nodes are there.
pub fn write_levels(
    store: &mut Store,
    search: Search<'_>,
    levels: &mut NetLevels,
) -> Result<(), Spent>
    requires search { IsSearchable (comparison_in search.compared) search.phase search.plan.now }
    requires budget { 65536 ≤ store.old.budget }
    requires wished { (made : ℕ) × IsWished (comparison_in search.compared) search.phase store.old.budget made search.plan.now search.care search.words store.old }
    requires levels { HasTables (length search.compared.circuit.now.nets) levels.old }
    ensures gives { (made : ℕ) → TellsLevels search.entry made store.old store.new levels.new result }
    ensures tables { KeepsTables levels.old levels.new }
    ensures kept { KeepsRoom store.old store.new }
{
    store.sound();
    let words = search.words;
    net_levels(
        store,
        search.compared.circuit,
        search.plan.parts.list.as_slice(),
        search.plan.kept.list.as_slice(),
        search.plan.observed.as_slice(),
        search.care,
        words.gates,
        words.out,
        levels,
    )
}
