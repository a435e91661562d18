//! The room for the phases of a cell: all memory that looking through them takes.

ghost use Rattle.std.specs.Prelude.{◌≡◌, ◌<◌, ◌≤◌, All, IfOk, length};
ghost use Rattle.cell_room.specs.Made.{IsRoom};
ghost use Rattle.phase_open.specs.Given.{AreFew};
ghost use Rattle.phase_terms.specs.Ready.{comparison_in};
ghost use Rattle.phase_terms.specs.Stores.{counts_of};
ghost use Rattle.vrt_model.specs.declared.ids.Net.{Net as NetValue};

use bdd_core::Store;
use drive_levels::{NetLevels, asking};
use node_pool::Mark;
use phase_open::word_count;
use phase_terms::{Comparison, WordCounts};
use std::alloc::Global;
use vrt_model::{Net, NoMemory};

/// All memory that looking through the phases of a cell takes.
#[derive(Drop)]
pub struct Room {
    /// The diagrams and words of a phase.
    pub store: Store,
    /// How the store was opened, to which it is cut back before each phase.
    pub start: Mark,
    /// The levels of the nets of output ports in a phase.
    pub levels: NetLevels,
}

/// The room for the phases of a comparison, with at most `budget` nodes in each and so many words by kind; of these nets the levels are
/// asked for.
pub fn room_for(
    alloc: Global,
    budget: u32,
    compared: Comparison<'_>,
    counts: WordCounts,
    outputs: &[Net],
) -> Result<Room, NoMemory>
    requires budget { (65536 ≤ budget) × (budget ≤ 64000000) }
    requires counts { counts ≡ counts_of (comparison_in compared) counts.variables }
    requires few { AreFew counts }
    requires there { All (λ (n : NetValue). n.0 < length compared.circuit.now.nets) outputs.now }
    ensures { IfOk result (IsRoom (comparison_in compared.entry) budget counts.variables outputs.now) }
{
    let levels = asking(alloc, compared.circuit.nets.len(), outputs)?;
    let store = Store::with_budget(alloc, budget, word_count(counts), counts.variables)?;
    let start = store.mark();
    Ok(Room {
        store,
        start,
        levels,
    })
}
