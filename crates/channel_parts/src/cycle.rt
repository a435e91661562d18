//! The first cycle of arcs: the first of the graph of nets and parts, without its parts.

ghost use Rattle.std.specs.Prelude.{◌≡◌, ℕ, List, filter, length, nat_lt, IfOk, IfSome, IsNone};
ghost use Rattle.channel_parts.specs.Labels.{AreBelow};
ghost use Rattle.channel_parts.specs.Ranks.{AreLeast};
ghost use Rattle.known_nets.specs.KnownTables.{IsKnownTable, known_at};
ghost use Rattle.known_nets.specs.Wired.{IsWired};
ghost use Rattle.vrt_model.specs.Known.{HasArc, IsCycle, IsFirstCycle};

use crate::net_arcs::net_graph;
use graphs::first_cycle;
use std::alloc::Global;
use vrt_model::{Circuit, NoMemory, Phase};

/// Those of some numbers that are below a count.
fn numbers_below(alloc: Global, numbers: &[u32], count: usize) -> Result<Vec<u32>, NoMemory>
    ensures { IfOk result (λ t. t.items ≡ filter (λ n. nat_lt n count) numbers.now) }
{
    let all = numbers.iter().copied();
    match all
        .filter(|number| (*number as usize) < count)
        .collect(alloc)
    {
        Ok(numbers) => Ok(numbers),
        Err(_) => Err(NoMemory),
    }
}

/// The cycle of arcs of a phase that begins with the least net on any, where these nets are known and these are the least
/// nets of the parts, or none exactly where the arcs have no cycle.
pub(crate) fn search_all(
    alloc: Global,
    circuit: &Circuit,
    phase: &Phase,
    known: &[Option<bool>],
    least: &[usize],
) -> Result<Option<Vec<u32>>, NoMemory>
    requires wired { IsWired circuit.now }
    requires nets { length least.now ≡ length circuit.now.nets }
    requires below { AreBelow least.now }
    ensures found { IfOk result (λ o. IfSome o (λ t. IsKnownTable circuit.now phase.now (known_at known.now) → AreLeast circuit.now phase.now least.now → IsFirstCycle (HasArc circuit.now phase.now) t.items)) }
    ensures none { IfOk result (λ o. IsNone o → IsKnownTable circuit.now phase.now (known_at known.now) → AreLeast circuit.now phase.now least.now → (nets : List ℕ) → ¬ IsCycle (HasArc circuit.now phase.now) nets) }
{
    let table = net_graph(alloc, circuit, phase, known, least)?;
    let graph = table.as_slice();
    let found = first_cycle(alloc, graph)?;
    match found {
        Some(numbers) => {
            let nets = numbers_below(alloc, numbers.as_slice(), least.len())?;
            Ok(Some(nets))
        }
        None => Ok(None),
    }
}
