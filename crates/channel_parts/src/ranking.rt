//! Ranks of nets: a part is above each net that is not known and at the gate of a device of the part, and above each net that a
//! link leads to it, where the net is not known or a named port.

ghost use Rattle.std.specs.Prelude.{◌≡◌, ℕ, ◌<◌, length, slice_index, IfOk, IfSome, IsNone};
ghost use Rattle.channel_parts.specs.Labels.{AreBelow};
ghost use Rattle.channel_parts.specs.Ranks.{AreLeast, IsAcyclicArcs, has_unknown_gate, rank_by};
ghost use Rattle.known_nets.specs.KnownTables.{IsKnownTable, known_at};
ghost use Rattle.known_nets.specs.Wired.{IsWired};
ghost use Rattle.vrt_model.specs.Known.{IsRanking};

use crate::sources::sources_by_part;
use graphs::{all_levelled, levels_of};
use known_nets::{is_plain, known_bit};
use std::alloc::Global;
use vrt_model::{Circuit, Device, NoMemory, Phase};

/// The rank that a net has by now.
fn rank_at(circuit: &Circuit, least: &[usize], ranks: &[usize], net: usize) -> usize
    requires net { net < length least.now }
    requires below { AreBelow least.now }
    requires len { length ranks.now ≡ length least.now }
    ensures { result ≡ rank_by circuit.now least.now ranks.now net }
{
    if is_plain(circuit, net) {
        ranks[least[net]]
    } else {
        0
    }
}

/// Whether a device of the bare circuit has a gate that is not known.
pub(crate) fn has_unknown_gate(known: &[Option<bool>], device: &Device) -> bool
    ensures { result ≡ has_unknown_gate known.now device.now }
{
    let unknown = match known_bit(known, device.gate.0 as usize) {
        Some(_) => false,
        None => true,
    };
    !device.keeper && unknown
}

/// The ranks by net.
fn by_net(
    alloc: Global,
    circuit: &Circuit,
    least: &[usize],
    ranks: &[usize],
) -> Result<Vec<usize>, NoMemory>
    requires nets { length least.now ≡ length circuit.now.nets }
    requires below { AreBelow least.now }
    requires len { length ranks.now ≡ length least.now }
    ensures len { IfOk result (λ t. length t.items ≡ length circuit.now.nets) }
    ensures ranks { IfOk result (λ t. (n : ℕ) → slice_index t.items n ≡ rank_by circuit.now least.now ranks.now n) }
{
    let mut table = Vec::new(alloc);
    for net in 0..least.len() {
        let rank = rank_at(circuit, least, ranks, net);
        let Ok(()) = table.push(rank) else {
            return Err(NoMemory);
        };
    }
    Ok(table)
}

/// The ranks in a phase where these nets are known and these are the least nets of the parts, or none where there are no ranks.
pub(crate) fn ranked(
    alloc: Global,
    circuit: &Circuit,
    phase: &Phase,
    known: &[Option<bool>],
    least: &[usize],
) -> Result<Option<Vec<usize>>, NoMemory>
    requires wired { IsWired circuit.now }
    requires nets { length least.now ≡ length circuit.now.nets }
    requires below { AreBelow least.now }
    ensures len { IfOk result (λ o. IfSome o (λ t. length t.items ≡ length circuit.now.nets)) }
    ensures ranked { IfOk result (λ o. IfSome o (λ t. IsKnownTable circuit.now phase.now (known_at known.now) → AreLeast circuit.now phase.now least.now → IsRanking circuit.now phase.now (slice_index t.items))) }
    ensures cyclic { IfOk result (λ o. IsNone o → IsKnownTable circuit.now phase.now (known_at known.now) → AreLeast circuit.now phase.now least.now → (rank : ℕ → ℕ) → ¬ IsRanking circuit.now phase.now rank) }
    ensures around { IfOk result (λ o. IsNone o → IsKnownTable circuit.now phase.now (known_at known.now) → AreLeast circuit.now phase.now least.now → ¬ IsAcyclicArcs circuit.now phase.now) }
{
    let table = sources_by_part(alloc, circuit, phase, known, least)?;
    let sources = table.as_slice();
    let found = levels_of(alloc, sources)?;
    let levels = found.as_slice();
    if !all_levelled(levels) {
        return Ok(None);
    }
    let ranks = by_net(alloc, circuit, least, levels)?;
    Ok(Some(ranks))
}
