//! The rank of each net, by the parts.

ghost use Rattle.std.specs.Prelude.{◌≡◌, ◌≢◌, ℕ, ◌<◌, All, length, replicate, slice_index, IfOk};
ghost use Rattle.channel_parts.specs.declared.part.Part.{Part as PartValue};
ghost use Rattle.circuit_faults.specs.Keys.{AreNetRanks, IsNoted};
ghost use Rattle.vrt_model.specs.Lists.{Among};
ghost use Rattle.vrt_model.specs.declared.ids.Net.{Net as NetValue};

use channel_parts::Part;
use std::alloc::Global;
use vrt_model::{Net, NoMemory};

/// As many ranks of 0 as there are nets.
fn zeros(alloc: Global, count: usize) -> Result<Vec<usize>, NoMemory>
    ensures { IfOk result (λ t. t.items ≡ replicate count 0) }
{
    match vec![in alloc; 0; count] {
        Ok(ranks) => Ok(ranks),
        Err(_) => Err(NoMemory),
    }
}

/// Notes the rank of a net.
fn note(ranks: &mut Vec<usize>, net: Net, rank: usize)
    requires { net.0 < length ranks.old.items }
    ensures len { length ranks.new.items ≡ length ranks.old.items }
    ensures here { slice_index ranks.new.items net.0 ≡ rank }
    ensures others { (n : ℕ) → n ≢ net.0 → slice_index ranks.new.items n ≡ slice_index ranks.old.items n }
{
    ranks[net.0 as usize] = rank;
}

/// Notes the rank of a part at each of its nets.
fn note_part(ranks: &mut Vec<usize>, part: &Part)
    requires { All (λ (net : NetValue). net.0 < length ranks.old.items) part.now.nets }
    ensures len { length ranks.new.items ≡ length ranks.old.items }
    ensures noted { IsNoted part.now ranks.old.items ranks.new.items }
{
    let nets = part.nets.as_slice();
    for i in 0..nets.len() {
        note(ranks, nets[i], part.rank as usize);
    }
}

/// The rank of each net: that of its part, and 0 of a net that is in none.
pub(crate) fn net_ranks(alloc: Global, count: usize, parts: &[Part]) -> Result<Vec<usize>, NoMemory>
    requires { (part : PartValue) → Among parts.now part → All (λ (net : NetValue). net.0 < count) part.nets }
    ensures { IfOk result (λ ranks. AreNetRanks parts.now (length parts.now) ranks.items) }
{
    let mut ranks = zeros(alloc, count)?;
    for part in parts {
        note_part(&mut ranks, part);
    }
    Ok(ranks)
}
