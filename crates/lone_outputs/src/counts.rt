//! How many of some nets are in each part.

ghost use Rattle.std.specs.Prelude.{◌≡◌, ◌+◌, ◌<◌, All, IfOk, OnOk, length, replicate};
ghost use Rattle.channel_parts.specs.Labels.{AreBelow};
ghost use Rattle.lone_outputs.specs.Owners.{AreCounts, CountsNet};
ghost use Rattle.vrt_model.specs.declared.ids.Net.{Net as NetValue};

use known_nets::is_plain;
use std::alloc::Global;
use vrt_model::{Circuit, Net, NoMemory};

/// No count yet.
fn no_counts(alloc: Global, count: usize) -> Result<Vec<usize>, NoMemory>
    ensures { IfOk result (λ counts. counts.items ≡ replicate count 0) }
{
    match vec![in alloc; 0; count] {
        Ok(counts) => Ok(counts),
        Err(_) => Err(NoMemory),
    }
}

/// One more.
fn one_more(count: usize) -> Result<usize, NoMemory>
    ensures { IfOk result (λ more. more ≡ count + 1) }
{
    match count.checked_add(1) {
        Some(more) => Ok(more),
        None => Err(NoMemory),
    }
}

/// Counts a net at the least net of its part, if it is plain.
fn count_net(
    circuit: &Circuit,
    least: &[usize],
    net: Net,
    counts: &mut Vec<usize>,
) -> Result<(), NoMemory>
    requires net { net.0 < length least.now }
    requires below { AreBelow least.now }
    requires len { length counts.old.items ≡ length least.now }
    ensures { OnOk result (CountsNet circuit.now least.now net counts.old.items counts.new.items) }
{
    if !is_plain(circuit, net.0 as usize) {
        return Ok(());
    }
    let owner = least[net.0 as usize];
    let more = one_more(counts[owner])?;
    counts[owner] = more;
    Ok(())
}

/// For each net, by number, how many of these nets are in the part of which it is the least net.
pub(crate) fn count_nets(
    alloc: Global,
    circuit: &Circuit,
    least: &[usize],
    nets: &[Net],
) -> Result<Vec<usize>, NoMemory>
    requires nets { All (λ (n : NetValue). n.0 < length least.now) nets.now }
    requires below { AreBelow least.now }
    ensures len { IfOk result (λ counts. length counts.items ≡ length least.now) }
    ensures is { IfOk result (λ counts. AreCounts circuit.now least.now nets.now counts.items) }
{
    let mut counts = no_counts(alloc, least.len())?;
    for net in nets {
        count_net(circuit, least, *net, &mut counts)?;
    }
    Ok(counts)
}
