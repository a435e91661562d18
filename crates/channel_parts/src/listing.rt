//! The plain nets in the order of parts: by rank, in a rank by the least net of the part, in a part net by net.

ghost use Rattle.std.specs.Prelude.{◌≡◌, ◌+◌, ◌<◌, ◌++◌, ◌∷◌, [], length, IfOk, OnOk};
ghost use Rattle.channel_parts.specs.Listings.{AreInOrder, ArePairs, key_of};

use known_nets::is_plain;
use std::alloc::Global;
use vrt_model::{Circuit, NoMemory};

/// The rank of a net and the least net of its part.
fn key(ranks: &[usize], least: &[usize], net: usize) -> (usize, usize)
    requires ranks { net < length ranks.now }
    requires least { net < length least.now }
    ensures { result ≡ key_of ranks.now least.now net }
{
    (ranks[net], least[net])
}

/// Adds a net after its key at the end.
fn append(
    pairs: &mut Vec<((usize, usize), usize)>,
    pair: ((usize, usize), usize),
) -> Result<(), NoMemory>
    ensures { OnOk result (pairs.new.items ≡ pairs.old.items ++ pair ∷ []) }
{
    match pairs.push(pair) {
        Ok(()) => Ok(()),
        Err(_) => Err(NoMemory),
    }
}

/// Adds a net after its key, where it is plain.
fn add(
    circuit: &Circuit,
    ranks: &[usize],
    least: &[usize],
    net: usize,
    pairs: &mut Vec<((usize, usize), usize)>,
) -> Result<(), NoMemory>
    requires ranks { net < length ranks.now }
    requires least { net < length least.now }
    ensures { OnOk result (ArePairs circuit.now ranks.now least.now net pairs.old.items → ArePairs circuit.now ranks.now least.now (net + 1) pairs.new.items) }
{
    if !is_plain(circuit, net) {
        return Ok(());
    }
    append(pairs, (key(ranks, least, net), net))
}

/// The plain nets, each after its key, in net order.
fn plain_pairs(
    alloc: Global,
    circuit: &Circuit,
    ranks: &[usize],
    least: &[usize],
) -> Result<Vec<((usize, usize), usize)>, NoMemory>
    requires { length ranks.now ≡ length least.now }
    ensures { IfOk result (λ t. ArePairs circuit.now ranks.now least.now (length least.now) t.items) }
{
    let mut pairs = Vec::new(alloc);
    for net in 0..least.len() {
        add(circuit, ranks, least, net, &mut pairs)?;
    }
    Ok(pairs)
}

/// The plain nets in their order, each after its rank and the least net of its part.
pub fn in_order(
    alloc: Global,
    circuit: &Circuit,
    ranks: &[usize],
    least: &[usize],
) -> Result<Vec<((usize, usize), usize)>, NoMemory>
    requires ranks { length ranks.now ≡ length circuit.now.nets }
    requires least { length least.now ≡ length circuit.now.nets }
    ensures { IfOk result (λ t. AreInOrder circuit.now ranks.now least.now t.items) }
{
    let mut pairs = plain_pairs(alloc, circuit, ranks, least)?;
    match pairs.sort() {
        Ok(()) => Ok(pairs),
        Err(_) => Err(NoMemory),
    }
}
