//! Chains through the nodes, newest first. A head or a link is 0 for none, and otherwise one more than a node's place.

ghost use Rattle.std.specs.Prelude.{◌≡◌, ℕ, ◌+◌, ◌*◌, ◌<◌, ◌≤◌, ◌^◌, ◌++◌, length, replicate, slice_index, IfOk, vec_capacity};
ghost use Rattle.node_pool.specs.Region.{chain_of};
ghost use Rattle.node_pool.specs.Chains.{HeadsBelow, LinksRight, nodes_of, links_of};

use crate::Node;
use std::alloc::{AllocError, Global};

/// A node with its link. Both are asked for at once, so they stand together, in 16 bytes.
#[derive(Clone, Copy)]
pub struct Linked {
    /// The node.
    pub node: Node,
    /// The link to the newest of the older nodes on its chain.
    pub older: u32,
}

/// How many heads a pool begins with. Their number is this times a power of 4.
pub const FEWEST: u32 = 1024;

/// The chain that a node is on, of `mask` and one more. A product or a sum of many variables is made from its last variable on:
/// one branch of each node is the node made just before, and its variable the one before, while the other branch is the same for
/// all. The sum of the three stays the same then, so the nodes of one have heads near each other, which caches serve well.
/// Nodes with the same sum still differ in what is added to it. The multiplier is a prime of the package CUDD.
pub fn chain_at(mask: u32, node: Node) -> u32
    ensures place { result ≡ chain_of mask node }
    ensures within { result ≤ mask }
{
    let sum = node.lo.wrapping_add(node.hi).wrapping_add(node.var);
    let mixed = sum
        .wrapping_mul(12_582_917)
        .wrapping_add(node.lo)
        .wrapping_add(node.hi.wrapping_mul(3));
    mixed & mask
}

/// Has each chain lead to its newest node below `to`, by undoing the links of the nodes above, newest first.
pub fn unlink(heads: &mut Vec<u32>, nodes: &Vec<Linked>, mask: u32, to: usize)
    requires within { to ≤ length nodes.now.items }
    requires heads { HeadsBelow mask (nodes_of nodes.now.items) heads.old.items (length nodes.now.items) }
    requires heads_len { length heads.old.items ≡ mask + 1 }
    requires links { LinksRight mask (nodes_of nodes.now.items) (links_of nodes.now.items) }
    ensures heads { HeadsBelow mask (nodes_of nodes.now.items) heads.new.items to }
    ensures len { length heads.new.items ≡ length heads.old.items }
    ensures capacity { vec_capacity heads.new ≡ vec_capacity heads.old }
{
    let mut count = nodes.len();
    while count > to {
        count -= 1;
        let last = nodes[count];
        let chain = chain_at(mask, last.node) as usize;
        heads[chain] = last.older;
    }
}

/// The first heads, none of which leads anywhere, in memory for the most.
pub fn few_heads(alloc: Global, most: usize) -> Result<Vec<u32>, AllocError>
    requires { 1024 ≤ most }
    ensures items { IfOk result (λ heads. heads.items ≡ replicate 1024 0) }
    ensures capacity { IfOk result (λ heads. most ≤ vec_capacity heads) }
{
    let mut heads = Vec::with_capacity(alloc, most)?;
    push_zeros(&mut heads, FEWEST);
    Ok(heads)
}

/// Writes zeros.
pub fn clear(heads: &mut Vec<u32>)
    ensures zeros { (b : ℕ) → b < length heads.new.items → slice_index heads.new.items b ≡ 0 }
    ensures len { length heads.new.items ≡ length heads.old.items }
    ensures capacity { vec_capacity heads.new ≡ vec_capacity heads.old }
{
    for at in 0..heads.len() {
        heads[at] = 0;
    }
}

/// Appends zeros, for which there is room.
pub fn push_zeros(words: &mut Vec<u32>, len: u32)
    requires { length words.old.items + len ≤ vec_capacity words.old }
    ensures items { words.new.items ≡ words.old.items ++ replicate len 0 }
    ensures capacity { vec_capacity words.new ≡ vec_capacity words.old }
{
    for _ in 0..len {
        words.push_reserved(0);
    }
}

/// Has the chains lead through all nodes, where no head leads anywhere yet.
pub fn relink(heads: &mut Vec<u32>, nodes: &mut Vec<Linked>, mask: u32)
    requires none { (b : ℕ) → b ≤ mask → slice_index heads.old.items b ≡ 0 }
    requires heads_len { length heads.old.items ≡ mask + 1 }
    requires few { length nodes.old.items < 2 ^ 32 }
    ensures nodes { nodes_of nodes.new.items ≡ nodes_of nodes.old.items }
    ensures heads { HeadsBelow mask (nodes_of nodes.old.items) heads.new.items (length nodes.old.items) }
    ensures links { LinksRight mask (nodes_of nodes.old.items) (links_of nodes.new.items) }
    ensures heads_len { length heads.new.items ≡ mask + 1 }
    ensures heads_capacity { vec_capacity heads.new ≡ vec_capacity heads.old }
    ensures links_capacity { vec_capacity nodes.new ≡ vec_capacity nodes.old }
{
    for at in 0..nodes.len() {
        let chain = chain_at(mask, nodes[at].node) as usize;
        nodes[at].older = heads[chain];
        heads[chain] = at as u32 + 1;
    }
}
