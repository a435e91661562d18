//! The pool.

ghost use Rattle.std.specs.Prelude.{◌≡◌, ℕ, ◌+◌, ◌-◌, ◌*◌, ◌<◌, ◌≤◌, ◌^◌, ◌↔◌, ◌⊎◌, List, [], ◌∷◌, ◌++◌, length, take, replicate, slice_index, slice_index_or, slice_set, IfOk, IfSome, IsNone, IsSome};
ghost use Rattle.std.specs.List.{Contains};

use crate::chains::{FEWEST, Linked, chain_at, clear, few_heads, push_zeros, relink, unlink};
use crate::{Mark, NoMemory, Node, Span};
use std::alloc::{AllocError, Global};
use std::marker::Model;

/// A list of nodes, none of them twice, and a list of words, each with its room.
pub struct Pool {
    nodes: Vec<Linked>,
    heads: Vec<u32>,
    words: Vec<u32>,
    node_room: u32,
    word_room: u32,
    mask: u32,
    most_heads: u32,
}

/// By hand, so that letting go of one is a call.
impl Drop for Pool {
    fn drop(self) {
        let Pool {
            nodes: _nodes,
            heads: _heads,
            words: _words,
            node_room: _node_room,
            word_room: _word_room,
            mask: _mask,
            most_heads: _most_heads,
        } = self;
    }
}

impl Model for Pool {
    ghost use Rattle.node_pool.specs.Region.{Region};

    ghost Value = { Region };

    ghost use Rattle.node_pool.specs.Inside.{region_of, IsSound};

    ghost view = { region_of };

    ghost invariant = { IsSound };
}

impl Pool {
    ghost use Rattle.node_pool.specs.Region.{IsLive, IsBelow, IsApart};

    /// With no node and no word, and room for so many. All memory that the pool will ever use is taken here; the most
    /// of it is written to only as it comes into use.
    pub fn with_room(alloc: Global, nodes: u32, words: u32) -> Result<Pool, NoMemory>
        ensures { IfOk result (λ pool. pool ≡ record { nodes = []; words = []; node_room = nodes; word_room = words }) }
    {
        let mut chains: u32 = FEWEST;
        while chains < nodes && chains < 0x2000_0000 {
            chains *= 4;
        }
        Pool::taken(alloc, nodes, words, chains).map_err(|_| NoMemory)
    }

    /// All of a pool's memory.
    fn taken(alloc: Global, nodes: u32, words: u32, most_heads: u32) -> Result<Pool, AllocError>
        requires { (1024 ≤ most_heads) × (most_heads ≤ 2 ^ 31) }
        ensures { IfOk result (λ pool. pool ≡ record { nodes = []; words = []; node_room = nodes; word_room = words }) }
    {
        Ok(Pool {
            nodes: Vec::with_capacity(alloc, nodes as usize)?,
            heads: few_heads(alloc, most_heads as usize)?,
            words: Vec::with_capacity(alloc, words as usize)?,
            node_room: nodes,
            word_room: words,
            mask: FEWEST - 1,
            most_heads,
        })
    }

    /// The place of a node, counted from 0, which no other place shares. None exactly where the node is not there.
    pub fn find(&self, node: Node) -> Option<u32>
        ensures there { IfSome result (λ at. (at < length self.now.nodes) × (slice_index_or self.now.nodes at node ≡ node)) }
        ensures only { IfSome result (λ at. (k : ℕ) → k < length self.now.nodes → slice_index_or self.now.nodes k node ≡ node → k ≡ at) }
        ensures absent { IsNone result → ¬ Contains self.now.nodes node }
    {
        let mut after = self.heads[chain_at(self.mask, node) as usize];
        while after != 0 {
            let at = after - 1;
            let linked = self.nodes[at as usize];
            if linked.node == node {
                return Some(at);
            }
            after = linked.older;
        }
        None
    }

    /// The place of a node, which is appended if it was not there. None exactly where it was not there and the nodes
    /// fill their room; then nothing changed.
    pub fn add_node(&mut self, node: Node) -> Option<u32>
        ensures place { IfSome result (λ at. (at < length self.new.nodes) × (slice_index_or self.new.nodes at node ≡ node)) }
        ensures some { IsSome result → (Contains self.old.nodes node × (self.new ≡ self.old)) ⊎ ((¬ Contains self.old.nodes node) × (length self.old.nodes < self.old.node_room) × (self.new ≡ record self.old { nodes = self.old.nodes ++ node ∷ [] })) }
        ensures none { IsNone result → (¬ Contains self.old.nodes node) × (length self.old.nodes ≡ self.old.node_room) × (self.new ≡ self.old) }
    {
        if let Some(at) = self.find(node) {
            return Some(at);
        }
        if self.nodes.len() as u32 == self.node_room {
            return None;
        }
        self.grow();
        Some(self.append(node))
    }

    /// Adds a node that is not there, and links it.
    fn append(&mut self, node: Node) -> u32
        requires new { ¬ Contains self.old.nodes node }
        requires room { length self.old.nodes < self.old.node_room }
        ensures place { result ≡ length self.old.nodes }
        ensures added { self.new ≡ record self.old { nodes = self.old.nodes ++ node ∷ [] } }
    {
        let count = self.nodes.len() as u32;
        let chain = chain_at(self.mask, node) as usize;
        let older = self.heads[chain];
        self.nodes.push_reserved(Linked { node, older });
        self.heads[chain] = count + 1;
        count
    }

    /// Has four times the heads where there are as many nodes as heads.
    fn grow(&mut self)
        ensures { self.new ≡ self.old }
    {
        let few = self.heads.len();
        if self.nodes.len() < few || few > self.most_heads as usize / 4 {
            return;
        }
        push_zeros(&mut self.heads, few as u32 * 3);
        clear(&mut self.heads);
        self.mask = few as u32 * 4 - 1;
        relink(&mut self.heads, &mut self.nodes, self.mask);
    }

    /// Cuts nodes and words back to a mark that is not above them. What is below the mark is as it was, the rest is
    /// gone, and [`Pool::find`] answers by the nodes that are left. It takes steps in the number of nodes that go.
    pub fn leave(&mut self, mark: Mark)
        requires { IsBelow mark self.old }
        ensures { self.new ≡ record self.old { nodes = take mark.nodes self.old.nodes; words = take mark.words self.old.words } }
    {
        unlink(&mut self.heads, &self.nodes, self.mask, mark.nodes as usize);
        self.nodes.truncate(mark.nodes as usize);
        self.words.truncate(mark.words as usize);
    }

    /// A span of zeros, apart from every span that is live. None exactly where fewer words are left; then nothing
    /// changed.
    pub fn take_span(&mut self, len: u32) -> Option<Span>
        ensures taken { IfSome result (λ span. (span ≡ record { start = length self.old.words; len = len }) × (self.new ≡ record self.old { words = self.old.words ++ replicate len 0 })) }
        ensures apart { IfSome result (λ span. (other : Span) → IsLive self.old other → IsApart other span) }
        ensures full { IsNone result ↔ (self.old.word_room < length self.old.words + len) }
        ensures kept { IsNone result → self.new ≡ self.old }
    {
        let start = self.words.len() as u32;
        if len > self.word_room - start {
            return None;
        }
        push_zeros(&mut self.words, len);
        Some(Span { start, len })
    }

    /// How many nodes there are.
    pub fn node_count(&self) -> u32
        ensures { result ≡ length self.now.nodes }
    {
        self.nodes.len() as u32
    }

    /// How many words can still be taken.
    pub fn words_left(&self) -> u32
        ensures { result ≡ self.now.word_room - length self.now.words }
    {
        self.word_room - self.words.len() as u32
    }

    /// How many nodes and words there are, for [`Pool::leave`].
    pub fn mark(&self) -> Mark
        ensures nodes { result.nodes ≡ length self.now.nodes }
        ensures words { result.words ≡ length self.now.words }
    {
        Mark {
            nodes: self.nodes.len() as u32,
            words: self.words.len() as u32,
        }
    }

    /// The node at a place below the count.
    pub fn node(&self, at: u32) -> Node
        requires { at < length self.now.nodes }
        ensures { result ≡ slice_index_or self.now.nodes at result }
    {
        self.nodes[at as usize].node
    }

    /// The word at a place below the length of a live span.
    pub fn read(&self, span: Span, at: u32) -> u32
        requires live { IsLive self.now span }
        requires within { at < span.len }
        ensures { result ≡ slice_index self.now.words (span.start + at) }
    {
        self.words[span.start as usize + at as usize]
    }

    /// Sets the word at a place below the length of a live span. No other word changes.
    pub fn write(&mut self, span: Span, at: u32, word: u32)
        requires live { IsLive self.old span }
        requires within { at < span.len }
        ensures { self.new ≡ record self.old { words = slice_set self.old.words (span.start + at) word } }
    {
        self.words[span.start as usize + at as usize] = word;
    }
}
