//! The memo of a store's calls: answers that it has given, by what was asked. It may forget any of them.

ghost use Rattle.std.specs.Prelude.{◌≡◌, ℕ, ◌+◌, ◌*◌, ◌<◌, ◌≤◌, ◌^◌, ◌++◌, length, replicate, IfOk, IfSome, vec_capacity};
ghost use Rattle.bdd_core.specs.Memo.{Holds, HoldsOnly, HoldsOnlyAlso, IsEmpty, no_pair};

use std::alloc::{AllocError, Global};
use std::marker::Model;

/// What was asked, in three numbers, and the place that was answered. `f` is 0 in an entry that is empty.
#[derive(Clone, Copy)]
pub struct Entry {
    /// The handle of the function that was asked about.
    pub f: u32,
    /// For `ite` the handle of the function where `f` is 1, for `restrict` the number of the fixed variable.
    pub g: u32,
    /// For `ite` the handle of the function where `f` is 0, for `restrict` a mark of the fixed bit.
    pub h: u32,
    /// The handle that was answered.
    pub r: u32,
}

const EMPTY: Entry = Entry {
    f: 0,
    g: 0,
    h: 0,
    r: 0,
};

/// The two entries of a place of the table.
#[derive(Clone, Copy)]
pub struct Pair {
    /// The entry that was kept last.
    pub newer: Entry,
    /// The one that was the newer before.
    pub older: Entry,
}

const NO_PAIR: Pair = Pair {
    newer: EMPTY,
    older: EMPTY,
};

/// How many pairs a memo begins with. Their number is this times a power of 4.
const FEWEST: u32 = 512;

/// A table of pairs of entries, in which what was asked has one place. It grows with the count of a store's nodes, once
/// it has kept so many answers more that it is used up twice.
pub struct Memo {
    pairs: Vec<Pair>,
    mask: u32,
    most: u32,
    left: u32,
}

/// By hand, so that letting go of one is a call.
impl Drop for Memo {
    fn drop(self) {
        let Memo {
            pairs: _pairs,
            mask: _mask,
            most: _most,
            left: _left,
        } = self;
    }
}

impl Model for Memo {
    ghost use Rattle.std.specs.Prelude.{List};
    ghost use Rattle.bdd_core.specs.declared.memo.Pair.{Pair};

    ghost Value = { List Pair };

    ghost use Rattle.bdd_core.specs.Inside.{IsTable};

    ghost view = { λ m. m.pairs.items };

    ghost invariant = { IsTable };
}

/// The place of what was asked, among `mask` and one more. What differs by one in the first number has the same place or
/// the next one: answers that are asked one after another then lie near each other, which caches serve well.
fn slot_at(mask: u32, f: u32, g: u32, h: u32) -> u32
    ensures { result ≤ mask }
{
    let mixed = f
        .wrapping_add(g.wrapping_mul(0x9e37_79b1))
        .wrapping_add(h.wrapping_mul(12_582_917));
    (mixed >> 1) & mask
}

/// Appends empty pairs, for which there is room.
fn push_empty(pairs: &mut Vec<Pair>, len: u32)
    requires { length pairs.old.items + len ≤ vec_capacity pairs.old }
    ensures items { pairs.new.items ≡ pairs.old.items ++ replicate len no_pair }
    ensures capacity { vec_capacity pairs.new ≡ vec_capacity pairs.old }
{
    for _ in 0..len {
        pairs.push_reserved(NO_PAIR);
    }
}

/// Empties every pair.
fn clear(pairs: &mut Vec<Pair>)
    ensures empty { IsEmpty pairs.new.items }
    ensures len { length pairs.new.items ≡ length pairs.old.items }
    ensures capacity { vec_capacity pairs.new ≡ vec_capacity pairs.old }
{
    for at in 0..pairs.len() {
        pairs[at] = NO_PAIR;
    }
}

/// Puts an entry first at its place. Of the two that were there the newer one stays.
fn put(pairs: &mut Vec<Pair>, mask: u32, entry: Entry)
    requires { length pairs.old.items ≡ mask + 1 }
    ensures only { HoldsOnlyAlso entry pairs.old.items pairs.new.items }
    ensures len { length pairs.new.items ≡ length pairs.old.items }
    ensures capacity { vec_capacity pairs.new ≡ vec_capacity pairs.old }
{
    let slot = slot_at(mask, entry.f, entry.g, entry.h) as usize;
    let before = pairs[slot];
    pairs[slot] = Pair {
        newer: entry,
        older: before.newer,
    };
}

/// Puts an entry at the place that it has now, if it is not empty.
fn put_again(pairs: &mut Vec<Pair>, mask: u32, entry: Entry)
    requires { length pairs.old.items ≡ mask + 1 }
    ensures only { HoldsOnlyAlso entry pairs.old.items pairs.new.items }
    ensures len { length pairs.new.items ≡ length pairs.old.items }
    ensures capacity { vec_capacity pairs.new ≡ vec_capacity pairs.old }
{
    if entry.f == 0 {
        return;
    }
    put(pairs, mask, entry);
}

/// Moves the entries of a pair to the places that they have now.
fn put_anew(pairs: &mut Vec<Pair>, at: usize, mask: u32)
    requires within { at < length pairs.old.items }
    requires len { length pairs.old.items ≡ mask + 1 }
    ensures only { HoldsOnly pairs.old.items pairs.new.items }
    ensures len { length pairs.new.items ≡ length pairs.old.items }
    ensures capacity { vec_capacity pairs.new ≡ vec_capacity pairs.old }
{
    let pair = pairs[at];
    pairs[at] = NO_PAIR;
    put_again(pairs, mask, pair.older);
    put_again(pairs, mask, pair.newer);
}

/// Moves the entries of each of the first pairs to the places that they have now.
fn place_anew(pairs: &mut Vec<Pair>, few: usize, mask: u32)
    requires within { few ≤ length pairs.old.items }
    requires len { length pairs.old.items ≡ mask + 1 }
    ensures only { HoldsOnly pairs.old.items pairs.new.items }
    ensures len { length pairs.new.items ≡ length pairs.old.items }
    ensures capacity { vec_capacity pairs.new ≡ vec_capacity pairs.old }
{
    for at in 0..few {
        put_anew(pairs, at, mask);
    }
}

impl Memo {
    /// With no answer, and memory for `most` pairs or a few times as many.
    pub fn open(alloc: Global, most: u32) -> Result<Memo, AllocError>
        requires { most ≤ 2 ^ 28 }
        ensures { IfOk result IsEmpty }
    {
        let mut room: u32 = FEWEST;
        while room < most {
            room *= 4;
        }
        let mut pairs = Vec::with_capacity(alloc, room as usize)?;
        push_empty(&mut pairs, FEWEST);
        Ok(Memo {
            pairs,
            mask: FEWEST - 1,
            most: room,
            left: FEWEST * 4,
        })
    }

    /// The answer to what was asked, if it is still there.
    pub fn recall(&self, f: u32, g: u32, h: u32) -> Option<u32>
        ensures { IfSome result (λ r. Holds self.now (record { f = f; g = g; h = h; r = r })) }
    {
        let pair = &self.pairs[slot_at(self.mask, f, g, h) as usize];
        if pair.newer.f == f && pair.newer.g == g && pair.newer.h == h {
            return Some(pair.newer.r);
        }
        if pair.older.f == f && pair.older.g == g && pair.older.h == h {
            return Some(pair.older.r);
        }
        None
    }

    /// Keeps an answer, in the place of another. `count` is the count of the store's nodes.
    pub fn keep(&mut self, entry: Entry, count: u32)
        ensures { HoldsOnlyAlso entry self.old self.new }
    {
        self.grow(count);
        put(&mut self.pairs, self.mask, entry);
    }

    /// Tries to grow where twice as many answers were kept as there were entries when it last grew: as long as few are
    /// kept, a small table costs less, since caches hold it.
    fn grow(&mut self, count: u32)
        ensures { HoldsOnly self.old self.new }
    {
        if self.left > 0 {
            self.left -= 1;
            return;
        }
        self.enlarge(count);
    }

    /// Has four times the pairs where the store has as many nodes as they have entries. It is seldom called, and a call of
    /// its own, so that keeping an answer stays short.
    #[cold]
    #[inline(never)]
    fn enlarge(&mut self, count: u32)
        ensures { HoldsOnly self.old self.new }
    {
        let few = self.pairs.len();
        if (count as usize) < few * 2 || few > self.most as usize / 4 {
            return;
        }
        push_empty(&mut self.pairs, few as u32 * 3);
        self.mask = few as u32 * 4 - 1;
        self.left = (few as u32).saturating_mul(16);
        place_anew(&mut self.pairs, few, self.mask);
    }

    /// Forgets every answer. It takes steps in the number of pairs of a new memo.
    pub fn forget(&mut self)
        ensures { IsEmpty self.new }
    {
        self.pairs.truncate(FEWEST as usize);
        self.mask = FEWEST - 1;
        self.left = FEWEST * 4;
        clear(&mut self.pairs);
    }
}
