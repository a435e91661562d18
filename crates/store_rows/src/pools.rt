//! A pool of nodes and words.

use crate::stop::Stop;
use node_pool::{Mark, Node, Pool};
use row_script::Page;
use std::alloc::Global;

/// How many nodes the pool has room for: more than it has heads at first, so that its chains are made anew.
const ROOM: u32 = 5000;

/// A node that the pool has no room for.
const MORE: Node = Node {
    var: 7,
    lo: 0,
    hi: 1,
};

/// What a pool answers that is filled, searched and left.
#[derive(Clone, Copy)]
struct Filled {
    added: u32,
    refused: Option<u32>,
    found: u32,
    left: u32,
    first: Option<u32>,
    another: Option<u32>,
}

/// The node of a number.
fn numbered(number: u32) -> Node {
    Node {
        var: number % 7,
        lo: number,
        hi: number.saturating_add(1),
    }
}

/// Adds all nodes, and gives how many stand at the places of their numbers.
fn add_all(pool: &mut Pool) -> u32 {
    let mut right = 0u32;
    for number in 0..ROOM {
        if pool.add_node(numbered(number)) == Some(number) {
            right = right.saturating_add(1);
        }
    }
    right
}

/// How many nodes are found at the places of their numbers.
fn found(pool: &Pool) -> u32 {
    let mut right = 0u32;
    for number in 0..ROOM {
        if pool.find(numbered(number)) == Some(number) {
            right = right.saturating_add(1);
        }
    }
    right
}

/// Leaves a pool to a mark.
fn leave(pool: &mut Pool, mark: Mark) -> Result<(), Stop> {
    let now = pool.mark();
    if mark.nodes > now.nodes || mark.words > now.words {
        return Err(Stop::Unfit);
    }
    pool.leave(mark);
    Ok(())
}

/// Fills a pool, searches it and leaves it.
fn fill_and_leave(alloc: Global) -> Result<Filled, Stop> {
    let mut pool = Pool::with_room(alloc, ROOM, 8)?;
    let opened = pool.mark();
    let added = add_all(&mut pool);
    let refused = pool.add_node(MORE);
    let found = found(&pool);
    leave(&mut pool, opened)?;
    let (left, first) = (pool.node_count(), pool.find(numbered(0)));
    Ok(Filled {
        added,
        refused,
        found,
        left,
        first,
        another: pool.add_node(MORE),
    })
}

/// Tells that nodes fill a pool, are found, and are gone when it is left.
pub(crate) fn tell_nodes(page: &mut Page) -> Result<(), Stop> {
    let pool = fill_and_leave(page.alloc())?;
    page.word("pool:");
    page.behind_blank(pool.added);
    page.word(" nodes added, one more ");
    page.debug(&pool.refused);
    page.word("\npool:");
    page.behind_blank(pool.found);
    page.word(" nodes found\npool:");
    page.behind_blank(pool.left);
    page.word(" nodes when left, the first ");
    page.debug(&pool.first);
    page.word("\npool: another at ");
    page.debug(&pool.another);
    page.word("\n");
    Ok(())
}

/// What a pool answers whose words two spans fill.
#[derive(Clone, Copy)]
struct Words {
    read: (u32, u32),
    left: u32,
    more: bool,
}

/// Takes all words of a pool, writes two of them and reads them.
fn write_and_read(alloc: Global) -> Result<Words, Stop> {
    let mut pool = Pool::with_room(alloc, 2, 8)?;
    let Some(first) = pool.take_span(3) else {
        return Err(Stop::Unfit);
    };
    let Some(second) = pool.take_span(5) else {
        return Err(Stop::Unfit);
    };
    pool.write(first, 2, 6);
    pool.write(second, 0, 7);
    Ok(Words {
        read: (pool.read(first, 2), pool.read(second, 0)),
        left: pool.words_left(),
        more: pool.take_span(1).is_some(),
    })
}

/// Tells that two spans fill the words of a pool.
pub(crate) fn tell_words(page: &mut Page) -> Result<(), Stop> {
    let pool = write_and_read(page.alloc())?;
    page.word("words: ");
    page.debug(&pool.read);
    page.word(",");
    page.behind_blank(pool.left);
    page.word(" left, one more ");
    page.bit(pool.more);
    page.word("\n");
    Ok(())
}
