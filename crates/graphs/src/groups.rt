//! Groups of numbers that arcs join in both directions, by a walk from each number to those from which arcs lead to it,
//! the deepest first (R. Tarjan, Depth-first search and linear graph algorithms, SIAM Journal on Computing 1, 1972). What
//! it answers is a proposal: whether arcs never lead to a lower group is tested where it is used.

use crate::graph::sources_at;
use std::alloc::Global;
use vrt_model::{NoMemory, Seq};

/// A number on the way, and the place of the next of its sources.
#[derive(Clone, Copy)]
struct Stop {
    node: u32,
    place: usize,
}

/// A walk: when each number was entered, from 1 on, and the earliest entry that is reached from it; the groups of the
/// numbers, from 1 on; the numbers on the way; and the numbers that were entered and have no group yet.
#[derive(Drop)]
struct Walk {
    entered: Vec<usize>,
    earliest: Vec<usize>,
    groups: Vec<usize>,
    way: Vec<Stop>,
    open: Vec<u32>,
    entries: usize,
    count: usize,
}

/// The entry of a number, 0 past the end.
fn at(list: &Vec<usize>, n: u32) -> usize {
    match list.get(n as usize) {
        Some(entry) => *entry,
        None => 0,
    }
}

/// Writes the entry of a number, if there is one.
fn put(list: &mut Vec<usize>, n: u32, entry: usize) {
    if (n as usize) < list.len() {
        list[n as usize] = entry;
    }
}

/// Enters a number.
fn enter(walk: &mut Walk, node: u32) -> Result<(), NoMemory> {
    let Some(entry) = walk.entries.checked_add(1) else {
        return Err(NoMemory);
    };
    walk.entries = entry;
    put(&mut walk.entered, node, entry);
    put(&mut walk.earliest, node, entry);
    let Ok(()) = walk.way.push(Stop { node, place: 0 }) else {
        return Err(NoMemory);
    };
    let Ok(()) = walk.open.push(node) else {
        return Err(NoMemory);
    };
    Ok(())
}

/// Notes that an entry is reached from a number.
fn reach(walk: &mut Walk, node: u32, entry: usize) {
    let earliest = at(&walk.earliest, node).min(entry);
    put(&mut walk.earliest, node, earliest);
}

/// Looks at a source of a number.
fn look_at_source(walk: &mut Walk, node: u32, source: u32) -> Result<(), NoMemory> {
    let entry = at(&walk.entered, source);
    if entry == 0 {
        return enter(walk, source);
    }
    if at(&walk.groups, source) == 0 {
        reach(walk, node, entry);
    }
    Ok(())
}

/// Gives a group to the numbers that were entered from a number on.
fn close(walk: &mut Walk, node: u32) -> Result<(), NoMemory> {
    let Some(group) = walk.count.checked_add(1) else {
        return Err(NoMemory);
    };
    walk.count = group;
    'open: while let Some(last) = walk.open.pop() {
        put(&mut walk.groups, last, group);
        if last == node {
            return Ok(());
        }
    }
    Ok(())
}

/// Leaves a number, all of whose sources were looked at.
fn leave(walk: &mut Walk, node: u32) -> Result<(), NoMemory> {
    let earliest = at(&walk.earliest, node);
    if earliest == at(&walk.entered, node) {
        close(walk, node)?;
    }
    if let Some(before) = walk.way.pop() {
        reach(walk, before.node, earliest);
        let Ok(()) = walk.way.push(before) else {
            return Err(NoMemory);
        };
    }
    Ok(())
}

/// Goes on from the last number on the way, and says whether there was one.
fn step(walk: &mut Walk, sources: &[Seq<u32>]) -> Result<bool, NoMemory> {
    let Some(stop) = walk.way.pop() else {
        return Ok(false);
    };
    let numbers = sources_at(sources, stop.node);
    if stop.place < numbers.len() {
        let next = Stop {
            node: stop.node,
            place: stop.place + 1,
        };
        let Ok(()) = walk.way.push(next) else {
            return Err(NoMemory);
        };
        look_at_source(walk, stop.node, numbers[stop.place])?;
    } else {
        leave(walk, stop.node)?;
    }
    Ok(true)
}

/// Walks from a number, if it was not entered before.
fn walk_from(walk: &mut Walk, sources: &[Seq<u32>], node: u32) -> Result<(), NoMemory> {
    if at(&walk.entered, node) > 0 {
        return Ok(());
    }
    enter(walk, node)?;
    for _step in 0..usize::MAX {
        if !step(walk, sources)? {
            return Ok(());
        }
    }
    Ok(())
}

/// As many zeros as there are numbers.
fn zeros(alloc: Global, count: usize) -> Result<Vec<usize>, NoMemory> {
    match vec![in alloc; 0usize; count] {
        Ok(list) => Ok(list),
        Err(_) => Err(NoMemory),
    }
}

/// The groups of the numbers. Arcs lead from a group to none of lower number.
pub(crate) fn groups_of(alloc: Global, sources: &[Seq<u32>]) -> Result<Vec<usize>, NoMemory> {
    let count = sources.len();
    let mut walk = Walk {
        entered: zeros(alloc, count)?,
        earliest: zeros(alloc, count)?,
        groups: zeros(alloc, count)?,
        way: Vec::new(alloc),
        open: Vec::new(alloc),
        entries: 0,
        count: 0,
    };
    for number in 0..count {
        let node = crate::graph::short_number(number)?;
        walk_from(&mut walk, sources, node)?;
    }
    Ok(walk.groups)
}
