//! Levels of a graph: each number is one above the greatest of its sources, the numbers from which arcs lead to it (A. B.
//! Kahn, Topological sorting of large networks, Communications of the ACM 5, 1962). Each arc is looked at twice.

ghost use Rattle.std.specs.Prelude.{◌≡◌, ℕ, ◌<◌, ◌≤◌, ◌⊎◌, ◌+◌, ◌++◌, ◌∷◌, [], false, true, List, Some, length, nat_lt, replicate, set, slice_get, slice_index, IfOk, OnOk};
ghost use Rattle.graphs.specs.Graphs.{AreInside, sources_at};
ghost use Rattle.graphs.specs.Levels.{AreLevels, AreStuck, IsFirstOpen, IsLevelled, IsLevelling, IsWaitingAt, without_level};
ghost use Rattle.graphs.specs.Orders.{IsPlacing};
ghost use Rattle.std.specs.List.{list_all};
ghost use Rattle.vrt_model.specs.Lists.{At, Among};
ghost use Rattle.graphs.specs.declared.levels.Waiter.{Waiter as WaiterValue};

use crate::graph::{append, short_number, sources_at};
use std::alloc::Global;
use vrt_model::{NoMemory, Seq};

/// A number without a level. Its sources before the place `from` have levels.
#[derive(Clone, Copy)]
pub(crate) struct Waiter {
    /// The number.
    pub(crate) node: u32,
    /// The place of its first source that may have no level.
    pub(crate) from: usize,
}

/// The levels of a graph, and the order in which its numbers got them.
#[derive(Drop)]
pub struct Placing {
    /// The level of each number, 0 where it has none.
    pub levels: Vec<usize>,
    /// The numbers that have a level, each once and behind its sources.
    pub steps: Seq<u32>,
}

/// The level of a number, 0 where it has none.
fn level_at(levels: &[usize], n: u32) -> usize
    ensures { result ≡ slice_index levels.now n }
{
    if (n as usize) < levels.len() {
        levels[n as usize]
    } else {
        0
    }
}

/// The place of the first number from a place on that has no level.
fn first_open(numbers: &[u32], levels: &[usize], from: usize) -> Option<usize>
    ensures { IsFirstOpen numbers.now levels.now from result }
{
    for place in from..numbers.len() {
        if level_at(levels, numbers[place]) == 0 {
            return Some(place);
        }
    }
    None
}

/// The greatest level of some numbers, 0 where there is no number.
fn greatest(numbers: &[u32], levels: &[usize]) -> usize
    ensures most { (q : ℕ) → Among numbers.now q → slice_index levels.now q ≤ result }
    ensures one { (result ≡ 0) ⊎ ((q : ℕ) × Among numbers.now q × (result ≡ slice_index levels.now q)) }
{
    let mut best = 0;
    for number in numbers {
        let level = level_at(levels, *number);
        if best < level {
            best = level;
        }
    }
    best
}

/// Adds a waiter at the end.
fn add(list: &mut Seq<Waiter>, waiter: Waiter) -> Result<(), NoMemory>
    ensures { OnOk result (list.new ≡ list.old ++ waiter ∷ []) }
{
    match list.push(waiter) {
        Ok(()) => Ok(()),
        Err(_) => Err(NoMemory),
    }
}

/// Adds waiters at the end.
fn add_all(list: &mut Seq<Waiter>, waiters: &[Waiter]) -> Result<(), NoMemory>
    ensures { OnOk result (list.new ≡ list.old ++ waiters.now) }
{
    for waiter in waiters {
        add(list, *waiter)?;
    }
    Ok(())
}

/// Lets a waiter wait for a number.
fn wait(waiting: &mut Vec<Seq<Waiter>>, at: u32, waiter: Waiter) -> Result<(), NoMemory>
    requires { at < length waiting.old.items }
    ensures { OnOk result (IsWaitingAt at waiter waiting.old.items waiting.new.items) }
{
    add(&mut waiting[at as usize], waiter)
}

/// What waited for a number is to be looked at.
fn release(waiting: &[Seq<Waiter>], queue: &mut Seq<Waiter>, n: u32) -> Result<(), NoMemory>
    requires { n < length waiting.now }
    ensures { OnOk result ((row : List WaiterValue) × At waiting.now n row × (queue.new ≡ queue.old ++ row)) }
{
    add_all(queue, waiting[n as usize].as_slice())
}

/// Whether a number has a level.
fn has_level(levels: &[usize], n: u32) -> bool
    ensures { result ≡ nat_lt 0 (slice_index levels.now n) }
{
    0 < level_at(levels, n)
}

/// The number at a place.
fn number_at(numbers: &[u32], at: usize) -> u32
    requires { at < length numbers.now }
    ensures { slice_get numbers.now at ≡ Some result }
{
    numbers[at]
}

/// The waiter at a place.
fn waiter_at(waiters: &[Waiter], at: usize) -> Waiter
    requires { at < length waiters.now }
    ensures { slice_get waiters.now at ≡ Some result }
{
    waiters[at]
}

/// Writes the level of a number.
fn put(levels: &mut Vec<usize>, n: u32, level: usize)
    requires { n < length levels.old.items }
    ensures { levels.new.items ≡ set levels.old.items n level }
{
    levels[n as usize] = level;
}

/// Gives a number the level above its sources.
fn give_level(sources: &[Seq<u32>], levels: &mut Vec<usize>, n: u32) -> Result<(), NoMemory>
    requires there { n < length levels.old.items }
    requires none { slice_index levels.old.items n ≡ 0 }
    requires some { (q : ℕ) → Among (sources_at sources.now n) q → 0 < slice_index levels.old.items q }
    ensures { OnOk result (IsLevelled sources.now n levels.old.items levels.new.items) }
{
    let numbers = sources_at(sources, n);
    let now = levels.as_slice();
    let best = greatest(numbers, now);
    let Some(next) = best.checked_add(1) else {
        return Err(NoMemory);
    };
    put(levels, n, next);
    Ok(())
}

/// Looks at the waiter at a place of the queue: it has a level, or waits for the next source without one, or gets its
/// level and a place in the order, so that what waited for it is to be looked at. Says whether it got a level.
fn level_waiter(
    sources: &[Seq<u32>],
    levels: &mut Vec<usize>,
    steps: &mut Seq<u32>,
    waiting: &mut Vec<Seq<Waiter>>,
    queue: &mut Seq<Waiter>,
    at: usize,
) -> Result<bool, NoMemory>
    requires inside { AreInside sources.now }
    requires there { at < length queue.old }
    requires so_far { IsLevelling sources.now levels.old.items waiting.old.items queue.old at }
    requires placing { IsPlacing sources.now levels.old.items steps.old }
    ensures so_far { IfOk result (λ _. IsLevelling sources.now levels.new.items waiting.new.items queue.new (at + 1)) }
    ensures placing { IfOk result (λ _. IsPlacing sources.now levels.new.items steps.new) }
    ensures same { IfOk result (λ settled. settled ≡ false → queue.new ≡ queue.old) }
    ensures fewer { IfOk result (λ settled. settled ≡ true → without_level levels.new.items < without_level levels.old.items) }
    ensures no_more { IfOk result (λ settled. settled ≡ false → levels.new.items ≡ levels.old.items) }
{
    let entries = queue.as_slice();
    let waiter = waiter_at(entries, at);
    let now = levels.as_slice();
    if has_level(now, waiter.node) {
        return Ok(false);
    }
    let numbers = sources_at(sources, waiter.node);
    let lacking = first_open(numbers, now, waiter.from);
    match lacking {
        Some(place) => {
            let source = number_at(numbers, place);
            let later = Waiter {
                node: waiter.node,
                from: place,
            };
            wait(waiting, source, later)?;
            Ok(false)
        }
        None => {
            give_level(sources, levels, waiter.node)?;
            append(steps, waiter.node)?;
            release(waiting.as_slice(), queue, waiter.node)?;
            Ok(true)
        }
    }
}

/// Looks at the waiters from a place of the queue on, until one gets a level.
fn level_next(
    sources: &[Seq<u32>],
    levels: &mut Vec<usize>,
    steps: &mut Seq<u32>,
    waiting: &mut Vec<Seq<Waiter>>,
    queue: &mut Seq<Waiter>,
    at: &mut usize,
) -> Result<bool, NoMemory>
    requires inside { AreInside sources.now }
    requires so_far { IsLevelling sources.now levels.old.items waiting.old.items queue.old at.old }
    requires placing { IsPlacing sources.now levels.old.items steps.old }
    ensures so_far { IfOk result (λ _. IsLevelling sources.now levels.new.items waiting.new.items queue.new at.new) }
    ensures placing { IfOk result (λ _. IsPlacing sources.now levels.new.items steps.new) }
    ensures all { IfOk result (λ settled. settled ≡ false → length queue.new ≤ at.new) }
    ensures fewer { IfOk result (λ settled. settled ≡ true → without_level levels.new.items < without_level levels.old.items) }
{
    'on: while *at < queue.len() {
        let settled = level_waiter(sources, levels, steps, waiting, queue, *at)?;
        *at += 1;
        if settled {
            return Ok(true);
        }
    }
    Ok(false)
}

/// Gives levels until no number gets one any more.
fn level_rest(
    sources: &[Seq<u32>],
    levels: &mut Vec<usize>,
    steps: &mut Seq<u32>,
    waiting: &mut Vec<Seq<Waiter>>,
    queue: &mut Seq<Waiter>,
) -> Result<(), NoMemory>
    requires inside { AreInside sources.now }
    requires so_far { IsLevelling sources.now levels.old.items waiting.old.items queue.old 0 }
    requires placing { IsPlacing sources.now levels.old.items steps.old }
    ensures size { OnOk result (length levels.new.items ≡ length sources.now) }
    ensures levels { OnOk result (AreLevels sources.now levels.new.items) }
    ensures stuck { OnOk result (AreStuck sources.now levels.new.items) }
    ensures placing { OnOk result (IsPlacing sources.now levels.new.items steps.new) }
{
    let mut at = 0;
    'turns: loop {
        let settled = level_next(sources, levels, steps, waiting, queue, &mut at)?;
        if !settled {
            return Ok(());
        }
    }
}

/// No number has a level.
fn no_levels(alloc: Global, count: usize) -> Result<Vec<usize>, NoMemory>
    ensures { IfOk result (λ t. t.items ≡ replicate count 0) }
{
    match vec![in alloc; 0; count] {
        Ok(levels) => Ok(levels),
        Err(_) => Err(NoMemory),
    }
}

/// Nothing waits.
fn none_waiting(alloc: Global, count: usize) -> Result<Vec<Seq<Waiter>>, NoMemory>
    ensures len { IfOk result (λ t. length t.items ≡ count) }
    ensures empty { IfOk result (λ t. (k : ℕ) (row : List WaiterValue) → At t.items k row → row ≡ []) }
{
    let mut waiting = Vec::new(alloc);
    for _number in 0..count {
        let Ok(()) = waiting.push(Seq::new(alloc)) else {
            return Err(NoMemory);
        };
    }
    Ok(waiting)
}

/// Each number, to be looked at.
fn all_listed(alloc: Global, count: usize) -> Result<Seq<Waiter>, NoMemory>
    ensures all { IfOk result (λ queue. (n : ℕ) → n < count → (waiter : WaiterValue) × At queue n waiter × (waiter.node ≡ n)) }
    ensures each { IfOk result (λ queue. (waiter : WaiterValue) → Among queue waiter → (waiter.node < count) × (waiter.from ≡ 0)) }
{
    let mut queue = Seq::new(alloc);
    for number in 0..count {
        let node = short_number(number)?;
        add(&mut queue, Waiter { node, from: 0 })?;
    }
    Ok(queue)
}

/// The levels of a graph, by number, and an order of the numbers that have one, in which each stands behind its sources. A
/// number on a cycle of arcs, or behind one, has none. Nothing but want of memory refuses, which a graph of more than 2^32
/// numbers is too. Each arc is looked at twice.
pub fn placing_of(alloc: Global, sources: &[Seq<u32>]) -> Result<Placing, NoMemory>
    requires { AreInside sources.now }
    ensures size { IfOk result (λ p. length p.levels.items ≡ length sources.now) }
    ensures levels { IfOk result (λ p. AreLevels sources.now p.levels.items) }
    ensures stuck { IfOk result (λ p. AreStuck sources.now p.levels.items) }
    ensures placing { IfOk result (λ p. IsPlacing sources.now p.levels.items p.steps) }
{
    let count = sources.len();
    let mut levels = no_levels(alloc, count)?;
    let mut steps = Seq::new(alloc);
    let mut waiting = none_waiting(alloc, count)?;
    let mut queue = all_listed(alloc, count)?;
    level_rest(sources, &mut levels, &mut steps, &mut waiting, &mut queue)?;
    Ok(Placing { levels, steps })
}

/// The levels of a graph, by number: 0 at the numbers that have none, since arcs lead around among their sources.
pub fn levels_of(alloc: Global, sources: &[Seq<u32>]) -> Result<Vec<usize>, NoMemory>
    requires { AreInside sources.now }
    ensures size { IfOk result (λ t. length t.items ≡ length sources.now) }
    ensures levels { IfOk result (λ t. AreLevels sources.now t.items) }
    ensures stuck { IfOk result (λ t. AreStuck sources.now t.items) }
{
    let placing = placing_of(alloc, sources)?;
    Ok(placing.levels)
}

/// Whether all numbers have a level.
pub fn all_levelled(levels: &[usize]) -> bool
    ensures { result ≡ list_all (λ l. nat_lt 0 l) levels.now }
{
    for level in levels {
        if *level == 0 {
            return false;
        }
    }
    true
}
