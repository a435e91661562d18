//! Which numbers of a graph can be on a cycle: those from which an arc stays in a group.

ghost use Rattle.std.specs.Prelude.{◌≡◌, ℕ, ◌<◌, ◌≤◌, true, length, slice_index, IfOk};
ghost use Rattle.graphs.specs.Graphs.{sources_at};
ghost use Rattle.graphs.specs.Groups.{HasCycles, HasStays, NoneFalls, is_marked};
ghost use Rattle.vrt_model.specs.Lists.{Among};

use crate::groups::groups_of;
use std::alloc::Global;
use vrt_model::{NoMemory, Seq};

/// The group of a number, 0 past the end.
fn group_at(groups: &[usize], n: usize) -> usize
    ensures { result ≡ slice_index groups.now n }
{
    if n < groups.len() { groups[n] } else { 0 }
}

/// The numbers from which arcs lead to one.
fn numbers_at(sources: &[Seq<u32>], n: usize) -> &[u32]
    requires { n < length sources.now }
    ensures { result.now ≡ sources_at sources.now n }
{
    sources[n].as_slice()
}

/// Whether none of some numbers is of a group above one.
fn none_above(numbers: &[u32], groups: &[usize], group: usize) -> bool
    ensures { result ≡ true → (n : ℕ) → Among numbers.now n → slice_index groups.now n ≤ group }
{
    for number in numbers {
        if group_at(groups, *number as usize) > group {
            return false;
        }
    }
    true
}

/// Whether no arc leads to a lower group.
fn none_falls(sources: &[Seq<u32>], groups: &[usize]) -> bool
    ensures { result ≡ true → NoneFalls sources.now groups.now }
{
    for to in 0..sources.len() {
        let group = group_at(groups, to);
        if !none_above(numbers_at(sources, to), groups, group) {
            return false;
        }
    }
    true
}

/// Marks a number where the test says so.
fn mark(marks: &mut [bool], n: usize, fits: bool)
    ensures grown { (m : ℕ) → is_marked marks.old m ≡ true → is_marked marks.new m ≡ true }
    ensures marked { fits ≡ true → is_marked marks.new n ≡ true }
{
    if n < marks.len() && fits {
        marks[n] = true;
    }
}

/// Marks those of some numbers that are of a group.
fn mark_group(marks: &mut [bool], numbers: &[u32], groups: &[usize], group: usize)
    ensures grown { (m : ℕ) → is_marked marks.old m ≡ true → is_marked marks.new m ≡ true }
    ensures marked { (n : ℕ) → Among numbers.now n → slice_index groups.now n ≡ group → is_marked marks.new n ≡ true }
{
    for number in numbers {
        let fits = group_at(groups, *number as usize) == group;
        mark(marks, *number as usize, fits);
    }
}

/// Marks the numbers from which arcs stay in their groups.
fn mark_stays(sources: &[Seq<u32>], groups: &[usize], marks: &mut [bool])
    ensures { HasStays sources.now groups.now marks.new }
{
    for to in 0..sources.len() {
        let group = group_at(groups, to);
        mark_group(marks, numbers_at(sources, to), groups, group);
    }
}

/// As many marks as there are numbers, none of them set.
fn no_marks(alloc: Global, count: usize) -> Result<Vec<bool>, NoMemory> {
    match vec![in alloc; false; count] {
        Ok(marks) => Ok(marks),
        Err(_) => Err(NoMemory),
    }
}

/// Marks that each number on a cycle has.
pub(crate) fn marks_of(alloc: Global, sources: &[Seq<u32>]) -> Result<Vec<bool>, NoMemory>
    ensures { IfOk result (λ marks. HasCycles sources.now marks.items) }
{
    let found = groups_of(alloc, sources)?;
    let groups = found.as_slice();
    if !none_falls(sources, groups) {
        return Ok(Vec::new(alloc));
    }
    let mut marks = no_marks(alloc, sources.len())?;
    mark_stays(sources, groups, &mut marks);
    Ok(marks)
}
