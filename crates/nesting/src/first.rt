//! The first thing that contains itself, or is too deep.

ghost use Rattle.std.specs.Prelude.{◌≡◌, ◌<◌, ◌≤◌, true, false, length, IfOk};
ghost use Rattle.vrt_model.specs.Nesting.{ContainsItself};
ghost use Rattle.nesting.specs.Depths.{AreDepths, AreInside, in_list};
ghost use Rattle.nesting.specs.First.{IsDepthFault, IsFirstAbove, IsFirstItself, IsFirstFault};

use crate::depths::{are_within, depth_at, depths_of, whole_depths};
use crate::reached::is_in_itself;
use std::alloc::Global;
use vrt_model::{NoMemory, Seq};

/// Why things may not stand in one another as they do.
#[derive(Clone, Copy)]
pub enum NestingFault {
    /// The first that contains itself.
    Recursion { number: usize },
    /// The first that is too deep, with its depth, where none contains itself.
    Depth { number: usize, depth: u32 },
}

/// Whether one contains itself. Only one deeper than so many levels may.
fn may_recur(
    alloc: Global,
    inner: &[Seq<usize>],
    levels: u32,
    depths: &[u32],
    number: usize,
) -> Result<bool, NoMemory>
    requires inside { AreInside inner.now }
    requires depths { AreDepths inner.now levels depths.now }
    requires there { number < length inner.now }
    ensures yes { IfOk result (λ b. b ≡ true → ContainsItself (in_list inner.now) number) }
    ensures no { IfOk result (λ b. b ≡ false → ContainsItself (in_list inner.now) number → ⊥) }
{
    if depth_at(depths, number) <= levels {
        return Ok(false);
    }
    is_in_itself(alloc, inner, number)
}

/// The first that contains itself, if any does, by the depths that so many levels show.
fn first_of_depths(
    alloc: Global,
    inner: &[Seq<usize>],
    levels: u32,
    depths: &[u32],
) -> Result<Option<usize>, NoMemory>
    requires inside { AreInside inner.now }
    requires depths { AreDepths inner.now levels depths.now }
    ensures { IfOk result (λ found. IsFirstItself (in_list inner.now) (length inner.now) found) }
{
    for number in 0..inner.len() {
        if may_recur(alloc, inner, levels, depths, number)? {
            return Ok(Some(number));
        }
    }
    Ok(None)
}

/// The first depth above a limit, if any is.
fn first_deep(depths: &[u32], limit: u32) -> Option<usize>
    ensures { IsFirstAbove depths.now limit result }
{
    for number in 0..depths.len() {
        if depths[number] > limit {
            return Some(number);
        }
    }
    None
}

/// The first that is deeper than a limit, if any is.
fn depth_fault(
    alloc: Global,
    inner: &[Seq<usize>],
    limit: u32,
) -> Result<Option<NestingFault>, NoMemory>
    requires inside { AreInside inner.now }
    requires few { length inner.now ≤ 4096 }
    ensures { IfOk result (λ fault. IsDepthFault (in_list inner.now) (length inner.now) limit fault) }
{
    let depths = whole_depths(alloc, inner)?;
    match first_deep(depths.as_slice(), limit) {
        Some(number) => Ok(Some(NestingFault::Depth {
            number,
            depth: depth_at(depths.as_slice(), number),
        })),
        None => Ok(None),
    }
}

/// The first that contains itself, or else the first that is deeper than a limit, by the depths that as many levels show.
fn fault_of(
    alloc: Global,
    inner: &[Seq<usize>],
    limit: u32,
    depths: &[u32],
) -> Result<Option<NestingFault>, NoMemory>
    requires inside { AreInside inner.now }
    requires few { length inner.now ≤ 4096 }
    requires depths { AreDepths inner.now limit depths.now }
    ensures { IfOk result (λ fault. IsFirstFault (in_list inner.now) (length inner.now) limit fault) }
{
    let first = first_of_depths(alloc, inner, limit, depths)?;
    match first {
        Some(number) => Ok(Some(NestingFault::Recursion { number })),
        None => depth_fault(alloc, inner, limit),
    }
}

/// The first that contains itself, or else the first deeper than a limit, where a thing in which none stands has depth 1.
/// It takes time in proportion to the numbers in the lists for each level up to the limit, where there is no fault.
pub fn first_fault(
    alloc: Global,
    inner: &[Seq<usize>],
    limit: u32,
) -> Result<Option<NestingFault>, NoMemory>
    requires inside { AreInside inner.now }
    requires few { length inner.now ≤ 4096 }
    requires limit { limit ≤ 4096 }
    ensures { IfOk result (λ fault. IsFirstFault (in_list inner.now) (length inner.now) limit fault) }
{
    let depths = depths_of(alloc, inner, limit)?;
    if are_within(depths.as_slice(), limit) {
        return Ok(None);
    }
    fault_of(alloc, inner, limit, depths.as_slice())
}
