//! How deep things stand in one another.

ghost use Rattle.std.specs.Prelude.{◌≡◌, ◌<◌, ◌≤◌, ℕ, true, false, List, map, max, length, get_or, nat_le, IfOk};
ghost use Rattle.std.specs.List.{list_all};
ghost use Rattle.vrt_model.specs.Nesting.{depth_in};
ghost use Rattle.nesting.specs.Depths.{AreDepths, AreInside, depth_over, in_list};
ghost use Rattle.nesting.specs.First.{AreShallow};

use std::alloc::Global;
use vrt_model::{NoMemory, Seq};

/// The depth of a number, 0 where there is none.
pub(crate) fn depth_at(depths: &[u32], number: usize) -> u32
    ensures { result ≡ get_or depths.now number 0 }
{
    if number < depths.len() {
        depths[number]
    } else {
        0
    }
}

/// The larger of two depths.
fn larger(a: u32, b: u32) -> u32
    ensures { result ≡ max a b }
{
    if a < b { b } else { a }
}

/// One more than the greatest depth of some numbers.
fn depth_above(numbers: &[usize], depths: &[u32]) -> u32
    requires { (n : ℕ) → get_or depths.now n 0 ≤ 8192 }
    ensures { result ≡ depth_over depths.now numbers.now }
{
    let mut greatest_so_far = 0u32;
    for number in numbers {
        greatest_so_far = larger(greatest_so_far, depth_at(depths, *number));
    }
    greatest_so_far + 1
}

/// The depths, as far as one level more shows.
fn next_round(alloc: Global, inner: &[Seq<usize>], depths: &[u32]) -> Result<Seq<u32>, NoMemory>
    requires { (n : ℕ) → get_or depths.now n 0 ≤ 8192 }
    ensures { IfOk result (λ next. next ≡ map (depth_over depths.now) inner.now) }
{
    let mut next = Seq::new(alloc);
    for numbers in inner {
        if next.push(depth_above(numbers.as_slice(), depths)).is_err() {
            return Err(NoMemory);
        }
    }
    Ok(next)
}

/// The depth 1 for each.
fn first_round(alloc: Global, inner: &[Seq<usize>]) -> Result<Seq<u32>, NoMemory>
    ensures { IfOk result (λ depths. depths ≡ map (λ (numbers : List ℕ). 1) inner.now) }
{
    let mut depths = Seq::new(alloc);
    for _numbers in inner {
        if depths.push(1).is_err() {
            return Err(NoMemory);
        }
    }
    Ok(depths)
}

/// The depth of each as far as so many levels show, where a thing in which none stands has depth 1. It takes time in
/// proportion to the numbers in the lists for each level.
pub fn depths_of(alloc: Global, inner: &[Seq<usize>], levels: u32) -> Result<Seq<u32>, NoMemory>
    requires inside { AreInside inner.now }
    requires few { levels ≤ 4096 }
    ensures { IfOk result (λ depths. AreDepths inner.now levels depths) }
{
    let mut depths = first_round(alloc, inner)?;
    for round in 0..levels {
        depths = next_round(alloc, inner, depths.as_slice())?;
    }
    Ok(depths)
}

/// Whether two lists of depths are the same.
fn are_same(a: &[u32], b: &[u32]) -> bool
    ensures { result ≡ true → a.now ≡ b.now }
{
    a == b
}

/// The depth of each, by rounds until nothing changes.
pub fn whole_depths(alloc: Global, inner: &[Seq<usize>]) -> Result<Seq<u32>, NoMemory>
    requires inside { AreInside inner.now }
    requires few { length inner.now ≤ 4096 }
    ensures { IfOk result (λ depths. AreDepths inner.now (length inner.now) depths) }
{
    let mut depths = first_round(alloc, inner)?;
    for round in 0..inner.len() {
        let next = next_round(alloc, inner, depths.as_slice())?;
        if are_same(next.as_slice(), depths.as_slice()) {
            return Ok(next);
        }
        depths = next;
    }
    Ok(depths)
}

/// Whether each depth is within a limit.
pub(crate) fn are_within(depths: &[u32], limit: u32) -> bool
    ensures { result ≡ list_all (λ d. nat_le d limit) depths.now }
{
    for d in depths {
        if *d > limit {
            return false;
        }
    }
    true
}

/// Whether none contains itself and none is deeper than a limit. It takes time in proportion to the numbers in the lists
/// for each level up to the limit.
pub fn are_shallow(alloc: Global, inner: &[Seq<usize>], limit: u32) -> Result<bool, NoMemory>
    requires inside { AreInside inner.now }
    requires few { limit ≤ 4096 }
    // Where it says yes, that is so.
    ensures yes { IfOk result (λ b. b ≡ true → AreShallow (in_list inner.now) (length inner.now) limit) }
    // Where it says no, as many levels show that one is deeper.
    ensures no { IfOk result (λ b. b ≡ false → (n : ℕ) × (n < length inner.now) × (limit < depth_in (in_list inner.now) limit n)) }
{
    let depths = depths_of(alloc, inner, limit)?;
    Ok(are_within(depths.as_slice(), limit))
}
