//! The chain of cells from one that contains itself down to itself again.

ghost use Rattle.std.specs.Prelude.{◌≡◌, ◌++◌, Some, length, reverse, IfOk, OnOk};
ghost use Rattle.nesting.specs.Depths.{AreInside, in_list};
ghost use Rattle.nesting.specs.First.{IsFirstItself};
ghost use Rattle.vrt_model.specs.Nesting.{IsRecursion};
ghost use Rattle.hierarchy.specs.Chains.{way_down};

use crate::lists::append;
use graphs::first_cycle;
use std::alloc::Global;
use vrt_model::{NoMemory, Seq};

/// A number as one of 32 bits. Where it needs more, it is refused as want of memory.
fn small(number: usize) -> Result<u32, NoMemory>
    ensures { IfOk result (λ n. n ≡ number) }
{
    match u32::try_from(number) {
        Ok(number) => Ok(number),
        Err(_) => Err(NoMemory),
    }
}

/// Numbers as those of 32 bits.
fn copied(alloc: Global, numbers: &[usize]) -> Result<Seq<u32>, NoMemory>
    ensures { IfOk result (λ list. list ≡ numbers.now) }
{
    let mut list = Seq::new(alloc);
    for number in numbers {
        let number = small(*number)?;
        append(&mut list, number)?;
    }
    Ok(list)
}

/// Lists of numbers as those of 32 bits.
fn all_copied(alloc: Global, inner: &[Seq<usize>]) -> Result<Seq<Seq<u32>>, NoMemory>
    ensures { IfOk result (λ lists. lists ≡ inner.now) }
{
    let mut lists = Seq::new(alloc);
    for numbers in inner {
        let list = copied(alloc, numbers.as_slice())?;
        if lists.push(list).is_err() {
            return Err(NoMemory);
        }
    }
    Ok(lists)
}

/// Numbers in the reverse order.
fn mirrored(alloc: Global, numbers: &[u32]) -> Result<Vec<u32>, NoMemory>
    ensures { IfOk result (λ list. list.items ≡ reverse numbers.now) }
{
    match numbers.iter().rev().copied().collect(alloc) {
        Ok(list) => Ok(list),
        Err(_) => Err(NoMemory),
    }
}

/// Adds numbers at the end.
fn append_all(list: &mut Seq<u32>, numbers: &[u32]) -> Result<(), NoMemory>
    ensures { OnOk result (list.new ≡ list.old ++ numbers.now) }
{
    for number in numbers {
        append(list, *number)?;
    }
    Ok(())
}

/// From the first number of a cycle around to it again, against the arcs.
fn way_down(alloc: Global, nodes: &[u32]) -> Result<Seq<u32>, NoMemory>
    ensures { IfOk result (λ chain. chain ≡ way_down nodes.now) }
{
    let back = mirrored(alloc, nodes)?;
    let mut chain = Seq::new(alloc);
    if let Some(first) = nodes.get(0) {
        append(&mut chain, *first)?;
    }
    append_all(&mut chain, back.as_slice())?;
    Ok(chain)
}

/// From the first that contains itself down to itself again, each in the one before it. The search is over the lists a few
/// times.
pub(crate) fn chain_of(
    alloc: Global,
    inner: &[Seq<usize>],
    number: usize,
) -> Result<Seq<u32>, NoMemory>
    requires inside { AreInside inner.now }
    requires first { IsFirstItself (in_list inner.now) (length inner.now) (Some number) }
    ensures { IfOk result (λ chain. IsRecursion (in_list inner.now) number chain) }
{
    let sources = all_copied(alloc, inner)?;
    let found = first_cycle(alloc, sources.as_slice())?;
    match found {
        Some(nodes) => {
            let chain = way_down(alloc, nodes.as_slice())?;
            Ok(chain)
        }
        None => unreachable!(),
    }
}
