//! Lists of numbers by number: each number is put at the end of the list of its owner.

ghost use Rattle.std.specs.Prelude.{◌≡◌, ℕ, ◌++◌, ◌∷◌, [], List, length, IfOk, OnOk};
ghost use Rattle.known_nets.specs.Placed.{Adds, IsArc, IsPlaced};
ghost use Rattle.vrt_model.specs.Lists.{At};

use std::alloc::Global;
use vrt_model::{NoMemory, Seq};

/// A number as one of 32 bits. Where it needs more, as the number of a net or a device behind the first 2^32, it is
/// refused as want of memory.
pub fn short_number(number: usize) -> Result<u32, NoMemory>
    ensures { IfOk result (λ n. n ≡ number) }
{
    match u32::try_from(number) {
        Ok(number) => Ok(number),
        Err(_) => Err(NoMemory),
    }
}

/// Adds a number at the end.
fn append(group: &mut Seq<u32>, number: u32) -> Result<(), NoMemory>
    ensures { OnOk result (group.new ≡ group.old ++ number ∷ []) }
{
    match group.push(number) {
        Ok(()) => Ok(()),
        Err(_) => Err(NoMemory),
    }
}

/// Puts a number at the end of its owner's group. There is no group for an owner past the last.
pub fn place(groups: &mut Vec<Seq<u32>>, owner: Option<usize>, number: u32) -> Result<(), NoMemory>
    ensures { OnOk result (IsPlaced owner number groups.old.items groups.new.items) }
{
    let Some(at) = owner else {
        return Ok(());
    };
    if at < groups.len() {
        append(&mut groups[at], number)
    } else {
        Ok(())
    }
}

/// As many empty groups as there are nets.
pub fn no_groups(alloc: Global, count: usize) -> Result<Vec<Seq<u32>>, NoMemory>
    ensures len { IfOk result (λ t. length t.items ≡ count) }
    ensures empty { IfOk result (λ t. (k : ℕ) (group : List ℕ) → At t.items k group → group ≡ []) }
{
    let mut groups = Vec::new(alloc);
    for _net in 0..count {
        let Ok(()) = groups.push(Seq::new(alloc)) else {
            return Err(NoMemory);
        };
    }
    Ok(groups)
}

/// Adds an arc. There is none to a number past the last.
pub fn lead(graph: &mut Vec<Seq<u32>>, from: usize, to: usize) -> Result<(), NoMemory>
    ensures { OnOk result (Adds (IsArc from to) graph.old.items graph.new.items) }
{
    let number = short_number(from)?;
    place(graph, Some(to), number)?;
    Ok(())
}
