//! Graphs, as for each number the list of those from which arcs lead to it.

ghost use Rattle.std.specs.Prelude.{◌≡◌, ◌++◌, ◌∷◌, [], IfOk, OnOk};
ghost use Rattle.graphs.specs.Graphs.{sources_at};

use vrt_model::{NoMemory, Seq};

/// Adds a number at the end.
pub(crate) fn append(list: &mut Seq<u32>, number: u32) -> Result<(), NoMemory>
    ensures { OnOk result (list.new ≡ list.old ++ number ∷ []) }
{
    match list.push(number) {
        Ok(()) => Ok(()),
        Err(_) => Err(NoMemory),
    }
}

/// The numbers from which arcs lead to one.
pub(crate) fn sources_at(sources: &[Seq<u32>], n: u32) -> &[u32]
    ensures { result.now ≡ sources_at sources.now n }
{
    if (n as usize) < sources.len() {
        sources[n as usize].as_slice()
    } else {
        &[]
    }
}

/// A number as one of 32 bits. Where it needs more, as one behind the first 2^32, it is refused as want of memory.
pub(crate) fn short_number(number: usize) -> Result<u32, NoMemory>
    ensures { IfOk result (λ n. n ≡ number) }
{
    match u32::try_from(number) {
        Ok(number) => Ok(number),
        Err(_) => Err(NoMemory),
    }
}
