//! Which numbers stand in a list, and which more than once.

ghost use Rattle.std.specs.Prelude.{◌++◌, ◌∷◌, [], ℕ, List, OnOk};
ghost use Rattle.latch_match.specs.Marked.{AreCounts};

use crate::numbers::NumberSet;
use std::alloc::Global;
use vrt_model::NoMemory;

/// The numbers of a list, and those that stand in it more than once.
#[derive(Drop)]
pub(crate) struct Counts {
    pub(crate) once: NumberSet,
    pub(crate) again: NumberSet,
}

impl Counts {
    /// No number is counted. It takes no memory.
    pub(crate) fn new(alloc: Global) -> Self
        ensures { AreCounts [] result }
    {
        Counts {
            once: NumberSet::new(alloc),
            again: NumberSet::new(alloc),
        }
    }
}

/// Counts a number more.
fn count(counts: &mut Counts, number: u32) -> Result<(), NoMemory>
    ensures { OnOk result ((numbers : List ℕ) → AreCounts numbers counts.old → AreCounts (numbers ++ number ∷ []) counts.new) }
{
    if counts.once.contains(number) {
        counts.again.add(number)?;
        return Ok(());
    }
    counts.once.add(number)?;
    Ok(())
}

/// Makes room for the numbers below a limit.
fn make_room(counts: &mut Counts, limit: usize) -> Result<(), NoMemory>
    ensures { OnOk result ((numbers : List ℕ) → AreCounts numbers counts.old → AreCounts numbers counts.new) }
{
    counts.once.make_room(limit)?;
    counts.again.make_room(limit)?;
    Ok(())
}

/// Counts the numbers of a list, where none is counted yet; there is room for those below a limit.
pub(crate) fn count_all(counts: &mut Counts, limit: usize, numbers: &[u32]) -> Result<(), NoMemory>
    requires { AreCounts [] counts.old }
    ensures { OnOk result (AreCounts numbers.now counts.new) }
{
    make_room(counts, limit)?;
    for number in numbers {
        count(counts, *number)?;
    }
    Ok(())
}
