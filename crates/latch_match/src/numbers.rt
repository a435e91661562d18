//! Sets of numbers.

ghost use Rattle.std.specs.Prelude.{◌≡◌, ◌≤◌, ◌||◌, ◌==◌, ℕ, false, length, get_or, OnOk};
ghost use Rattle.latch_match.specs.Marked.{has_in};
ghost use Rattle.vrt_model.specs.Lists.{has_number};

use std::alloc::Global;
use vrt_model::NoMemory;

/// A set of numbers, with a mark for each number.
#[derive(Drop)]
pub(crate) struct NumberSet {
    marks: Vec<bool>,
}

/// At least this many marks; those that are new are unset.
#[tactic(auto, using(crate::proofs::MarkLaws::mark_reached))]
fn reach(marks: &mut Vec<bool>, len: usize) -> Result<(), NoMemory>
    ensures long { OnOk result (len ≤ length marks.new.items) }
    ensures same { OnOk result ((n : ℕ) → get_or marks.new.items n false ≡ get_or marks.old.items n false) }
{
    if len <= marks.len() {
        return Ok(());
    }
    match marks.resize(len, false) {
        Ok(()) => Ok(()),
        Err(_) => Err(NoMemory),
    }
}

impl NumberSet {
    /// No numbers. It takes no memory.
    pub(crate) fn new(alloc: Global) -> Self
        ensures { (n : ℕ) → has_in result n ≡ false }
    {
        NumberSet {
            marks: Vec::new(alloc),
        }
    }

    /// Makes room for the numbers below a count.
    pub(crate) fn make_room(&mut self, count: usize) -> Result<(), NoMemory>
        ensures { OnOk result ((n : ℕ) → has_in self.new n ≡ has_in self.old n) }
    {
        reach(&mut self.marks, count)
    }

    /// Whether a number is there.
    pub(crate) fn contains(&self, number: u32) -> bool
        ensures { result ≡ has_in self.now number }
    {
        let at = number as usize;
        if at < self.marks.len() {
            self.marks[at]
        } else {
            false
        }
    }

    /// Adds a number.
    #[tactic(auto, using(crate::proofs::MarkLaws::marked))]
    pub(crate) fn add(&mut self, number: u32) -> Result<(), NoMemory>
        ensures { OnOk result ((n : ℕ) → has_in self.new n ≡ (has_in self.old n || (number == n))) }
    {
        let at = number as usize;
        reach(&mut self.marks, at + 1)?;
        self.marks[at] = true;
        Ok(())
    }

    /// Adds numbers.
    #[tactic(auto, using(crate::proofs::MarkLaws::more_marked))]
    pub(crate) fn add_all(&mut self, numbers: &[u32]) -> Result<(), NoMemory>
        ensures { OnOk result ((n : ℕ) → has_in self.new n ≡ (has_in self.old n || has_number numbers.now n)) }
    {
        let mut rest = numbers;
        'numbers: while let Some((number, behind)) = rest.split_first() {
            self.add(*number)?;
            rest = behind;
        }
        Ok(())
    }
}
