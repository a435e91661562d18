//! The covers of a module, as they are made.

ghost use Rattle.std.specs.Prelude.{◌≡◌, ◌+◌, ◌++◌, ◌∷◌, [], IfOk, OnOk};
ghost use Rattle.verilog_models.specs.Covers.{cover_of, own_name};

use crate::functions::{Function, cover};
use std::alloc::Global;
use vrt_model::{CoverLine, NoMemory, Seq, Text};

/// The covers of a module so far.
pub struct Made {
    /// The covers, in the order of the text.
    pub covers: Seq<CoverLine>,
    /// How many signals they give that the text does not name.
    pub count: u64,
}

/// By hand, so that letting go of one is a call.
impl Drop for Made {
    fn drop(self) {
        let Made {
            covers: _covers,
            count: _count,
        } = self;
    }
}

/// The name of a signal that the text does not name.
pub fn name_of_own(alloc: Global, number: u64) -> Result<Text, NoMemory>
    ensures { IfOk result (λ name. name ≡ own_name number) }
{
    match format!(in alloc; "{number}") {
        Ok(digits) => {
            let mut name = Text::from_bytes(alloc, b"expr ".as_slice())?;
            name.extend(digits.as_bytes())?;
            Ok(name)
        }
        Err(_) => Err(NoMemory),
    }
}

/// A number further on. More than can be counted do not fit into memory.
pub fn further(number: u64, more: u64) -> Result<u64, NoMemory>
    ensures { IfOk result (λ sum. sum ≡ number + more) }
{
    match number.checked_add(more) {
        Some(sum) => Ok(sum),
        None => Err(NoMemory),
    }
}

impl Made {
    /// Adds the cover that gives a signal the function of others.
    pub fn add(
        &mut self,
        alloc: Global,
        line: u32,
        function: Function,
        inputs: Seq<Text>,
        output: Text,
    ) -> Result<(), NoMemory>
        ensures covers { OnOk result (self.new.covers ≡ self.old.covers ++ cover_of line function inputs output ∷ []) }
        ensures count { self.new.count ≡ self.old.count }
    {
        let made = cover(alloc, line, function, inputs, output)?;
        self.covers.append(made)
    }

    /// Adds a cover with a signal of its own, and answers its name.
    pub fn add_own(
        &mut self,
        alloc: Global,
        line: u32,
        function: Function,
        inputs: Seq<Text>,
    ) -> Result<Text, NoMemory>
        ensures covers { OnOk result (self.new.covers ≡ self.old.covers ++ cover_of line function inputs (own_name self.old.count) ∷ []) }
        ensures count { OnOk result (self.new.count ≡ self.old.count + 1) }
        ensures name { IfOk result (λ name. name ≡ own_name self.old.count) }
    {
        let output = name_of_own(alloc, self.count)?;
        self.add(alloc, line, function, inputs, output)?;
        let name = name_of_own(alloc, self.count)?;
        self.count = further(self.count, 1)?;
        Ok(name)
    }

    /// The covers.
    pub fn into_covers(self) -> Seq<CoverLine>
        ensures { result ≡ self.covers }
    {
        let Made {
            covers,
            count: _count,
        } = self;
        covers
    }
}
