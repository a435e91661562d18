//! Why a BLIF text is refused.

ghost use Rattle.std.specs.Prelude.{◌≡◌, Some};
ghost use Rattle.blif_reader.specs.Shown.{cause_of, fault_text, line_of};

use std::fmt;
use thiserror::Error;
use vrt_model::Text;

/// Each fault but the last has the line on which its card begins. Of several faults on one card the first of these is
/// answered.
#[derive(Drop, Error)]
pub enum BlifFault {
    /// A byte of the card that is neither a tab nor from the space to the tilde.
    NotText { line: u32 },
    /// A card that begins with `.` and is not of this profile, with its first word, or a latch of the type `as`.
    Unsupported { line: u32, word: Text },
    /// A card other than `.model` and `.end` outside a model.
    OutsideModel { line: u32 },
    /// A row of another form, or one that follows no cover.
    Row { line: u32 },
    /// A row whose output differs from that of the cover's first row.
    MixedRows { line: u32 },
    /// A latch with another end than `[TYPE CONTROL] [INIT]`.
    LatchForm { line: u32 },
    /// A tie without `=`, or with an empty side.
    Formal { line: u32 },
    /// A second model of a name.
    ModelTwice { line: u32, name: Text },
    /// `.model`, `.names` or `.subckt` without a name, or `.latch` with fewer than two.
    Short { line: u32 },
    /// More than 4,096 models, or more than 1,000 inputs of a cover.
    Limit { line: u32 },
    /// Memory could not be had.
    NoMemory,
}

impl BlifFault {
    /// Its line, if it has one, and what is wrong there.
    fn said(&self) -> (Option<u32>, &'static str)
        ensures line { result.0 ≡ line_of self.now }
        ensures cause { result.1.now ≡ cause_of self.now }
    {
        match self {
            BlifFault::NotText { line } => (Some(*line), "byte that is not text"),
            BlifFault::Unsupported { line, .. } => (Some(*line), "card not supported"),
            BlifFault::OutsideModel { line } => (Some(*line), "outside a model"),
            BlifFault::Row { line } => (Some(*line), "row does not fit"),
            BlifFault::MixedRows { line } => (Some(*line), "rows of both values"),
            BlifFault::LatchForm { line } => (Some(*line), "latch does not fit"),
            BlifFault::Formal { line } => (Some(*line), "tie does not fit"),
            BlifFault::ModelTwice { line, .. } => (Some(*line), "model twice"),
            BlifFault::Short { line } => (Some(*line), "too few words"),
            BlifFault::Limit { line } => (Some(*line), "limit passed"),
            BlifFault::NoMemory => (None, "out of memory"),
        }
    }
}

/// Shows the line and what is wrong there.
impl fmt::Display for BlifFault {
    ghost output = { λ fault. Some (fault_text fault) };

    fn fmt<W: fmt::Write>(&self, f: &mut fmt::Formatter<W>) -> fmt::Result {
        let (line, what) = self.said();
        match line {
            Some(line) => write!(f, "line {line}: {what}"),
            None => f.write_str(what),
        }
    }
}

/// Shows what it says.
impl fmt::Debug for BlifFault {
    ghost debug_output = { λ fault. Some (fault_text fault) };

    fn fmt<W: fmt::Write>(&self, f: &mut fmt::Formatter<W>) -> fmt::Result {
        fmt::Display::fmt(self, f)
    }
}
