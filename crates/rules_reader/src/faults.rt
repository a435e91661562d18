//! Why a rules file is refused.

ghost use Rattle.std.specs.Prelude.{◌≡◌, Some};
ghost use Rattle.rules_reader.specs.Shown.{cause_of, fault_text, line_of};

use std::fmt;
use thiserror::Error;
use vrt_model::Text;

/// Each fault but the last has its line. Of several faults on one line the first of these is answered.
#[derive(Drop, Error)]
pub enum RulesFault {
    /// A byte of the line that is neither a tab nor from the space to the tilde.
    NotText { line: u32 },
    /// An unknown first word, a wrong number of words, a value that is none of those listed, or a `scale`, `clock` or
    /// `phase` line that comes too late, or a `phase` line that leaves a clock without a bit.
    Word { line: u32 },
    /// A level or a size that is not of its range and form at the scale, or a bit that is neither 0 nor 1.
    Number { line: u32 },
    /// An expression of another form.
    Expr { line: u32 },
    /// A key that stands before, with its last word.
    Twice { line: u32, name: Text },
    /// A phase that no line before declares.
    UnknownPhase { line: u32, name: Text },
    /// A clock that no line before declares.
    UnknownClock { line: u32, name: Text },
    /// More than 100,000 lines, 16 clocks, 16 phases, 64 nested parentheses or 1,000 operators.
    Limit { line: u32 },
    /// Memory could not be had.
    NoMemory,
}

impl RulesFault {
    /// Its line, if it has one, and what is wrong there.
    fn said(&self) -> (Option<u32>, &'static str)
        ensures line { result.0 ≡ line_of self.now }
        ensures cause { result.1.now ≡ cause_of self.now }
    {
        match self {
            RulesFault::NotText { line } => (Some(*line), "byte that is not text"),
            RulesFault::Word { line } => (Some(*line), "line does not fit"),
            RulesFault::Number { line } => (Some(*line), "number does not fit"),
            RulesFault::Expr { line } => (Some(*line), "expression does not fit"),
            RulesFault::Twice { line, .. } => (Some(*line), "given twice"),
            RulesFault::UnknownPhase { line, .. } => (Some(*line), "no such phase"),
            RulesFault::UnknownClock { line, .. } => (Some(*line), "no such clock"),
            RulesFault::Limit { line } => (Some(*line), "limit passed"),
            RulesFault::NoMemory => (None, "out of memory"),
        }
    }
}

/// Shows the line and what is wrong there.
impl fmt::Display for RulesFault {
    ghost output = { λ fault. Some (fault_text fault) };

    fn fmt<W: fmt::Write>(&self, f: &mut fmt::Formatter<W>) -> fmt::Result {
        let (line, what) = self.said();
        match line {
            Some(line) => write!(f, "line {line}: {what}"),
            None => f.write_str(what),
        }
    }
}

/// Shows what it says.
impl fmt::Debug for RulesFault {
    ghost debug_output = { λ fault. Some (fault_text fault) };

    fn fmt<W: fmt::Write>(&self, f: &mut fmt::Formatter<W>) -> fmt::Result {
        fmt::Display::fmt(self, f)
    }
}
