//! Why models are refused.

ghost use Rattle.std.specs.Prelude.{◌≡◌, Some};
ghost use Rattle.blif_checks.specs.Shown.{cause_of, fault_text, line_of};

use std::fmt;
use thiserror::Error;
use vrt_model::Text;

/// Each fault but the last has the line of the card that it is about.
#[derive(Drop, Error)]
pub enum ModelFault {
    /// A sub-model of a name that no model has.
    UnknownModel { line: u32, name: Text },
    /// The first tied formal that is no interface signal or stands twice, else the first input or clock that is left
    /// out.
    Formals { line: u32, name: Text },
    /// The first model that contains itself.
    Recursion { line: u32, name: Text },
    /// The first model deeper than 32, with its depth.
    Depth { line: u32, depth: u32 },
    /// A signal with two drivers, at the line of the second.
    DrivenTwice { line: u32, name: Text },
    /// A signal that is used and not driven, at the line of its first use.
    Undriven { line: u32, name: Text },
    /// Memory could not be had.
    NoMemory,
}

impl ModelFault {
    /// Its line, if it has one.
    pub(crate) fn line(&self) -> Option<u32>
        ensures { result ≡ line_of self.now }
    {
        self.said().0
    }

    /// Its line, if it has one, and what is wrong there.
    fn said(&self) -> (Option<u32>, &'static str)
        ensures line { result.0 ≡ line_of self.now }
        ensures cause { result.1.now ≡ cause_of self.now }
    {
        match self {
            ModelFault::UnknownModel { line, .. } => (Some(*line), "no such model"),
            ModelFault::Formals { line, .. } => (Some(*line), "tie does not fit"),
            ModelFault::Recursion { line, .. } => (Some(*line), "model contains itself"),
            ModelFault::Depth { line, .. } => (Some(*line), "deeper than 32"),
            ModelFault::DrivenTwice { line, .. } => (Some(*line), "two drivers"),
            ModelFault::Undriven { line, .. } => (Some(*line), "no driver"),
            ModelFault::NoMemory => (None, "out of memory"),
        }
    }
}

/// Shows the line and what is wrong there.
impl fmt::Display for ModelFault {
    ghost output = { λ fault. Some (fault_text fault) };

    fn fmt<W: fmt::Write>(&self, f: &mut fmt::Formatter<W>) -> fmt::Result {
        let (line, what) = self.said();
        match line {
            Some(line) => write!(f, "line {line}: {what}"),
            None => f.write_str(what),
        }
    }
}

/// Shows what it says.
impl fmt::Debug for ModelFault {
    ghost debug_output = { λ fault. Some (fault_text fault) };

    fn fmt<W: fmt::Write>(&self, f: &mut fmt::Formatter<W>) -> fmt::Result {
        fmt::Display::fmt(self, f)
    }
}
