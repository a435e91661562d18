//! Why a Verilog text is refused.

ghost use Rattle.std.specs.Prelude.{◌≡◌, Some};
ghost use Rattle.verilog_source.specs.Shown.{cause_of, fault_text, line_of};

use std::fmt;
use thiserror::Error;
use vrt_model::Text;

/// Each fault but the last has the line of its token, but `Unfinished` that of the module, or of the comment. Of several
/// faults at one token the first of these is answered.
#[derive(Drop, Error)]
pub enum VerilogFault {
    /// A byte outside comments that is neither a tab, from the space to the tilde nor the end of a line.
    NotText { line: u32 },
    /// A word or a sign that is not supported, or a byte that begins no token, with its bytes.
    Unsupported { line: u32, word: Text },
    /// A token with which, behind those before it, no text of modules begins.
    Syntax { line: u32 },
    /// A second module of a name.
    ModuleTwice { line: u32, name: Text },
    /// A listed port with no direction, with two, or listed twice, or a name with a direction that is not listed.
    PortForm { line: u32, name: Text },
    /// The text ends in a module, else in a comment.
    Unfinished { line: u32 },
    /// More than 4,096 modules, 1,000 operators or 64 open parentheses of an expression, or 1,000 inputs of a gate.
    Limit { line: u32 },
    /// Memory could not be had.
    NoMemory,
}

impl VerilogFault {
    /// Its line, if it has one, and what is wrong there.
    fn said(&self) -> (Option<u32>, &'static str)
        ensures line { result.0 ≡ line_of self.now }
        ensures cause { result.1.now ≡ cause_of self.now }
    {
        match self {
            VerilogFault::NotText { line } => (Some(*line), "byte that is not text"),
            VerilogFault::Unsupported { line, .. } => (Some(*line), "not supported"),
            VerilogFault::Syntax { line } => (Some(*line), "statement does not fit"),
            VerilogFault::ModuleTwice { line, .. } => (Some(*line), "module twice"),
            VerilogFault::PortForm { line, .. } => (Some(*line), "port does not fit"),
            VerilogFault::Unfinished { line } => (Some(*line), "module not ended"),
            VerilogFault::Limit { line } => (Some(*line), "limit passed"),
            VerilogFault::NoMemory => (None, "out of memory"),
        }
    }
}

/// Shows the line and what is wrong there.
impl fmt::Display for VerilogFault {
    ghost output = { λ fault. Some (fault_text fault) };

    fn fmt<W: fmt::Write>(&self, f: &mut fmt::Formatter<W>) -> fmt::Result {
        let (line, what) = self.said();
        match line {
            Some(line) => write!(f, "line {line}: {what}"),
            None => f.write_str(what),
        }
    }
}

/// Shows what it says.
impl fmt::Debug for VerilogFault {
    ghost debug_output = { λ fault. Some (fault_text fault) };

    fn fmt<W: fmt::Write>(&self, f: &mut fmt::Formatter<W>) -> fmt::Result {
        fmt::Display::fmt(self, f)
    }
}
