//! The lines for faults of the rules.

ghost use Rattle.std.specs.Prelude.{◌≡◌, ◌≢◌, IfOk};
ghost use Rattle.refusal_lines.specs.Lines.{rules_line};

use crate::lines::{named, plain};
use rules_reader::RulesFault;
use std::alloc::Global;
use vrt_model::{NoMemory, Text};

/// The line for a fault of the rules that is not want of memory.
pub fn rules_refusal(alloc: Global, file: &[u8], fault: &RulesFault) -> Result<Text, NoMemory>
    requires { fault.now ≢ RulesFault.NoMemory }
    ensures { IfOk result (λ text. text ≡ rules_line file.now fault.now) }
{
    match fault {
        RulesFault::NotText { line } => plain(alloc, file, *line, b"byte that is not text"),
        RulesFault::Word { line } => plain(alloc, file, *line, b"line does not fit"),
        RulesFault::Number { line } => plain(alloc, file, *line, b"number does not fit"),
        RulesFault::Expr { line } => plain(alloc, file, *line, b"expression does not fit"),
        RulesFault::Twice { line, name } => named(alloc, file, *line, b"given twice: ", name),
        RulesFault::UnknownPhase { line, name } => named(alloc, file, *line, b"no phase ", name),
        RulesFault::UnknownClock { line, name } => named(alloc, file, *line, b"no clock ", name),
        RulesFault::Limit { line } => plain(alloc, file, *line, b"limit passed"),
        RulesFault::NoMemory => unreachable!(),
    }
}
