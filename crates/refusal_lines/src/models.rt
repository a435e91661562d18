//! The lines for faults of models that cannot be unrolled.

ghost use Rattle.std.specs.Prelude.{◌≡◌, ◌≢◌, IfOk};
ghost use Rattle.refusal_lines.specs.Lines.{models_line};

use crate::lines::{named, plain};
use blif_checks::ModelFault;
use std::alloc::Global;
use vrt_model::{NoMemory, Text};

/// The line for a fault of models that cannot be unrolled that is not want of memory.
pub fn models_refusal(alloc: Global, file: &[u8], fault: &ModelFault) -> Result<Text, NoMemory>
    requires { fault.now ≢ ModelFault.NoMemory }
    ensures { IfOk result (λ text. text ≡ models_line file.now fault.now) }
{
    match fault {
        ModelFault::UnknownModel { line, name } => named(alloc, file, *line, b"no model ", name),
        ModelFault::Formals { line, name } => named(
            alloc,
            file,
            *line,
            b"tie does not fit: ",
            name,
        ),
        ModelFault::Recursion { line, name } => named(
            alloc,
            file,
            *line,
            b"model contains itself: ",
            name,
        ),
        ModelFault::Depth { line, .. } => plain(alloc, file, *line, b"deeper than 32"),
        ModelFault::DrivenTwice { line, name } => named(alloc, file, *line, b"two drivers: ", name),
        ModelFault::Undriven { line, name } => named(alloc, file, *line, b"no driver: ", name),
        ModelFault::NoMemory => unreachable!(),
    }
}
