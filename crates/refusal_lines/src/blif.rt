//! The lines for faults of the models.

ghost use Rattle.std.specs.Prelude.{◌≡◌, ◌≢◌, IfOk};
ghost use Rattle.refusal_lines.specs.Lines.{blif_line};

use crate::lines::{named, plain};
use blif_reader::BlifFault;
use std::alloc::Global;
use vrt_model::{NoMemory, Text};

/// The line for a fault of the models that is not want of memory.
pub fn blif_refusal(alloc: Global, file: &[u8], fault: &BlifFault) -> Result<Text, NoMemory>
    requires { fault.now ≢ BlifFault.NoMemory }
    ensures { IfOk result (λ text. text ≡ blif_line file.now fault.now) }
{
    match fault {
        BlifFault::NotText { line } => plain(alloc, file, *line, b"byte that is not text"),
        BlifFault::Unsupported { line, word } => named(
            alloc,
            file,
            *line,
            b"card not supported: ",
            word,
        ),
        BlifFault::OutsideModel { line } => plain(alloc, file, *line, b"outside a model"),
        BlifFault::Row { line } => plain(alloc, file, *line, b"row does not fit"),
        BlifFault::MixedRows { line } => plain(alloc, file, *line, b"rows of both values"),
        BlifFault::LatchForm { line } => plain(alloc, file, *line, b"latch does not fit"),
        BlifFault::Formal { line } => plain(alloc, file, *line, b"tie does not fit"),
        BlifFault::ModelTwice { line, name } => named(alloc, file, *line, b"model twice: ", name),
        BlifFault::Short { line } => plain(alloc, file, *line, b"too few words"),
        BlifFault::Limit { line } => plain(alloc, file, *line, b"limit passed"),
        BlifFault::NoMemory => unreachable!(),
    }
}
