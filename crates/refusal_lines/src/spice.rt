//! The lines for faults of the netlist.

ghost use Rattle.std.specs.Prelude.{◌≡◌, ◌≢◌, IfOk};
ghost use Rattle.refusal_lines.specs.Lines.{spice_line};

use crate::lines::{named, plain};
use spice_reader::SpiceFault;
use std::alloc::Global;
use vrt_model::{NoMemory, Text};

/// The line for a fault of the netlist that is not want of memory.
pub fn spice_refusal(alloc: Global, file: &[u8], fault: &SpiceFault) -> Result<Text, NoMemory>
    requires { fault.now ≢ SpiceFault.NoMemory }
    ensures { IfOk result (λ text. text ≡ spice_line file.now fault.now) }
{
    match fault {
        SpiceFault::NotText { line } => plain(alloc, file, *line, b"byte that is not text"),
        SpiceFault::Continuation { line } => plain(alloc, file, *line, b"nothing to continue"),
        SpiceFault::Unsupported { line, word } => {
            named(alloc, file, *line, b"card not supported: ", word)
        }
        SpiceFault::Short { line } => plain(alloc, file, *line, b"too few words"),
        SpiceFault::Nested { line } => plain(alloc, file, *line, b"cell within a cell"),
        SpiceFault::NotOpen { line } => plain(alloc, file, *line, b".ends outside a cell"),
        SpiceFault::EndsName { line } => plain(alloc, file, *line, b".ends names another cell"),
        SpiceFault::Unfinished { line } => plain(alloc, file, *line, b"cell not ended"),
        SpiceFault::CellTwice { line, name } => named(alloc, file, *line, b"cell twice: ", name),
        SpiceFault::ElementTwice { line, name } => {
            named(alloc, file, *line, b"element twice: ", name)
        }
        SpiceFault::PortTwice { line, name } => named(alloc, file, *line, b"port twice: ", name),
        SpiceFault::Limit { line } => plain(alloc, file, *line, b"limit passed"),
        SpiceFault::NoMemory => unreachable!(),
    }
}
