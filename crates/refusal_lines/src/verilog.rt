//! The lines for faults of models in gate-level Verilog.

ghost use Rattle.std.specs.Prelude.{◌≡◌, ◌≢◌, IfOk};
ghost use Rattle.refusal_lines.specs.Lines.{verilog_line};

use crate::lines::{named, plain};
use std::alloc::Global;
use verilog_source::VerilogFault;
use vrt_model::{NoMemory, Text};

/// The line for a fault of modules that is not want of memory.
pub fn verilog_refusal(alloc: Global, file: &[u8], fault: &VerilogFault) -> Result<Text, NoMemory>
    requires { fault.now ≢ VerilogFault.NoMemory }
    ensures { IfOk result (λ text. text ≡ verilog_line file.now fault.now) }
{
    match fault {
        VerilogFault::NotText { line } => plain(alloc, file, *line, b"byte that is not text"),
        VerilogFault::Unsupported { line, word } => {
            named(alloc, file, *line, b"not supported: ", word)
        }
        VerilogFault::Syntax { line } => plain(alloc, file, *line, b"statement does not fit"),
        VerilogFault::ModuleTwice { line, name } => {
            named(alloc, file, *line, b"module twice: ", name)
        }
        VerilogFault::PortForm { line, name } => {
            named(alloc, file, *line, b"port does not fit: ", name)
        }
        VerilogFault::Unfinished { line } => plain(alloc, file, *line, b"module not ended"),
        VerilogFault::Limit { line } => plain(alloc, file, *line, b"limit passed"),
        VerilogFault::NoMemory => unreachable!(),
    }
}
