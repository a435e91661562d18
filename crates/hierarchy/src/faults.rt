//! Why cells have no order.

ghost use Rattle.std.specs.Prelude.{Some};
ghost use Rattle.std.specs.Fmt.{WritesOnOk};
ghost use Rattle.hierarchy.specs.Shown.{behind_line, fault_text};

use std::fmt;
use thiserror::Error;
use vrt_model::{Seq, Text};

/// The first fault of a netlist and its rules, in this order.
#[derive(Drop, Error)]
pub enum HierFault {
    /// An instance of a cell that is not there: the line of its card in the SPICE file, and the name, in lower case.
    UnknownCell { line: u32, name: Text },
    /// An instance with more or fewer nets than its cell has ports: the line of its card, and both counts.
    PortCount { line: u32, nets: u32, ports: u32 },
    /// The first cell that contains itself: the line of its card, and the numbers of cells, each in the one before it,
    /// from that cell to that cell.
    Recursion { line: u32, chain: Seq<u32> },
    /// The first cell deeper than 32, where a cell without instances has depth 1: the line of its card, and its depth.
    Depth { line: u32, depth: u32 },
    /// The first line of the rules file that names what is not there, and the first such name on it, in lower case.
    NoSuchName { line: u32, name: Text },
    /// Memory could not be had.
    NoMemory,
}

/// Shows a line and what is wrong there.
fn show<W: fmt::Write>(f: &mut fmt::Formatter<W>, line: u32, what: &str) -> fmt::Result
    ensures { WritesOnOk W.write_str_gives f.old result (behind_line line what.now) f.new }
{
    write!(f, "line {line}: {what}")
}

/// Shows the line and what is wrong there.
impl fmt::Display for HierFault {
    ghost output = { λ fault. Some (fault_text fault) };

    fn fmt<W: fmt::Write>(&self, f: &mut fmt::Formatter<W>) -> fmt::Result {
        match self {
            HierFault::UnknownCell { line, .. } => show(f, *line, "no such cell"),
            HierFault::PortCount { line, nets, ports } => {
                write!(f, "line {line}: {nets} nets for {ports} ports")
            }
            HierFault::Recursion { line, .. } => show(f, *line, "cell contains itself"),
            HierFault::Depth { line, .. } => show(f, *line, "deeper than 32"),
            HierFault::NoSuchName { line, .. } => show(f, *line, "no such name"),
            HierFault::NoMemory => f.write_str("out of memory"),
        }
    }
}

/// Shows what it says.
impl fmt::Debug for HierFault {
    ghost debug_output = { λ fault. Some (fault_text fault) };

    fn fmt<W: fmt::Write>(&self, f: &mut fmt::Formatter<W>) -> fmt::Result {
        fmt::Display::fmt(self, f)
    }
}
