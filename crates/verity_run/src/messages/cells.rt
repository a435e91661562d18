//! The lines for cells that have no order.

ghost use Rattle.std.specs.Prelude.{◌≡◌, ◌≢◌, [], ◌∷◌, codes, get_or, IfOk};
ghost use Rattle.verity_run.specs.Messages.{cells_line, joined, nets_for_ports, refusal_line};
ghost use Rattle.vrt_model.specs.Comparison.{cell_at};

use command_line::FileWords;
use hierarchy::HierFault;
use refusal_lines::{join, named, plain, refusal};
use std::alloc::Global;
use vrt_model::{Design, NoMemory, Text};
use witness::decimal_text;

/// How many nets for how many ports, with both numbers in decimal.
fn counts_with<'a>(alloc: Global, nets: &'a [u8], ports: &'a [u8]) -> Result<Text, NoMemory>
    ensures { IfOk result (λ text. text ≡ joined (nets.entry.now ∷ codes " nets for " ∷ ports.entry.now ∷ codes " ports" ∷ [])) }
{
    let pieces = [nets, b" nets for ".as_slice(), ports, b" ports".as_slice()];
    join(alloc, &pieces)
}

/// How many nets for how many ports.
fn counts(alloc: Global, nets: u32, ports: u32) -> Result<Text, NoMemory>
    ensures { IfOk result (λ text. text ≡ nets_for_ports nets ports) }
{
    let nets = decimal_text(alloc, u64::from(nets))?;
    let ports = decimal_text(alloc, u64::from(ports))?;
    counts_with(alloc, nets.as_bytes(), ports.as_bytes())
}

/// The line for a card with another count of nets than its cell has ports.
fn counted(alloc: Global, file: &[u8], line: u32, nets: u32, ports: u32) -> Result<Text, NoMemory>
    ensures { IfOk result (λ text. text ≡ refusal_line file.now line (nets_for_ports nets ports) []) }
{
    let cause = counts(alloc, nets, ports)?;
    refusal(alloc, file, line, cause.as_bytes(), b"")
}

/// The name of the first cell of a chain.
fn first_name<'a>(design: &'a Design, chain: &[u32]) -> &'a [u8]
    ensures { result.now ≡ (cell_at design.entry.now (get_or chain.now 0 0)).name }
{
    let number = match chain.first() {
        Some(number) => *number,
        None => 0,
    };
    match design.cells.get(number as usize) {
        Some(cell) => cell.name.as_bytes(),
        None => &[],
    }
}

/// The line for cells that have no order, where the fault is not want of memory.
pub fn cells_refusal(
    alloc: Global,
    words: &FileWords<'_>,
    design: &Design,
    fault: &HierFault,
) -> Result<Text, NoMemory>
    requires { fault.now ≢ HierFault.NoMemory }
    ensures { IfOk result (λ text. text ≡ cells_line words.now.spice.now words.now.rules.now design.now fault.now) }
{
    match fault {
        HierFault::UnknownCell { line, name } => named(
            alloc,
            words.spice.as_bytes(),
            *line,
            b"no cell ",
            name,
        ),
        HierFault::PortCount { line, nets, ports } => counted(
            alloc,
            words.spice.as_bytes(),
            *line,
            *nets,
            *ports,
        ),
        HierFault::Recursion { line, chain } => refusal(
            alloc,
            words.spice.as_bytes(),
            *line,
            b"cell contains itself: ",
            first_name(design, chain.as_slice()),
        ),
        HierFault::Depth { line, .. } => plain(
            alloc,
            words.spice.as_bytes(),
            *line,
            b"deeper than 32",
        ),
        HierFault::NoSuchName { line, name } => named(
            alloc,
            words.rules.as_bytes(),
            *line,
            b"no such name: ",
            name,
        ),
        HierFault::NoMemory => Err(NoMemory),
    }
}
