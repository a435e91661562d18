//! Whether cells stand in one another as they may: none contains itself, and none is too deep.

ghost use Rattle.std.specs.Prelude.{◌≡◌, ◌⊎◌, Some, length, map, position, unwrap_or, bytes_eq, IfOk};
ghost use Rattle.nesting.specs.First.{IsFirstFault, IsFirstItself};
ghost use Rattle.vrt_model.specs.Comparison.{cell_at};
ghost use Rattle.vrt_model.specs.Hierarchy.{cells_in};
ghost use Rattle.vrt_model.specs.Inputs.{IsDesign};
ghost use Rattle.hierarchy.specs.Nested.{AreInner, IsNestingFault, NestingGives, numbers_in};
ghost use Rattle.hierarchy.specs.Tables.{AreNames};

use crate::HierFault;
use crate::chain::chain_of;
use names::Names;
use nesting::{NestingFault, first_fault};
use std::alloc::Global;
use vrt_model::{Cell, Design, NoMemory, Seq};

/// The number of a name, 0 where it has none.
fn number_of(names: &Names, name: &[u8]) -> usize
    ensures { result ≡ unwrap_or (position (bytes_eq name.now) names.now) 0 }
{
    match names.place(name) {
        Some(number) => number,
        None => 0,
    }
}

/// The cells that stand directly in one.
fn inner_of(alloc: Global, names: &Names, cell: &Cell) -> Result<Seq<usize>, NoMemory>
    ensures { IfOk result (λ inner. inner ≡ numbers_in names.now cell.now) }
{
    let mut inner = Seq::new(alloc);
    for card in cell.instances.as_slice() {
        if inner.push(number_of(names, card.cell.as_bytes())).is_err() {
            return Err(NoMemory);
        }
    }
    Ok(inner)
}

/// The cells that stand directly in each of some.
fn all_inner(alloc: Global, names: &Names, cells: &[Cell]) -> Result<Seq<Seq<usize>>, NoMemory>
    ensures { IfOk result (λ all. all ≡ map (numbers_in names.now) cells.now) }
{
    let mut all = Seq::new(alloc);
    for cell in cells {
        let inner = inner_of(alloc, names, cell)?;
        if all.push(inner).is_err() {
            return Err(NoMemory);
        }
    }
    Ok(all)
}

/// The cells that stand directly in each, by their numbers.
pub(crate) fn inner_cells(
    alloc: Global,
    design: &Design,
    names: &Names,
) -> Result<Seq<Seq<usize>>, NoMemory>
    requires { AreNames design.now names.now }
    ensures { IfOk result (λ all. AreInner design.now all) }
{
    let all = all_inner(alloc, names, design.cells.as_slice())?;
    Ok(all)
}

/// The line of a cell.
fn line_of(design: &Design, number: usize) -> u32
    ensures { result ≡ (cell_at design.now number).line }
{
    match design.cells.get(number) {
        Some(cell) => cell.line,
        None => 0,
    }
}

/// The fault of the first cell that contains itself.
fn recursion_of(alloc: Global, design: &Design, inner: &[Seq<usize>], number: usize) -> HierFault
    requires inner { AreInner design.now inner.now }
    requires first { IsFirstItself (cells_in design.now) (length design.now.cells) (Some number) }
    ensures { (result ≡ HierFault.NoMemory) ⊎ IsNestingFault design.now result }
{
    match chain_of(alloc, inner, number) {
        Ok(chain) => HierFault::Recursion {
            line: line_of(design, number),
            chain,
        },
        Err(_) => HierFault::NoMemory,
    }
}

/// A fault of nesting as it is told of cells.
fn fault_of(alloc: Global, design: &Design, inner: &[Seq<usize>], fault: NestingFault) -> HierFault
    requires inner { AreInner design.now inner.now }
    requires fault { IsFirstFault (cells_in design.now) (length design.now.cells) 32 (Some fault) }
    ensures { (result ≡ HierFault.NoMemory) ⊎ IsNestingFault design.now result }
{
    match fault {
        NestingFault::Recursion { number } => recursion_of(alloc, design, inner, number),
        NestingFault::Depth { number, depth } => HierFault::Depth {
            line: line_of(design, number),
            depth,
        },
    }
}

/// Refuses the first cell that contains itself, or else the first deeper than 32, where a cell without instances has
/// depth 1. It takes time in proportion to the instance cards where it refuses none.
pub(crate) fn check_nesting(
    alloc: Global,
    design: &Design,
    inner: &[Seq<usize>],
) -> Result<(), HierFault>
    requires inner { AreInner design.now inner.now }
    requires design { IsDesign design.now }
    ensures { NestingGives design.now result }
{
    match first_fault(alloc, inner, 32) {
        Ok(Some(fault)) => Err(fault_of(alloc, design, inner, fault)),
        Ok(None) => Ok(()),
        Err(_) => Err(HierFault::NoMemory),
    }
}
