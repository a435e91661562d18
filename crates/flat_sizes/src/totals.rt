//! How often each cell stands in another, as a table with a count for each cell, without memory: no instance is unrolled.

ghost use Rattle.std.specs.Prelude.{◌≡◌, ◌==◌, ◌<◌, ◌≤◌, ℕ, bytes_eq, get_or, length, position, replicate};
ghost use Rattle.std.specs.List.{list_all};
ghost use Rattle.flat_sizes.specs.Totals.{AreCounted, Counts, CountsAll, CountsOne, IsListed};
ghost use Rattle.vrt_model.specs.Comparison.{cell_at};
ghost use Rattle.vrt_model.specs.Unrolled.{cell_named};
ghost use Rattle.vrt_model.specs.declared.design.Cell.{Cell as CellValue};

use crate::stands::Stand;
use vrt_model::{Cell, Design, InstanceCard, Text};

/// The number of the first cell of a name.
fn place_of(cells: &[Cell], name: &[u8]) -> Option<usize>
    ensures { result ≡ position (λ (c : CellValue). bytes_eq c.name name.now) cells.now }
{
    cells.iter().position(|cell| cell.name.as_bytes() == name)
}

/// The number of a cell by its name, 0 where there is none.
fn cell_number(design: &Design, name: &Text) -> usize
    ensures { result ≡ cell_named design.now name.now }
{
    place_of(design.cells.as_slice(), name.as_bytes()).unwrap_or(0)
}

/// One cell stands so often more.
fn add_cell(table: &mut [u64; 4096], cell: usize, count: u64)
    requires { cell < 4096 }
    ensures { CountsOne cell count table.old table.new }
{
    table[cell] = table[cell].saturating_add(count);
}

/// The cells of instances stand so often more, in a level and in all.
fn add_cards(
    design: &Design,
    cards: &[InstanceCard],
    count: u64,
    level: &mut [u64; 4096],
    all: &mut [u64; 4096],
)
    requires { length design.now.cells ≤ 4096 }
    ensures level { Counts design.now cards.now count level.old level.new }
    ensures all { Counts design.now cards.now count all.old all.new }
{
    for card in cards {
        let cell = cell_number(design, &card.cell);
        add_cell(level, cell, count);
        add_cell(all, cell, count);
    }
}

/// The same for the instances of a cell that stands so often.
fn add_inner(
    design: &Design,
    cell: usize,
    count: u64,
    level: &mut [u64; 4096],
    all: &mut [u64; 4096],
)
    requires { length design.now.cells ≤ 4096 }
    ensures level { Counts design.now (cell_at design.now cell).instances count level.old level.new }
    ensures all { Counts design.now (cell_at design.now cell).instances count all.old all.new }
{
    if count > 0 && cell < design.cells.len() {
        let found = &design.cells.as_slice()[cell];
        add_cards(design, found.instances.as_slice(), count, level, all);
    }
}

/// The same for the cells of a level.
fn add_level(design: &Design, level: &[u64; 4096], next: &mut [u64; 4096], all: &mut [u64; 4096])
    requires { length design.now.cells ≤ 4096 }
    ensures next { CountsAll design.now level.now next.old next.new }
    ensures all { CountsAll design.now level.now all.old all.new }
{
    for cell in 0..design.cells.len() {
        add_inner(design, cell, level[cell], next, all);
    }
}

/// Whether no cell stands in a level.
fn is_empty(level: &[u64]) -> bool
    ensures { result ≡ list_all (λ (count : ℕ). count == 0) level.now }
{
    for count in level {
        if *count != 0 {
            return false;
        }
    }
    true
}

/// No cell stands anywhere.
fn no_cells() -> [u64; 4096]
    ensures { result ≡ replicate 4096 0 }
{
    [0u64; 4096]
}

/// How often each cell stands in a cell, at any depth up to 32. A count past the greatest number is that number. Levels without cells
/// are not looked at.
pub(crate) fn cells_inside(design: &Design, cell: usize) -> [u64; 4096]
    requires few { length design.now.cells ≤ 4096 }
    requires there { cell < length design.now.cells }
    ensures { AreCounted design.now cell result }
{
    let mut all = no_cells();
    let mut level = no_cells();
    level[cell] = 1;
    for round in 0..32u32 {
        if is_empty(level.as_slice()) {
            return all;
        }
        let mut next = no_cells();
        add_level(design, &level, &mut next, &mut all);
        level = next;
    }
    all
}

/// A cell with its count in a table.
fn stand_of(table: &[u64; 4096], cell: usize) -> Stand
    requires { cell < 4096 }
    ensures cell { result.cell ≡ cell }
    ensures count { result.count ≡ get_or table.now cell 0 }
{
    Stand {
        cell,
        count: table[cell],
    }
}

/// The counts of a table as a list of stands, one for each cell.
pub(crate) fn listed(table: &[u64; 4096]) -> [Stand; 4096]
    ensures { IsListed table.now result }
{
    let mut stands = [Stand { cell: 0, count: 0 }; 4096];
    for cell in 0..4096usize {
        stands[cell] = stand_of(table, cell);
    }
    stands
}
