//! How often each cell stands in another, as a list of the cells that stand there: no instance is unrolled, and no table has
//! a place for each cell of the netlist.

ghost use Rattle.std.specs.Prelude.{◌≡◌, ◌<◌, IfOk, OnOk, length, get_or, unwrap_or};
ghost use Rattle.flat_sizes.specs.Totals.{Adds, AddsAll, AddsOne, AddsStands, AreInside, AreNumbered, CountAlike, DescendsFrom, IsDirectlyIn};
ghost use Rattle.rule_index.specs.Firsts.{value_in};
ghost use Rattle.vrt_model.specs.Comparison.{cell_at};
ghost use Rattle.vrt_model.specs.declared.design.Design.{Design as DesignValue};

use rule_index::FirstValues;
use std::alloc::Global;
use vrt_model::{Design, InstanceCard, NoMemory, Text};

/// A cell that stands so often.
#[derive(Clone, Copy)]
pub(crate) struct Stand {
    /// The cell, by its place in `Design.cells`.
    pub(crate) cell: usize,
    /// How often it stands there, up to the greatest number.
    pub(crate) count: u64,
}

/// The number of a cell by its name, 0 where there is none.
fn cell_number(cells: &FirstValues<usize>, name: &Text) -> usize
    ensures { result ≡ unwrap_or (value_in cells.now name.now) 0 }
{
    match cells.get(name.as_bytes()) {
        Some(number) => *number,
        None => 0,
    }
}

/// Adds a stand behind the others.
fn append(stands: &mut Vec<Stand>, stand: Stand) -> Result<(), NoMemory>
    ensures { OnOk result (AddsOne stand.cell stand.count stands.old.items stands.new.items) }
{
    match stands.push(stand) {
        Ok(()) => Ok(()),
        Err(_) => Err(NoMemory),
    }
}

/// A cell stands so often more.
fn grow(stands: &mut Vec<Stand>, at: usize, stand: Stand)
    requires there { at < length stands.old.items }
    requires same { (get_or stands.old.items at stand).cell ≡ stand.cell }
    ensures { AddsOne stand.cell stand.count stands.old.items stands.new.items }
{
    let count = stands[at].count.saturating_add(stand.count);
    stands[at] = Stand {
        cell: stand.cell,
        count,
    };
}

/// Adds a stand: to the last where that is of the same cell, else behind it.
fn add(stands: &mut Vec<Stand>, stand: Stand) -> Result<(), NoMemory>
    ensures { OnOk result (AddsOne stand.cell stand.count stands.old.items stands.new.items) }
{
    let end = stands.len();
    if end > 0 {
        let last = stands[end - 1];
        if last.cell == stand.cell {
            grow(stands, end - 1, stand);
            return Ok(());
        }
    }
    append(stands, stand)
}

/// Adds stands.
fn add_all(stands: &mut Vec<Stand>, more: &[Stand]) -> Result<(), NoMemory>
    ensures { OnOk result (AddsStands more.now stands.old.items stands.new.items) }
{
    for stand in more {
        add(stands, *stand)?;
    }
    Ok(())
}

/// Adds the cells of instances, each as often.
fn add_cards(
    cells: &FirstValues<usize>,
    cards: &[InstanceCard],
    count: u64,
    stands: &mut Vec<Stand>,
) -> Result<(), NoMemory>
    ensures { OnOk result ((design : DesignValue) → AreNumbered design cells.now → Adds design cards.now count stands.old.items stands.new.items) }
{
    for card in cards {
        let cell = cell_number(cells, &card.cell);
        add(stands, Stand { cell, count })?;
    }
    Ok(())
}

/// The instances of a cell, none where there is no such cell.
fn cards_of(design: &Design, cell: usize) -> &[InstanceCard]
    ensures { result.now ≡ (cell_at design.now cell).instances }
{
    match design.cells.get(cell) {
        Some(found) => found.instances.as_slice(),
        None => &[],
    }
}

/// Adds those that stand directly in a cell.
fn add_inner(
    design: &Design,
    cells: &FirstValues<usize>,
    stand: Stand,
    stands: &mut Vec<Stand>,
) -> Result<(), NoMemory>
    requires { AreNumbered design.now cells.now }
    ensures { OnOk result (Adds design.now (cell_at design.now stand.cell).instances stand.count stands.old.items stands.new.items) }
{
    add_cards(cells, cards_of(design, stand.cell), stand.count, stands)?;
    Ok(())
}

/// Adds those that stand directly in the cells of a level.
fn add_level(
    design: &Design,
    cells: &FirstValues<usize>,
    level: &[Stand],
    stands: &mut Vec<Stand>,
) -> Result<(), NoMemory>
    requires { AreNumbered design.now cells.now }
    ensures { OnOk result (AddsAll design.now level.now stands.old.items stands.new.items) }
{
    for stand in level {
        add_inner(design, cells, *stand, stands)?;
    }
    Ok(())
}

/// The same stands with each cell once: sorted by cells, and neighbours of one cell put together.
fn merged(alloc: Global, stands: Vec<Stand>) -> Result<Vec<Stand>, NoMemory>
    ensures { IfOk result (λ t. CountAlike stands.items t.items) }
{
    let mut sorted = stands;
    sorted.sort_unstable_by_key(|stand| stand.cell);
    let mut once = Vec::new(alloc);
    add_all(&mut once, sorted.as_slice())?;
    Ok(once)
}

/// What stands directly in the cells of a level, each cell once.
fn next_level(
    alloc: Global,
    design: &Design,
    cells: &FirstValues<usize>,
    level: &[Stand],
) -> Result<Vec<Stand>, NoMemory>
    requires { AreNumbered design.now cells.now }
    ensures { IfOk result (λ next. IsDirectlyIn design.now level.now next.items) }
{
    let mut next = Vec::new(alloc);
    add_level(design, cells, level, &mut next)?;
    merged(alloc, next)
}

/// The cells that stand in those of a level, at any depth up to 32, level by level. Levels without cells are not looked at.
fn all_levels(
    alloc: Global,
    design: &Design,
    cells: &FirstValues<usize>,
    first: Vec<Stand>,
) -> Result<Vec<Stand>, NoMemory>
    requires { AreNumbered design.now cells.now }
    ensures { IfOk result (λ all. DescendsFrom design.now first.items all.items) }
{
    let mut all = Vec::new(alloc);
    let mut level = first;
    for _round in 0..32u32 {
        if level.is_empty() {
            return Ok(all);
        }
        let next = next_level(alloc, design, cells, level.as_slice())?;
        add_all(&mut all, next.as_slice())?;
        level = next;
    }
    Ok(all)
}

/// How often each cell stands in a cell, at any depth up to 32: each cell once. It takes time in proportion to the cards of
/// the cells that stand in it, once for each level on which a cell stands.
pub(crate) fn stands_inside(
    alloc: Global,
    design: &Design,
    cells: &FirstValues<usize>,
    cell: usize,
) -> Result<Vec<Stand>, NoMemory>
    requires { AreNumbered design.now cells.now }
    ensures { IfOk result (λ stands. AreInside design.now cell stands.items) }
{
    let mut first = Vec::new(alloc);
    append(&mut first, Stand { cell, count: 1 })?;
    let all = all_levels(alloc, design, cells, first)?;
    merged(alloc, all)
}
