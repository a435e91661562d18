//! The counts of a flat circuit without a look at each pair of names: the own nets of a cell are counted in a set.

ghost use Rattle.std.specs.Prelude.{◌≡◌, ◌<◌, ◌*◌, IfOk, length};
ghost use Rattle.flat_sizes.specs.Sizes.{AreSizes};
ghost use Rattle.flat_sizes.specs.Totals.{AreInside, AreNumbered, inside, nets_weight, stood};
ghost use Rattle.vrt_model.specs.Inputs.{IsDesign};
ghost use Rattle.vrt_model.specs.Unsupported.{carried, top_before};

use crate::counts::{FlatSizes, sizes_by};
use crate::own::own_count;
use crate::stands::{Stand, stands_inside};
use rule_index::FirstValues;
use std::alloc::Global;
use vrt_model::{Design, NoMemory, Rules};

/// How many nets a cell has of its own, none where there is no cell.
fn nets_with(alloc: Global, design: &Design, rules: &Rules, cell: usize) -> Result<u64, NoMemory>
    ensures { IfOk result (λ count. count ≡ carried (nets_weight design.now rules.now cell)) }
{
    match design.cells.get(cell) {
        Some(found) => own_count(alloc, design, rules, found),
        None => Ok(0),
    }
}

/// The own nets of a cell that stands so often. One that stands nowhere is not looked at.
fn weight_with(
    alloc: Global,
    design: &Design,
    rules: &Rules,
    cell: usize,
    count: u64,
) -> Result<u64, NoMemory>
    ensures { IfOk result (λ weight. weight ≡ carried (count * nets_weight design.now rules.now cell)) }
{
    if count == 0 {
        return Ok(0);
    }
    let weight = nets_with(alloc, design, rules, cell)?;
    Ok(weight.saturating_mul(count))
}

/// The own nets of cells that stand so often.
fn sum_with(
    alloc: Global,
    design: &Design,
    rules: &Rules,
    stands: &[Stand],
) -> Result<u64, NoMemory>
    ensures { IfOk result (λ sum. sum ≡ carried (stood (nets_weight design.now rules.now) stands.now)) }
{
    let mut sum = 0u64;
    for stand in stands {
        let weight = weight_with(alloc, design, rules, stand.cell, stand.count)?;
        sum = sum.saturating_add(weight);
    }
    Ok(sum)
}

/// The own nets of the cells in a cell.
fn inner_with(
    alloc: Global,
    design: &Design,
    rules: &Rules,
    cell: usize,
    stands: &[Stand],
) -> Result<u64, NoMemory>
    requires { AreInside design.now cell stands.now }
    ensures { IfOk result (λ count. count ≡ carried (inside design.now (nets_weight design.now rules.now) cell)) }
{
    sum_with(alloc, design, rules, stands)
}

/// How many nets, devices and instances a cell has, with the own nets of each cell counted in a set.
fn sizes_of(
    alloc: Global,
    design: &Design,
    rules: &Rules,
    cell: usize,
    stands: &[Stand],
) -> Result<FlatSizes, NoMemory>
    requires there { cell < length design.now.cells }
    requires stands { AreInside design.now cell stands.now }
    ensures { IfOk result (λ sizes. AreSizes (top_before design.now rules.now cell) sizes) }
{
    let own = nets_with(alloc, design, rules, cell)?;
    let inner = inner_with(alloc, design, rules, cell, stands)?;
    Ok(sizes_by(design, rules, cell, stands, own, inner))
}

/// How many nets, devices and instances the flat circuit of a cell has: the same as `sizes`, with the numbers of cells by
/// their names given. Its time is in proportion to what the cards of the cells that stand in it name, to the rules on
/// supplies, and to what the cards name times the count of global nets, and to the cards once for each level on which a cell
/// stands; its memory to the cells that stand in it and to what the cards of one cell name. Of the other cells of the
/// netlist it takes no time.
pub fn sizes_with(
    alloc: Global,
    design: &Design,
    rules: &Rules,
    cells: &FirstValues<usize>,
    cell: u32,
) -> Result<FlatSizes, NoMemory>
    requires netlist { IsDesign design.now }
    requires numbered { AreNumbered design.now cells.now }
    requires there { cell < length design.now.cells }
    ensures { IfOk result (λ sizes. AreSizes (top_before design.now rules.now cell) sizes) }
{
    let cell = cell as usize;
    let stands = stands_inside(alloc, design, cells, cell)?;
    sizes_of(alloc, design, rules, cell, stands.as_slice())
}
