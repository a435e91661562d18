//! The first device of an unrolled cell whose model has no kind.

ghost use Rattle.std.specs.Prelude.{◌≡◌};
ghost use Rattle.std.specs.Option.{option_copied};
ghost use Rattle.flatten.specs.Walks.{AreNumbered, card_without_kind, first_card, has_no_kind};

use crate::cells::cell_number;
use crate::devices::without_kind;
use rule_index::{FirstValues, ModelTable};
use vrt_model::{Design, DeviceCard};

/// The first device without a kind, of a cell and then of the cells in it, at most so deep. It takes time in proportion to
/// the cards that are unrolled.
fn first_without<'a>(
    models: &ModelTable,
    design: &'a Design,
    cells: &FirstValues<usize>,
    cell: usize,
    depth: u32,
) -> Option<&'a DeviceCard>
    requires { AreNumbered design.now cells.now }
    ensures { option_copied result ≡ first_card (has_no_kind models.now) design.entry.now depth cell }
{
    let found = design.cells.get(cell)?;
    if let Some(card) = without_kind(models, found.devices.as_slice()) {
        return Some(card);
    }
    if depth == 0 {
        return None;
    }
    let below = depth - 1;
    for card in found.instances.as_slice() {
        let number = cell_number(cells, card.cell.as_bytes());
        if let Some(first) = first_without(models, design, cells, number, below) {
            return Some(first);
        }
    }
    None
}

/// The first device without a kind of an unrolled cell.
pub fn unrolled_without_kind<'a>(
    models: &ModelTable,
    design: &'a Design,
    cells: &FirstValues<usize>,
    cell: usize,
) -> Option<&'a DeviceCard>
    requires { AreNumbered design.now cells.now }
    ensures { option_copied result ≡ card_without_kind models.now design.entry.now cell }
{
    first_without(models, design, cells, cell, 32)
}
