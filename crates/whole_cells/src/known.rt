//! What is told of cells.

ghost use Rattle.std.specs.Prelude.{◌≡◌, ◌&&◌, IfOk};
ghost use Rattle.whole_circuits.specs.Pins.{AreDrivesOf};
ghost use Rattle.vrt_model.specs.Checked.{has_fact};
ghost use Rattle.vrt_model.specs.declared.whole.CellFacts.{CellFacts as FactsValue};

use std::alloc::Global;
use vrt_model::{CellFacts, Drive, NoMemory, Seq};
use whole_circuits::copy_items;

/// Whether a cell is told to be equal and without holds and latches.
pub fn is_known(facts: &[CellFacts], cell: usize) -> bool
    ensures { result ≡ has_fact (λ (f : FactsValue). f.equal && f.stateless) facts.now cell }
{
    match facts.get(cell) {
        Some(known) => known.equal && known.stateless,
        None => false,
    }
}

/// How strongly the outputs of a cell drive, in their order, as far as it is told.
pub fn told_drives(alloc: Global, facts: &[CellFacts], cell: usize) -> Result<Seq<Drive>, NoMemory>
    ensures { IfOk result (AreDrivesOf facts.now cell) }
{
    match facts.get(cell) {
        Some(known) => copy_items(alloc, known.drives.as_slice()),
        None => Ok(Seq::new(alloc)),
    }
}
