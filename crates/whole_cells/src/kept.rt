//! What the instances of the cells of a netlist have in common, made for each cell once: where the cell is first met in another one.

ghost use Rattle.std.specs.Prelude.{◌≡◌, ◌⊎◌, ◌<◌, ℕ, List, false, length, replicate, set, true, IfOk, OnOk};
ghost use Rattle.net_places.specs.declared.places.Place.{Place as PlaceValue};
ghost use Rattle.prepared_tables.specs.Prepared.{ArePrepared};
ghost use Rattle.vrt_model.specs.Lists.{Among, mark_at};
ghost use Rattle.vrt_model.specs.declared.blif.Blif.{Blif as BlifValue};
ghost use Rattle.vrt_model.specs.declared.design.Design.{Design as DesignValue};
ghost use Rattle.vrt_model.specs.declared.rules.Rules.{Rules as RulesValue};
ghost use Rattle.vrt_model.specs.declared.whole.CellFacts.{CellFacts as FactsValue};
ghost use Rattle.whole_cells.specs.Kept.{AreKept};
ghost use Rattle.whole_cells.specs.Own.{AreFiles};

use crate::entry::whole_cell;
use known_nets::{is_marked, no_marks};
use net_places::Place;
use prepared_tables::Prepared;
use std::alloc::Global;
use vrt_model::{Blif, CellFacts, Design, NoMemory, Rules};
use whole_circuits::WholeCell;

/// What the instances of the cells of a netlist have in common, as far as it was asked for.
pub struct KeptCells {
    /// For each cell of the netlist what its instances have in common, if they may be left whole; of a cell without a mark it says nothing.
    pub cells: Vec<Option<WholeCell>>,
    /// A mark for each cell of which it is made.
    pub made: Vec<bool>,
}

/// By hand, so that letting go of them is a call.
impl Drop for KeptCells {
    fn drop(self) {
        let KeptCells {
            cells: _cells,
            made: _made,
        } = self;
    }
}

/// As many cells without an entry.
fn no_cells(alloc: Global, count: usize) -> Result<Vec<Option<WholeCell>>, NoMemory>
    ensures { IfOk result (λ cells. length cells.items ≡ count) }
{
    let mut cells = Vec::with_capacity(alloc, count)?;
    for _cell in 0..count {
        if cells.push(None).is_err() {
            return Err(NoMemory);
        }
    }
    Ok(cells)
}

impl KeptCells {
    /// Of so many cells nothing is made.
    pub fn none(alloc: Global, count: usize) -> Result<Self, NoMemory>
        ensures { IfOk result (λ kept. (design : DesignValue) (blif : BlifValue) (rules : RulesValue) (facts : List FactsValue) → count ≡ length design.cells → AreKept design blif rules facts kept) }
    {
        let made = no_marks(alloc, count)?;
        let cells = no_cells(alloc, count)?;
        Ok(KeptCells { cells, made })
    }

    /// What was made of a cell is made anew when it is next asked for, as where other facts are known of the cell.
    pub fn forget(&mut self, cell: usize)
        ensures { (design : DesignValue) (blif : BlifValue) (rules : RulesValue) (facts : List FactsValue) (now : FactsValue) → AreKept design blif rules facts self.old → AreKept design blif rules (set facts cell now) self.new }
    {
        if cell < self.made.len() {
            self.made[cell] = false;
        }
    }

    /// Keeps what is made of a cell.
    fn keep(&mut self, cell: usize, entry: Option<WholeCell>)
        requires cells { cell < length self.old.cells.items }
        requires made { cell < length self.old.made.items }
        ensures cells { self.new.cells.items ≡ set self.old.cells.items cell entry }
        ensures made { self.new.made.items ≡ set self.old.made.items cell true }
    {
        self.cells[cell] = entry;
        self.made[cell] = true;
    }
}

/// Makes what the instances of a cell have in common, unless it is made or there is no such cell.
fn make(
    alloc: Global,
    prepared: &Prepared,
    design: &Design,
    blif: &Blif,
    rules: &Rules,
    facts: &[CellFacts],
    cell: usize,
    kept: &mut KeptCells,
) -> Result<(), NoMemory>
    requires prepared { ArePrepared design.now blif.now rules.now prepared.now }
    requires files { AreFiles design.now blif.now rules.now }
    requires kept { AreKept design.now blif.now rules.now facts.now kept.old }
    ensures kept { OnOk result (AreKept design.now blif.now rules.now facts.now kept.new) }
    ensures here { OnOk result (cell < length design.now.cells → mark_at kept.new.made.items cell ≡ true) }
    ensures others { OnOk result ((n : ℕ) → mark_at kept.old.made.items n ≡ true → mark_at kept.new.made.items n ≡ true) }
{
    if cell >= design.cells.len() {
        return Ok(());
    }
    if is_marked(kept.made.as_slice(), cell) {
        return Ok(());
    }
    let entry = whole_cell(alloc, prepared, design, blif, rules, facts, cell as u32)?;
    kept.keep(cell, entry);
    Ok(())
}

/// Makes what the instances of the cells of some places have in common, of each cell of which it is not made yet.
pub fn make_used(
    alloc: Global,
    prepared: &Prepared,
    design: &Design,
    blif: &Blif,
    rules: &Rules,
    facts: &[CellFacts],
    places: &[Place],
    kept: &mut KeptCells,
) -> Result<(), NoMemory>
    requires prepared { ArePrepared design.now blif.now rules.now prepared.now }
    requires files { AreFiles design.now blif.now rules.now }
    requires kept { AreKept design.now blif.now rules.now facts.now kept.old }
    ensures kept { OnOk result (AreKept design.now blif.now rules.now facts.now kept.new) }
    ensures made { OnOk result ((p : PlaceValue) → Among places.now p → p.cell < length design.now.cells → mark_at kept.new.made.items p.cell ≡ true) }
{
    let mut rest = places;
    'places: while let Some((place, behind)) = rest.split_first() {
        make(
            alloc, prepared, design, blif, rules, facts, place.cell, kept,
        )?;
        rest = behind;
    }
    Ok(())
}
