//! The tables of a netlist and its rules.

ghost use Rattle.std.specs.Prelude.{OnOk, IfOk};
ghost use Rattle.rule_index.specs.Tables.{AreIndexed, IsFreshIndex};

use crate::cells::note_cells;
use crate::lines::RuleLines;
use crate::models::ModelTable;
use crate::supplies::note_supplies;
use name_tables::FirstValues;
use std::alloc::Global;
use vrt_model::{Design, NoMemory, Rules};

/// What is said in a netlist and its rules, by names: made once, in time and memory in proportion to them, and looked up
/// for each cell.
pub struct RuleIndex {
    /// The numbers of cells, places in `Design.cells`, by their names.
    pub cells: FirstValues<usize>,
    /// The values of supplies, 1 for true, by the names that `supply` rules declare.
    pub supplies: FirstValues<bool>,
    /// The kinds and levels of device models.
    pub models: ModelTable,
    /// The places of the rules that are of cells.
    pub lines: RuleLines,
}

/// By hand, so that letting go of one is a call.
impl Drop for RuleIndex {
    fn drop(self) {
        let RuleIndex {
            cells: _cells,
            supplies: _supplies,
            models: _models,
            lines: _lines,
        } = self;
    }
}

impl RuleIndex {
    /// With nothing said. It takes no memory.
    fn new(alloc: Global) -> Self
        ensures { IsFreshIndex result }
    {
        RuleIndex {
            cells: FirstValues::new(alloc),
            supplies: FirstValues::new(alloc),
            models: ModelTable::new(alloc),
            lines: RuleLines::new(alloc),
        }
    }

    /// Adds what a netlist and rules say, where nothing is said yet.
    fn fill(&mut self, design: &Design, rules: &Rules) -> Result<(), NoMemory>
        requires { IsFreshIndex self.old }
        ensures { OnOk result (AreIndexed design.now rules.now self.new) }
    {
        note_cells(&mut self.cells, design.cells.as_slice())?;
        note_supplies(&mut self.supplies, rules.supplies.as_slice())?;
        self.models.fill(design, rules)?;
        self.lines.fill(rules)?;
        Ok(())
    }
}

/// The tables of a netlist and its rules, whatever they say: want of memory is the only refusal.
pub fn index_of(alloc: Global, design: &Design, rules: &Rules) -> Result<RuleIndex, NoMemory>
    ensures { IfOk result (AreIndexed design.now rules.now) }
{
    let mut index = RuleIndex::new(alloc);
    index.fill(design, rules)?;
    Ok(index)
}
