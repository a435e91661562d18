//! What is known of the cells of a netlist as they are checked one behind the other.

ghost use Rattle.std.specs.Prelude.{◌≡◌, ◌<◌, [], false, length, replicate, set, IfOk};
ghost use Rattle.vrt_model.specs.declared.blif.Blif.{Blif as BlifValue};
ghost use Rattle.vrt_model.specs.declared.design.Design.{Design as DesignValue};
ghost use Rattle.vrt_model.specs.declared.rules.Rules.{Rules as RulesValue};
ghost use Rattle.whole_cells.specs.Kept.{AreKept};

use std::alloc::Global;
use vrt_model::{CellFacts, NoMemory, Seq};
use whole_cells::KeptCells;

/// What is known of the cells of a netlist.
pub struct Known {
    /// For each cell what its verdict tells the cells above; nothing of a cell that is not checked yet.
    pub facts: Vec<CellFacts>,
    /// What the instances of cells have in common, by these facts.
    pub kept: KeptCells,
}

/// By hand, so that letting go of it is a call.
impl Drop for Known {
    fn drop(self) {
        let Known {
            facts: _facts,
            kept: _kept,
        } = self;
    }
}

/// Nothing known of so many cells.
fn no_facts(alloc: Global, count: usize) -> Result<Vec<CellFacts>, NoMemory>
    ensures { IfOk result (λ facts. facts.items ≡ replicate count (record { equal = false; stateless = false; drives = [] })) }
{
    let mut facts = Vec::new(alloc);
    for _cell in 0..count {
        let nothing = CellFacts {
            equal: false,
            stateless: false,
            drives: Seq::new(alloc),
        };
        if facts.push(nothing).is_err() {
            return Err(NoMemory);
        }
    }
    Ok(facts)
}

impl Known {
    /// Nothing is known of so many cells.
    pub fn nothing(alloc: Global, count: usize) -> Result<Known, NoMemory>
        ensures facts { IfOk result (λ known. known.facts.items ≡ replicate count (record { equal = false; stateless = false; drives = [] })) }
        ensures kept { IfOk result (λ known. (design : DesignValue) (blif : BlifValue) (rules : RulesValue) → count ≡ length design.cells → AreKept design blif rules known.facts.items known.kept) }
    {
        let facts = no_facts(alloc, count)?;
        let kept = KeptCells::none(alloc, count)?;
        Ok(Known { facts, kept })
    }

    /// Notes what is known of a cell.
    pub fn note(&mut self, number: u32, facts: CellFacts)
        requires number { number < length self.old.facts.items }
        ensures facts { self.new.facts.items ≡ set self.old.facts.items number facts }
        ensures kept { (design : DesignValue) (blif : BlifValue) (rules : RulesValue) → AreKept design blif rules self.old.facts.items self.old.kept → AreKept design blif rules self.new.facts.items self.new.kept }
    {
        self.facts[number as usize] = facts;
        self.kept.forget(number as usize);
    }
}
