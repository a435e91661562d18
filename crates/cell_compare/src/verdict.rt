//! One cell compared with its model.

ghost use Rattle.std.specs.Prelude.{◌≡◌, ◌≤◌, ◌<◌, ℕ, [], Some, false, length, IfOk};
ghost use Rattle.cell_compare.specs.Cells.{HasFacts, HasLine, HasRuns, IsComplete, IsFlattenedTo};
ghost use Rattle.cell_room.specs.Compared.{AreInputs};
ghost use Rattle.cell_room.specs.Planned.{IsPlannedCell};
ghost use Rattle.checked_cells.specs.Given.{AreTrueFacts};
ghost use Rattle.prepared_tables.specs.Prepared.{ArePrepared};
ghost use Rattle.vrt_model.specs.Hierarchy.{IsOrdered};
ghost use Rattle.vrt_model.specs.Inputs.{AreRules, IsBlif, IsDesign};
ghost use Rattle.vrt_model.specs.Models.{AreModels};
ghost use Rattle.vrt_model.specs.CheckedVerdicts.{IsCheckedVerdict};
ghost use Rattle.whole_cells.specs.Kept.{AreKept};

use crate::drives::{Told, told_of};
use crate::known_facts::{facts_of, is_bare, no_facts};
use crate::not_compared::{Stop, planned_cell};
use crate::opened::opened;
use cell_room::{Flattened, Planned};
use prepared_tables::{Prepared, prepare};
use std::alloc::Global;
use vrt_model::{Blif, CellFacts, Design, NoMemory, Rules, Seq, Verdict};
use whole_cells::KeptCells;

/// The verdict on a cell, and what is known of the cell then, with its flat circuit and flat model, by which what the
/// verdict speaks of is named.
#[derive(Drop)]
pub struct Compared {
    /// The answer for the cell, which is printed in one line.
    pub verdict: Verdict,
    /// What cells above may use of this one.
    pub facts: CellFacts,
    /// What was compared; none for `Skipped` and where something stands in the way of circuit or model.
    pub flattened: Option<Flattened>,
}

/// A cell that is not compared, with what was made of it.
fn not_compared(alloc: Global, verdict: Verdict, flattened: Option<Flattened>) -> Compared
    ensures { result ≡ record { verdict = verdict; facts = record { equal = false; stateless = false; drives = [] }; flattened = flattened } }
{
    Compared {
        verdict,
        facts: no_facts(alloc),
        flattened,
    }
}

/// The verdict on a planned cell.
fn compare_planned(
    alloc: Global,
    budget: u32,
    prepared: &Prepared,
    design: &Design,
    blif: &Blif,
    rules: &Rules,
    cell: u32,
    planned: Planned,
    facts: &[CellFacts],
    kept: &mut KeptCells,
) -> Result<Compared, NoMemory>
    requires budget { (65536 ≤ budget) × (budget ≤ 64000000) }
    requires prepared { ArePrepared design.now blif.now rules.now prepared.now }
    requires inputs { AreInputs design.now blif.now rules.now cell }
    requires facts { AreTrueFacts design.now blif.now rules.now facts.now }
    requires planned { (m : ℕ) × IsPlannedCell design.now blif.now rules.now cell m planned }
    requires kept { AreKept design.now blif.now rules.now facts.now kept.old }
    ensures verdict { IfOk result (λ c. IsCheckedVerdict design.now blif.now rules.now facts.now budget cell c.verdict) }
    ensures line { IfOk result (λ c. HasLine design.now blif.now rules.now cell c.verdict c.flattened) }
    ensures flattened { IfOk result (λ c. IsFlattenedTo design.now blif.now rules.now cell (Some c.verdict) c.flattened) }
    ensures facts { IfOk result (λ c. HasFacts design.now blif.now rules.now facts.now cell c.verdict c.facts) }
    ensures complete { IfOk result (λ c. IsComplete design.now blif.now rules.now budget cell c.verdict) }
    ensures runs { IfOk result (λ c. HasRuns design.now blif.now rules.now cell c.verdict) }
    ensures kept { IfOk result (λ _. AreKept design.now blif.now rules.now facts.now kept.new) }
{
    let mut workspace = opened(
        alloc, budget, prepared, design, blif, rules, cell, planned, facts, kept,
    )?;
    let told = told_of(&mut workspace, alloc, facts)?;
    let flattened = workspace.into_flattened();
    let bare = is_bare(flattened.circuit(), flattened.model());
    let Told { verdict, drives } = told;
    let facts = facts_of(alloc, &verdict, drives, bare);
    Ok(Compared {
        verdict,
        facts,
        flattened: Some(flattened),
    })
}

/// The verdict on a cell by the tables of the netlist, the models and the rules, which `prepare` makes: the same as `compare`,
/// in a time that does not grow with the numbers of cells and models. What the instances of cells have in common is taken from what is kept,
/// and made and kept where it is wanting.
pub fn compare_prepared(
    alloc: Global,
    budget: u32,
    prepared: &Prepared,
    design: &Design,
    blif: &Blif,
    rules: &Rules,
    cell: u32,
    facts: &[CellFacts],
    kept: &mut KeptCells,
) -> Result<Compared, NoMemory>
    requires budget { (65536 ≤ budget) × (budget ≤ 64000000) }
    requires prepared { ArePrepared design.now blif.now rules.now prepared.now }
    requires inputs { AreInputs design.now blif.now rules.now cell }
    requires facts { AreTrueFacts design.now blif.now rules.now facts.now }
    requires kept { AreKept design.now blif.now rules.now facts.now kept.old }
    ensures verdict { IfOk result (λ c. IsCheckedVerdict design.now blif.now rules.now facts.now budget cell c.verdict) }
    ensures line { IfOk result (λ c. HasLine design.now blif.now rules.now cell c.verdict c.flattened) }
    ensures flattened { IfOk result (λ c. IsFlattenedTo design.now blif.now rules.now cell (Some c.verdict) c.flattened) }
    ensures facts { IfOk result (λ c. HasFacts design.now blif.now rules.now facts.now cell c.verdict c.facts) }
    ensures complete { IfOk result (λ c. IsComplete design.now blif.now rules.now budget cell c.verdict) }
    ensures runs { IfOk result (λ c. HasRuns design.now blif.now rules.now cell c.verdict) }
    ensures kept { IfOk result (λ _. AreKept design.now blif.now rules.now facts.now kept.new) }
{
    match planned_cell(alloc, prepared, design, blif, rules, cell) {
        Ok(planned) => compare_planned(
            alloc, budget, prepared, design, blif, rules, cell, planned, facts, kept,
        ),
        Err(Stop::Skipped) => Ok(not_compared(alloc, Verdict::Skipped, None)),
        Err(Stop::Unsupported(why, flattened)) => Ok(not_compared(
            alloc,
            Verdict::Unsupported(why),
            flattened,
        )),
        Err(Stop::NoMemory) => Err(NoMemory),
    }
}

/// The verdict on a cell. Phase by phase its circuit is compared with its model by diagrams, which take at most `budget` nodes in
/// each phase. An instance of a cell that is known as equal and stateless is left whole, and the model of its cell stands for it,
/// where its outputs meet gates alone, or devices and outputs that are no stronger than `facts` say that they drive, and the other
/// conditions of the checked circuit hold; all others are unrolled. Each verdict is that of the flat circuit. A fault stands there, and
/// is the first by the order of places of the checked circuit. Of an equal cell it is told how strongly its outputs drive.
///
/// `Budget` comes only with more than four variables, where the nodes that its phase may need are more than the budget;
/// beside it and want of memory each verdict comes exactly where it holds.
pub fn compare(
    alloc: Global,
    budget: u32,
    design: &Design,
    blif: &Blif,
    rules: &Rules,
    cell: u32,
    facts: &Seq<CellFacts>,
) -> Result<Compared, NoMemory>
    requires budget { (65536 ≤ budget) × (budget ≤ 64000000) }
    requires design { IsDesign design.now }
    requires blif { IsBlif blif.now }
    requires models { AreModels blif.now }
    requires rules { AreRules rules.now }
    requires cell { cell < length design.now.cells }
    requires ordered { IsOrdered design.now rules.now }
    requires facts { AreTrueFacts design.now blif.now rules.now facts.now }
    ensures verdict { IfOk result (λ c. IsCheckedVerdict design.now blif.now rules.now facts.now budget cell c.verdict) }
    ensures line { IfOk result (λ c. HasLine design.now blif.now rules.now cell c.verdict c.flattened) }
    ensures flattened { IfOk result (λ c. IsFlattenedTo design.now blif.now rules.now cell (Some c.verdict) c.flattened) }
    ensures facts { IfOk result (λ c. HasFacts design.now blif.now rules.now facts.now cell c.verdict c.facts) }
    ensures complete { IfOk result (λ c. IsComplete design.now blif.now rules.now budget cell c.verdict) }
    ensures runs { IfOk result (λ c. HasRuns design.now blif.now rules.now cell c.verdict) }
{
    let prepared = prepare(alloc, design, blif, rules)?;
    let mut kept = KeptCells::none(alloc, design.cells.len())?;
    compare_prepared(
        alloc,
        budget,
        &prepared,
        design,
        blif,
        rules,
        cell,
        facts.as_slice(),
        &mut kept,
    )
}
