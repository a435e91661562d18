//! The workspace of a cell opened.

ghost use Rattle.std.specs.Prelude.{◌≡◌, ◌<◌, ◌≤◌, ℕ, length, IfOk};
ghost use Rattle.cell_compare.specs.Workspace.{IsWorkspace, RoomGives};
ghost use Rattle.cell_room.specs.Compared.{AreInputs, comparison};
ghost use Rattle.cell_room.specs.Made.{circuit_in};
ghost use Rattle.cell_room.specs.Planned.{IsPlannedCell};
ghost use Rattle.checked_cells.specs.Given.{AreTrueFacts, IsCheckedOf};
ghost use Rattle.prepared_tables.specs.Prepared.{ArePrepared};
ghost use Rattle.vrt_model.specs.Hierarchy.{IsOrdered};
ghost use Rattle.vrt_model.specs.Inputs.{AreRules, IsBlif, IsDesign};
ghost use Rattle.vrt_model.specs.Models.{AreModels};
ghost use Rattle.whole_cells.specs.Kept.{AreKept};

use crate::answers::RoomFault;
use crate::not_compared::{Stop, planned_cell};
use crate::workspace::Workspace;
use cell_room::{Planned, make, room_for};
use prepared_tables::{Prepared, prepare};
use std::alloc::Global;
use vrt_model::{Blif, CellFacts, Design, NoMemory, Rules, Seq};
use whole_cells::KeptCells;

/// The workspace of a planned cell.
pub(crate) fn opened<'a>(
    alloc: Global,
    budget: u32,
    prepared: &Prepared,
    design: &'a Design,
    blif: &'a Blif,
    rules: &'a Rules,
    cell: u32,
    planned: Planned,
    facts: &[CellFacts],
    kept: &mut KeptCells,
) -> Result<Workspace<'a>, NoMemory>
    requires budget { (65536 ≤ budget) × (budget ≤ 64000000) }
    requires prepared { ArePrepared design.now blif.now rules.now prepared.now }
    requires inputs { AreInputs design.now blif.now rules.now cell }
    requires facts { AreTrueFacts design.now blif.now rules.now facts.now }
    requires planned { (m : ℕ) × IsPlannedCell design.now blif.now rules.now cell m planned }
    requires kept { AreKept design.now blif.now rules.now facts.now kept.old }
    ensures opened { IfOk result (IsWorkspace design.entry.now blif.entry.now rules.entry.now facts.now budget cell) }
    ensures flattened { IfOk result (λ w. w.made.flattened ≡ planned.flattened) }
    ensures checked { IfOk result (λ w. IsCheckedOf (comparison design.entry.now rules.entry.now cell w.made.flattened) blif.entry.now facts.now (circuit_in w.made)) }
    ensures kept { IfOk result (λ _. AreKept design.entry.now blif.entry.now rules.entry.now facts.now kept.new) }
{
    let made = make(
        alloc, prepared, design, blif, rules, cell, planned, facts, kept,
    )?;
    let room = room_for(
        alloc,
        budget,
        made.compared(design, rules, cell),
        made.counts,
        made.outputs.as_slice(),
    )?;
    Ok(Workspace::new(design, blif, rules, cell, budget, made, room))
}

/// The workspace of a cell by the tables of the netlist, the models and the rules, which `prepare` makes: the same as `with_room`, in a time
/// that does not grow with the numbers of cells and models. What the instances of cells have in common is taken from what is kept, and made
/// and kept where it is wanting.
pub fn with_room_prepared<'a>(
    alloc: Global,
    budget: u32,
    prepared: &Prepared,
    design: &'a Design,
    blif: &'a Blif,
    rules: &'a Rules,
    cell: u32,
    facts: &[CellFacts],
    kept: &mut KeptCells,
) -> Result<Workspace<'a>, RoomFault>
    requires budget { (65536 ≤ budget) × (budget ≤ 64000000) }
    requires prepared { ArePrepared design.now blif.now rules.now prepared.now }
    requires inputs { AreInputs design.now blif.now rules.now cell }
    requires facts { AreTrueFacts design.now blif.now rules.now facts.now }
    requires kept { AreKept design.now blif.now rules.now facts.now kept.old }
    ensures gives { RoomGives design.entry.now blif.entry.now rules.entry.now facts.now budget cell result }
    ensures kept { IfOk result (λ _. AreKept design.entry.now blif.entry.now rules.entry.now facts.now kept.new) }
{
    match planned_cell(alloc, prepared, design, blif, rules, cell) {
        Ok(planned) => match opened(
            alloc, budget, prepared, design, blif, rules, cell, planned, facts, kept,
        ) {
            Ok(workspace) => Ok(workspace),
            Err(_) => Err(RoomFault::NoMemory),
        },
        Err(Stop::Skipped) => Err(RoomFault::Skipped),
        Err(Stop::Unsupported(why, _)) => Err(RoomFault::Unsupported(why)),
        Err(Stop::NoMemory) => Err(RoomFault::NoMemory),
    }
}

/// The workspace of a cell. All memory that looking through its phases takes is taken here: the flat circuit and model, the variables and the
/// plan of each phase, the checked circuit by what is known of the cells below, the tables of levels, and one store of diagrams with at
/// most `budget` nodes.
///
/// `Skipped` comes exactly where the rules say that the cell is not compared, and `Unsupported` with the first cause for which it cannot be
/// checked; beside them want of memory alone refuses.
pub fn with_room<'a>(
    alloc: Global,
    budget: u32,
    design: &'a Design,
    blif: &'a Blif,
    rules: &'a Rules,
    cell: u32,
    facts: &Seq<CellFacts>,
) -> Result<Workspace<'a>, RoomFault>
    requires budget { (65536 ≤ budget) × (budget ≤ 64000000) }
    requires design { IsDesign design.now }
    requires blif { IsBlif blif.now }
    requires models { AreModels blif.now }
    requires rules { AreRules rules.now }
    requires cell { cell < length design.now.cells }
    requires ordered { IsOrdered design.now rules.now }
    requires facts { AreTrueFacts design.now blif.now rules.now facts.now }
    ensures { RoomGives design.entry.now blif.entry.now rules.entry.now facts.now budget cell result }
{
    let Ok(prepared) = prepare(alloc, design, blif, rules) else {
        return Err(RoomFault::NoMemory);
    };
    let Ok(mut kept) = KeptCells::none(alloc, design.cells.len()) else {
        return Err(RoomFault::NoMemory);
    };
    with_room_prepared(
        alloc,
        budget,
        &prepared,
        design,
        blif,
        rules,
        cell,
        facts.as_slice(),
        &mut kept,
    )
}
