//! What is told of a cell that is compared: its verdict, and the drives of its output ports where it is equal.

ghost use Rattle.std.specs.Prelude.{◌≡◌, IfOk};
ghost use Rattle.cell_compare.specs.Ports.{HasDrives};
ghost use Rattle.cell_compare.specs.Workspace.{KeepsCell};
ghost use Rattle.cell_room.specs.Compared.{comparison};
ghost use Rattle.cell_room.specs.Made.{circuit_in};
ghost use Rattle.checked_cells.specs.Given.{AreTrueFacts, IsCheckedOf};
ghost use Rattle.vrt_model.specs.CheckedVerdicts.{HasCheckedVerdict};
ghost use Rattle.vrt_model.specs.declared.verdict.Verdict.TheVariants.{Equal};

use crate::phases::search;
use crate::workspace::Workspace;
use std::alloc::Global;
use vrt_model::{CellFacts, Drive, NoMemory, Seq, Verdict};

/// What is told of a cell.
#[derive(Drop)]
pub(crate) struct Told {
    /// What is found.
    pub(crate) verdict: Verdict,
    /// One drive for each output port of an equal cell, in port order; of another one they say nothing.
    pub(crate) drives: Seq<Drive>,
}

/// The verdict on a cell by its phases, and the drives of its output ports. Which ports are alone inside the cell is told by the flat circuit.
pub(crate) fn told_of(
    workspace: &mut Workspace<'_>,
    alloc: Global,
    facts: &[CellFacts],
) -> Result<Told, NoMemory>
    requires checked { IsCheckedOf (comparison workspace.old.design workspace.old.rules workspace.old.cell workspace.old.made.flattened) workspace.old.blif facts.now (circuit_in workspace.old.made) }
    requires facts { AreTrueFacts workspace.old.design workspace.old.blif workspace.old.rules facts.now }
    ensures verdict { IfOk result (λ told. HasCheckedVerdict (comparison workspace.old.design workspace.old.rules workspace.old.cell workspace.old.made.flattened) workspace.old.blif facts.now workspace.old.budget told.verdict) }
    ensures drives { IfOk result (λ told. told.verdict ≡ Equal → HasDrives (comparison workspace.old.design workspace.old.rules workspace.old.cell workspace.old.made.flattened) workspace.old.blif facts.now told.drives) }
    ensures rest { KeepsCell workspace.old workspace.new }
{
    workspace.sound();
    let mut ports = workspace.ports(alloc)?;
    let verdict = search(workspace, alloc, &mut ports)?;
    let drives = workspace.drives(alloc, facts, &ports)?;
    Ok(Told { verdict, drives })
}
