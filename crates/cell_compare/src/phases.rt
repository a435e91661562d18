//! The phases of a cell in their order.

ghost use Rattle.std.specs.Prelude.{◌≡◌, ◌<◌, length, IfOk};
ghost use Rattle.cell_compare.specs.Phases.{IsChecked, PhaseTells};
ghost use Rattle.cell_compare.specs.Ports.{TellsPhaseLevels, TellsPorts};
ghost use Rattle.cell_compare.specs.Workspace.{KeepsCell, compared_in};
ghost use Rattle.drive_levels.specs.PhaseLevels.{KeepsTables};

use crate::answers::PhaseVerdict;
use crate::workspace::Workspace;
use drive_levels::PortLevels;
use std::alloc::Global;
use vrt_model::{NoMemory, Verdict};

/// What is found in a phase: none where it is equal.
fn found_in(
    workspace: &mut Workspace<'_>,
    alloc: Global,
    phase: u32,
) -> Result<Option<Verdict>, NoMemory>
    requires { phase < length workspace.old.rules.phases }
    ensures tells { IfOk result (PhaseTells (compared_in workspace.old) workspace.old.budget phase) }
    ensures levels { IfOk result (TellsPhaseLevels (compared_in workspace.old) phase workspace.new.levels) }
    ensures tables { KeepsTables workspace.old.levels workspace.new.levels }
    ensures rest { KeepsCell workspace.old workspace.new }
{
    match workspace.check_phase(phase) {
        PhaseVerdict::Clear => Ok(None),
        PhaseVerdict::Vacuous => Ok(Some(Verdict::Vacuous { phase })),
        PhaseVerdict::Fault(_) => {
            let told = workspace.named(alloc)?;
            Ok(Some(Verdict::Fault(told)))
        }
        PhaseVerdict::Budget { nodes } => Ok(Some(Verdict::Budget { nodes, phase })),
    }
}

/// What is found phase by phase: the first phase that is not equal, or else equal, and then each output port has the level that its net has in
/// all of them, or none.
pub(crate) fn search(
    workspace: &mut Workspace<'_>,
    alloc: Global,
    ports: &mut PortLevels,
) -> Result<Verdict, NoMemory>
    requires outputs { ports.old.nets ≡ workspace.old.made.outputs }
    requires len { length ports.old.levels.items ≡ length ports.old.nets }
    ensures checked { IfOk result (IsChecked (compared_in workspace.old) workspace.old.budget) }
    ensures nets { ports.new.nets ≡ ports.old.nets }
    ensures ports { IfOk result (TellsPorts (compared_in workspace.old) ports.old.nets ports.new) }
    ensures rest { KeepsCell workspace.old workspace.new }
{
    workspace.sound();
    let phases = workspace.phase_count();
    for phase in 0..phases {
        let found = found_in(workspace, alloc, phase)?;
        if let Some(verdict) = found {
            return Ok(verdict);
        }
        workspace.join(phase == 0, ports);
    }
    Ok(Verdict::Equal)
}
