//! The levels of nets in a phase, by net, and of output ports in the phases so far.

ghost use Rattle.std.specs.Prelude.{◌≡◌, ◌<◌, ℕ, All, IfOk, None, length, replicate};
ghost use Rattle.drive_levels.specs.PhaseLevels.{HasTables};
ghost use Rattle.drive_levels.specs.PortLevels.{AreAsked, is_one_of};
ghost use Rattle.vrt_model.specs.Lists.{mark_at};
ghost use Rattle.vrt_model.specs.declared.ids.Net.{Net as NetValue};

use crate::ports::asked_nets;
use std::alloc::Global;
use vrt_model::{Net, NoMemory, Seq};

/// Which nets of a circuit are asked for their levels in a phase, and the levels that they have there. Each table has a place for each
/// net, by its number.
#[derive(Drop)]
pub struct NetLevels {
    /// Whether the net is asked for.
    pub asked: Vec<bool>,
    /// Its level in the bare circuit.
    pub bare: Vec<Option<u8>>,
    /// Its level in the circuit with its keepers.
    pub kept: Vec<Option<u8>>,
}

/// The output ports of a cell, in port order, and the levels of their nets in the phases so far.
#[derive(Drop)]
pub struct PortLevels {
    /// The nets of the ports.
    pub nets: Seq<Net>,
    /// For each port the level that its net has in each of these phases, or none.
    pub levels: Vec<Option<u8>>,
}

/// A table without levels.
fn no_levels(alloc: Global, count: usize) -> Result<Vec<Option<u8>>, NoMemory>
    ensures { IfOk result (λ levels. levels.items ≡ replicate count None) }
{
    match vec![in alloc; None; count] {
        Ok(levels) => Ok(levels),
        Err(_) => Err(NoMemory),
    }
}

/// The tables of so many nets, of which these are asked for. Nothing is told yet.
pub fn asking(alloc: Global, count: usize, nets: &[Net]) -> Result<NetLevels, NoMemory>
    requires { All (λ (n : NetValue). n.0 < count) nets.now }
    ensures tables { IfOk result (HasTables count) }
    ensures exact { IfOk result (λ levels. (n : ℕ) → mark_at levels.asked.items n ≡ is_one_of nets.now n) }
    ensures asked { IfOk result (AreAsked nets.now) }
{
    let asked = asked_nets(alloc, count, nets)?;
    let bare = no_levels(alloc, count)?;
    let kept = no_levels(alloc, count)?;
    Ok(NetLevels { asked, bare, kept })
}

/// Output ports at these nets, before the first phase.
pub fn ports_at(alloc: Global, nets: Seq<Net>) -> Result<PortLevels, NoMemory>
    ensures nets { IfOk result (λ ports. ports.nets ≡ nets) }
    ensures len { IfOk result (λ ports. length ports.levels.items ≡ length nets) }
{
    let levels = no_levels(alloc, nets.len())?;
    Ok(PortLevels { nets, levels })
}
