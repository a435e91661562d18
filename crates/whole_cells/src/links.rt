//! The links of the ports of a cell, for each phase.

ghost use Rattle.std.specs.Prelude.{◌≡◌, ◌<◌, ◌++◌, ◌∷◌, [], length, IfOk, OnOk};
ghost use Rattle.prepared_tables.specs.Prepared.{ArePrepared};
ghost use Rattle.port_links.specs.PortLinks.{ArePortLinks};
ghost use Rattle.whole_cells.specs.Links.{ArePhasesLinked};
ghost use Rattle.whole_cells.specs.Own.{AreFiles, IsOwn};
ghost use Rattle.rule_index.specs.Tables.{AreRuleTables};
ghost use Rattle.vrt_model.specs.Circuits.{IsFlat};
ghost use Rattle.vrt_model.specs.Comparison.{cell_at};
ghost use Rattle.vrt_model.specs.FlatModels.{IsFlatModel};
ghost use Rattle.vrt_model.specs.Inputs.{AreRules};
ghost use Rattle.vrt_model.specs.PairedPorts.{HasRoles};

use crate::own::Own;
use port_links::{PortLink, port_links};
use rule_index::RuleIndex;
use std::alloc::Global;
use vrt_model::{Design, NoMemory, Rules, Seq};

/// The links of the ports of a cell to its outputs, for each phase in their order.
pub(crate) fn all_links(
    alloc: Global,
    index: &RuleIndex,
    design: &Design,
    rules: &Rules,
    cell: u32,
    own: &Own,
) -> Result<Seq<Seq<PortLink>>, NoMemory>
    requires tables { AreRuleTables rules.now index.now }
    requires valid { AreRules rules.now }
    requires there { cell < length design.now.cells }
    requires roles { HasRoles rules.now (cell_at design.now cell) own.now.pairing }
    requires flat { IsFlat own.now.circuit }
    requires model { IsFlatModel own.now.model }
    ensures { IfOk result (ArePhasesLinked design.now rules.now cell own.now (length rules.now.phases)) }
{
    let mut all = Seq::new(alloc);
    for at in 0..rules.phases.len() {
        let links = port_links(
            alloc,
            index,
            design,
            rules,
            cell,
            &own.circuit,
            &own.pairing,
            &own.model,
            at as u32,
        )?;
        all.append(links)?;
    }
    Ok(all)
}
