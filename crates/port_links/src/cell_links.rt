//! The links of the ports of a cell to its outputs in a phase, by its netlist, its rules, its flat circuit and its flat model.

ghost use Rattle.std.specs.Prelude.{◌≡◌, ◌<◌, length, IfOk};
ghost use Rattle.port_links.specs.PortLinks.{ArePortLinks};
ghost use Rattle.rule_index.specs.Tables.{AreRuleTables};
ghost use Rattle.vrt_model.specs.Circuits.{IsFlat};
ghost use Rattle.vrt_model.specs.Comparison.{cell_at, phase_at};
ghost use Rattle.vrt_model.specs.FlatModels.{IsFlatModel};
ghost use Rattle.vrt_model.specs.PairedPorts.{HasRoles};

use crate::links::{PortLink, phase_links};
use crate::named::named_ports;
use phase_ports::ports_by;
use rule_index::RuleIndex;
use std::alloc::Global;
use vrt_model::{Cell, Circuit, Design, FlatModel, NoMemory, Pairing, Phase, Rules, Seq};

/// A cell by its number.
fn cell_of(design: &Design, cell: u32) -> &Cell
    requires { cell < length design.now.cells }
    ensures { result.now ≡ cell_at design.entry.now cell }
{
    &design.cells.as_slice()[cell as usize]
}

/// A phase by its number.
fn phase_of(rules: &Rules, phase: u32) -> &Phase
    requires { phase < length rules.now.phases }
    ensures { result.now ≡ phase_at rules.entry.now phase }
{
    &rules.phases.as_slice()[phase as usize]
}

/// The links of the ports of a cell without whole instances to its outputs in a phase, by the places of the ports, each once
/// for each output.
pub fn port_links(
    alloc: Global,
    index: &RuleIndex,
    design: &Design,
    rules: &Rules,
    cell: u32,
    circuit: &Circuit,
    pairing: &Pairing,
    model: &FlatModel,
    phase: u32,
) -> Result<Seq<PortLink>, NoMemory>
    requires tables { AreRuleTables rules.now index.now }
    requires cell { cell < length design.now.cells }
    requires roles { HasRoles rules.now (cell_at design.now cell) pairing.now }
    requires phase { phase < length rules.now.phases }
    requires flat { IsFlat circuit.now }
    requires model { IsFlatModel model.now }
    ensures { IfOk result (λ links. ArePortLinks design.now rules.now cell circuit.now pairing.now model.now phase links) }
{
    let own = cell_of(design, cell);
    let bits = phase_of(rules, phase);
    let named = named_ports(alloc, index, rules, own, phase)?;
    let marks = named.as_slice();
    let roles = pairing.ports.as_slice();
    let list = ports_by(alloc, roles)?;
    let ports = list.as_slice();
    let links = phase_links(alloc, circuit, bits, model, marks, ports)?;
    Ok(links)
}
