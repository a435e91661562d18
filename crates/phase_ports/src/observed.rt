//! The nets that are observed in a phase.

ghost use Rattle.std.specs.Prelude.{◌≡◌, ◌<◌, ℕ, All, IfOk, false, length, replicate};
ghost use Rattle.phase_ports.specs.Comparisons.{AreMarksOf, AreMarksWith, ArePortsWithin};
ghost use Rattle.phase_ports.specs.Observed.{has_any};
ghost use Rattle.rule_index.specs.Tables.{AreRuleTables};
ghost use Rattle.vrt_model.specs.Circuits.{IsCircuit};
ghost use Rattle.vrt_model.specs.Comparison.{cell_at};
ghost use Rattle.vrt_model.specs.Lists.{mark_at};
ghost use Rattle.vrt_model.specs.PairedPorts.{HasRoles};
ghost use Rattle.phase_wishes.specs.declared.wishes.Wish.{Wish as WishValue};
ghost use Rattle.vrt_model.specs.declared.rules.Rules.{Rules as RulesValue};

use crate::instances::mark_instances;
use crate::marks::{mark_gates, mark_holds, mark_wholes, mark_wishes, no_marks};
use crate::outputs::output_wishes;
use phase_wishes::Wish;
use rule_index::RuleIndex;
use std::alloc::Global;
use vrt_model::{Circuit, Design, NoMemory, Pairing, Rules};

/// Marks the nets of the circuit that are observed, where these wishes are what the output ports ought to have.
fn mark_all(
    marks: &mut Vec<bool>,
    index: &RuleIndex,
    design: &Design,
    circuit: &Circuit,
    outputs: &[Wish],
)
    requires none { marks.old.items ≡ replicate (length circuit.now.nets) false }
    requires circuit { IsCircuit circuit.now }
    requires outputs { All (λ (w : WishValue). w.net.0 < length circuit.now.nets) outputs.now }
    ensures len { length marks.new.items ≡ length circuit.now.nets }
    ensures is { (rules : RulesValue) → AreRuleTables rules index.now → (n : ℕ) → mark_at marks.new.items n ≡ has_any design.now rules circuit.now outputs.now n }
{
    mark_gates(marks, circuit.devices.as_slice());
    mark_holds(marks, circuit.holds.as_slice());
    mark_wishes(marks, outputs);
    mark_instances(marks, index, design, circuit.instances.as_slice());
    mark_wholes(marks, circuit.wholes.as_slice());
}

/// Whether each net of a circuit is observed in a phase in which these wishes are what the output ports ought to have: a
/// mark for each net, in the order of the nets. The index is that of the rules.
pub fn marked_nets(
    alloc: Global,
    index: &RuleIndex,
    design: &Design,
    circuit: &Circuit,
    outputs: &[Wish],
) -> Result<Vec<bool>, NoMemory>
    requires circuit { IsCircuit circuit.now }
    requires outputs { All (λ (w : WishValue). w.net.0 < length circuit.now.nets) outputs.now }
    ensures len { IfOk result (λ marks. length marks.items ≡ length circuit.now.nets) }
    ensures is { IfOk result (λ marks. (rules : RulesValue) → AreRuleTables rules index.now → AreMarksWith design.now rules circuit.now outputs.now marks.items) }
{
    let mut marks = no_marks(alloc, circuit.nets.len())?;
    mark_all(&mut marks, index, design, circuit, outputs);
    Ok(marks)
}

/// Whether each net of a circuit is observed in a phase: a mark for each net, in the order of the nets. The gates of devices
/// are, keepers among them; the nets of holds; the output ports in the phases of their `observe` lines; the ports of each instance
/// whose cell has an `assume` or a `clockport` line; and the inputs of whole instances that are observed inside. Of the
/// rules only those of the cell and of the cells of its instances are looked at.
pub fn observed_nets(
    alloc: Global,
    index: &RuleIndex,
    design: &Design,
    rules: &Rules,
    cell: u32,
    circuit: &Circuit,
    pairing: &Pairing,
    phase: u32,
) -> Result<Vec<bool>, NoMemory>
    requires cell { cell < length design.now.cells }
    requires roles { HasRoles rules.now (cell_at design.now cell) pairing.now }
    requires tables { AreRuleTables rules.now index.now }
    requires circuit { IsCircuit circuit.now }
    requires ports { ArePortsWithin rules.now (cell_at design.now cell) circuit.now }
    ensures len { IfOk result (λ marks. length marks.items ≡ length circuit.now.nets) }
    ensures is { IfOk result (λ marks. AreMarksOf design.now rules.now cell circuit.now pairing.now phase marks.items) }
{
    let outputs = output_wishes(alloc, index, design, rules, cell, pairing, phase, &[])?;
    marked_nets(alloc, index, design, circuit, outputs.as_slice())
}
