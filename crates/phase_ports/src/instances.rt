//! The ports of instances whose cells have an `assume` or a `clockport` line.

ghost use Rattle.std.specs.Prelude.{◌≡◌, ◌<◌, ◌||◌, ℕ, All, length};
ghost use Rattle.phase_ports.specs.Observed.{has_constrained, has_port};
ghost use Rattle.rule_index.specs.Tables.{AreRuleTables};
ghost use Rattle.vrt_model.specs.CellRules.{is_constrained};
ghost use Rattle.vrt_model.specs.Comparison.{cell_at};
ghost use Rattle.vrt_model.specs.Lists.{mark_at};
ghost use Rattle.vrt_model.specs.declared.circuit.FlatInstance.{FlatInstance as InstanceValue};
ghost use Rattle.vrt_model.specs.declared.ids.Net.{Net as NetValue};
ghost use Rattle.vrt_model.specs.declared.rules.Rules.{Rules as RulesValue};

use crate::marks::mark_nets;
use rule_index::RuleIndex;
use vrt_model::{Design, FlatInstance};

/// One of two bits.
fn either(left: bool, right: bool) -> bool
    ensures { result ≡ (left || right) }
{
    left || right
}

/// The name of a cell by its number, empty where there is none.
fn name_of(design: &Design, cell: u32) -> &[u8]
    ensures { result.now ≡ (cell_at design.entry.now cell).name }
{
    match design.cells.get(cell as usize) {
        Some(own) => own.name.as_bytes(),
        None => &[],
    }
}

/// Whether a cell has an `assume` or a `clockport` line: only whether it is in the index of such lines is looked up.
fn is_constrained(index: &RuleIndex, cell: &[u8]) -> bool
    ensures { (rules : RulesValue) → AreRuleTables rules index.now → result ≡ is_constrained rules cell.now }
{
    let lines = &index.lines.ports;
    let assumed = !lines.assumes.places(cell).is_empty();
    let clocked = !lines.clockports.places(cell).is_empty();
    either(assumed, clocked)
}

/// Marks the ports of an instance, where its cell has an `assume` or a `clockport` line.
fn mark_instance(marks: &mut Vec<bool>, index: &RuleIndex, design: &Design, instance: &FlatInstance)
    requires { All (λ (m : NetValue). m.0 < length marks.old.items) instance.now.ports }
    ensures len { length marks.new.items ≡ length marks.old.items }
    ensures is { (rules : RulesValue) → AreRuleTables rules index.now → (n : ℕ) → mark_at marks.new.items n ≡ (mark_at marks.old.items n || has_port design.now rules n instance.now) }
{
    if is_constrained(index, name_of(design, instance.cell)) {
        mark_nets(marks, instance.ports.as_slice());
    }
}

/// Marks the ports of those instances whose cell has an `assume` or a `clockport` line.
pub(crate) fn mark_instances(
    marks: &mut Vec<bool>,
    index: &RuleIndex,
    design: &Design,
    instances: &[FlatInstance],
)
    requires { All (λ (i : InstanceValue). All (λ (m : NetValue). m.0 < length marks.old.items) i.ports) instances.now }
    ensures len { length marks.new.items ≡ length marks.old.items }
    ensures is { (rules : RulesValue) → AreRuleTables rules index.now → (n : ℕ) → mark_at marks.new.items n ≡ (mark_at marks.old.items n || has_constrained design.now rules instances.now n) }
{
    for instance in instances {
        mark_instance(marks, index, design, instance);
    }
}
