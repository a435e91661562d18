//! The constraints of an instance's cell as a function: its assumptions, and the clocks of its ports.

ghost use Rattle.std.specs.Prelude.{◌≡◌, ℕ, ◌+◌, ◌*◌, ◌<◌, ◌&&◌, ◌↔◌, All, Bool, Option, false, length, bytes_eq, sum_by};
ghost use Rattle.bdd_core.specs.Diagram.{Valuation};
ghost use Rattle.bdd_core.specs.Store.{IsLive, IsSpan, function_of, Gives};
ghost use Rattle.bdd_core.specs.Words.{IsFilled};
ghost use Rattle.bdd_ops.specs.Counting.{Counts, IsSpanWithin};
ghost use Rattle.constraints.specs.Handles.{HasHandles, handle_in};
ghost use Rattle.constraints.specs.Obliged.{AddsTest, AreNamed, HasPortBits, all_hold, clock_holds, clock_operations, obligation_size, obliged_at};
ghost use Rattle.vrt_model.specs.Comparison.{cell_at};
ghost use Rattle.vrt_model.specs.Faults.{BreaksConstraint};
ghost use Rattle.vrt_model.specs.Inputs.{AllApart, AreRules};
ghost use Rattle.vrt_model.specs.declared.ids.Net.{Net as NetValue};

use crate::assumptions::add_assumptions;
use crate::bits::add_bit;
use crate::cells::{cell_name, cell_ports, phase_bits};
use crate::ports::{Ports, clock_in, handle_of};
use bdd_core::{H, ONE, Spent, Store};
use node_pool::Span;
use vrt_model::{ClockportRule, Design, FlatInstance, Rules};

/// Whether a `clockport` line is for a cell.
pub(crate) fn is_of(rule: &ClockportRule, cell: &[u8]) -> bool
    ensures { result ≡ bytes_eq rule.now.cell cell.now }
{
    rule.cell.as_bytes() == cell
}

/// A function, where besides the port of a `clockport` line has its clock's bit, if the line is for this cell.
fn add_clock(
    store: &mut Store,
    rule: &ClockportRule,
    cell: &[u8],
    bits: &[bool],
    ports: Ports<'_>,
    all: H,
) -> Result<H, Spent>
    requires handles { HasHandles store.old ports }
    requires all { IsLive store.old all }
    ensures { AddsTest (handle_in store.old.words ports.entry) (clock_operations cell.now rule.now) (function_of store.old all) (clock_holds store.old (handle_in store.old.words ports.entry) cell.now bits.now rule.now) store.old store.new result }
{
    store.sound();
    if !is_of(rule, cell) {
        return Ok(all);
    }
    let port = handle_of(store, ports, rule.port.as_bytes());
    add_bit(store, clock_in(bits, rule.clock), port, all)
}

/// A function, where besides each port of a cell with a `clockport` line has its clock's bit.
fn add_clocks(
    store: &mut Store,
    rules: &[ClockportRule],
    cell: &[u8],
    bits: &[bool],
    ports: Ports<'_>,
    start: H,
) -> Result<H, Spent>
    requires handles { HasHandles store.old ports }
    requires start { IsLive store.old start }
    ensures { AddsTest (handle_in store.old.words ports.entry) (sum_by (clock_operations cell.now) rules.now) (function_of store.old start) (all_hold (clock_holds store.old (handle_in store.old.words ports.entry) cell.now bits.now) rules.now) store.old store.new result }
{
    store.sound();
    let mut all = start;
    let mut rest = rules;
    'rules: while let Some((rule, behind)) = rest.split_first() {
        all = match add_clock(store, rule, cell, bits, ports, all) {
            Ok(all) => all,
            Err(spent) => return Err(spent),
        };
        rest = behind;
    }
    Ok(all)
}

/// Where the constraints of an instance's cell hold in a phase: each of its `assume` lines, and each port with a
/// `clockport` line has its clock's bit. `values` has a handle for each net of the circuit. By solutions with these bits,
/// it is 0 exactly where the fault Constraint stands at the instance.
///
/// Handles from before keep their functions and no word changes, also after `Spent`, which has the budget and comes only
/// where as many nodes are there. Where the handles read only the first `u` variables, at most `2 ^ u * 20 * s` nodes
/// are added, for `s` operators and names of these lines, clock ports among them, and they test these variables. `Spent`
/// comes only where the budget is less than all of these with the nodes that were there; and, where `u` is at most 4 and
/// the nodes that were there test the first four variables, only where the budget is less than 65,536.
pub fn obligation(
    store: &mut Store,
    design: &Design,
    rules: &Rules,
    instance: &FlatInstance,
    phase: u32,
    values: Span,
) -> Result<H, Spent>
    requires rules { AreRules rules.now }
    requires ports { AllApart bytes_eq (cell_at design.now instance.now.cell).ports }
    requires named { AreNamed rules.now (cell_at design.now instance.now.cell) }
    requires nets { All (λ (net : NetValue). net.0 < values.len) instance.now.ports }
    requires all_ports { length instance.now.ports ≡ length (cell_at design.now instance.now.cell).ports }
    requires span { IsSpan store.old values }
    requires live { IsFilled store.old values }
    ensures gives { Gives store.old store.new (obliged_at store.old design.now rules.now instance.now phase values) result }
    ensures exact { (v : Valuation) (a : ℕ → Option Bool) → HasPortBits store.old values instance.now.ports v a → (obliged_at store.old design.now rules.now instance.now phase values v ≡ false) ↔ BreaksConstraint design.now rules.now phase a instance.now }
    ensures counts { (u : ℕ) → IsSpanWithin u store.old values → Counts u (20 * obligation_size design.now rules.now instance.now phase) store.old store.new result }
{
    store.sound();
    let ports = Ports::Tied {
        names: cell_ports(design, instance.cell),
        nets: instance.ports.as_slice(),
        values,
    };
    let cell = cell_name(design, instance.cell);
    let assumed = match add_assumptions(store, rules.assumes.as_slice(), cell, phase, ports, ONE) {
        Ok(assumed) => assumed,
        Err(spent) => return Err(spent),
    };
    let bits = phase_bits(rules, phase);
    add_clocks(
        store,
        rules.clockports.as_slice(),
        cell,
        bits,
        ports,
        assumed,
    )
}
