//! The pairing of a cell with a model.

ghost use Rattle.std.specs.Prelude.{◌≡◌, ◌<◌, ◌≤◌, ◌⊎◌, ℕ, List, Option, length, MatchResult, filter_map, find, option_map, option_and_then, slice_get, IfOk, None};
ghost use Rattle.std.specs.Option.{option_copied, option_or};
ghost use Rattle.vrt_model.specs.Comparison.{cell_at};
ghost use Rattle.vrt_model.specs.Elements.{signal_name};
ghost use Rattle.rule_index.specs.Tables.{AreRuleTables};
ghost use Rattle.vrt_model.specs.declared.design.Design.{Design as DesignValue};
ghost use Rattle.latch_match.specs.Facts.{role_in};
ghost use Rattle.latch_match.specs.Marked.{has_in};
ghost use Rattle.latch_match.specs.Paired.{PairGives, Tells, output_in, port_in_way, signal_in_way, way_in};
ghost use Rattle.latch_match.specs.declared.faults.PairFault.TheVariants.{NoMemory as NoMemory', OutputIsInput as OutputIsInput', Ports as Ports'};

use crate::facts::PortFacts;
use crate::faults::PairFault;
use crate::lower_names::signal_name;
use crate::numbers::NumberSet;
use crate::signals::{Paired, add_some, paired_of};
use rule_index::{RuleIndex, index_of};
use std::alloc::Global;
use std::mem::replace;
use vrt_model::{Cell, Design, FlatModel, NoMemory, Pairing, PortRole, Rules, Seq, Text};

/// The place of the first port in the way.
fn port_in_way(paired: &Paired) -> Option<usize>
    ensures { result ≡ port_in_way paired.now }
{
    let facts = paired.facts.as_slice();
    let outputs = &paired.outputs;
    let shared = &paired.counts.again;
    facts
        .iter()
        .position(|port| port.is_in_way(outputs, shared))
}

/// The first signal in the way.
fn signal_in_way(paired: &Paired) -> Option<u32>
    ensures { result ≡ signal_in_way paired.now }
{
    let mut rest = paired.interface.as_slice();
    'signals: while let Some((signal, behind)) = rest.split_first() {
        if !paired.counts.once.contains(*signal) && !paired.carriers.contains(*signal) {
            return Some(*signal);
        }
        rest = behind;
    }
    None
}

/// The first of some signals that is an output.
fn first_output(signals: &[u32], outputs: &NumberSet) -> Option<u32>
    ensures { result ≡ find (has_in outputs.now) signals.now }
{
    let mut rest = signals;
    'signals: while let Some((signal, behind)) = rest.split_first() {
        if outputs.contains(*signal) {
            return Some(*signal);
        }
        rest = behind;
    }
    None
}

/// The first input or clock that is an output.
fn output_in_way(flat: &FlatModel, paired: &Paired) -> Option<u32>
    ensures { result ≡ option_or (find (has_in paired.now.outputs) flat.now.inputs) (find (has_in paired.now.outputs) flat.now.clocks) }
{
    match first_output(flat.inputs.as_slice(), &paired.outputs) {
        Some(signal) => Some(signal),
        None => first_output(flat.clocks.as_slice(), &paired.outputs),
    }
}

/// The name of the port at a place.
fn port_named(ports: &[Text], place: Option<usize>) -> Option<&[u8]>
    ensures { option_copied result ≡ option_and_then (slice_get ports.now) place }
{
    match ports.get(place?) {
        Some(port) => Some(port.as_bytes()),
        None => None,
    }
}

/// The name of a signal, if there is one.
fn signal_named(flat: &FlatModel, signal: Option<u32>) -> Option<&[u8]>
    ensures { option_copied result ≡ option_map (signal_name flat.now) signal }
{
    match signal {
        Some(signal) => Some(signal_name(flat, signal)),
        None => None,
    }
}

/// The name of the first port in the way, else of the first signal.
fn way_in<'a>(flat: &'a FlatModel, ports: &'a [Text], paired: &Paired) -> Option<&'a [u8]>
    ensures { option_copied result ≡ way_in flat.now ports.now paired.now }
{
    match port_named(ports, port_in_way(paired)) {
        Some(name) => Some(name),
        None => signal_named(flat, signal_in_way(paired)),
    }
}

/// The roles of the ports.
#[tactic(auto, using(vrt_model::proofs::Lists::pushed))]
fn roles_of(
    alloc: Global,
    facts: &[PortFacts],
    outputs: &NumberSet,
) -> Result<Seq<PortRole>, NoMemory>
    ensures { IfOk result (λ roles. roles ≡ filter_map (role_in (has_in outputs.now)) facts.now) }
{
    let mut roles = Seq::new(alloc);
    let mut rest = facts;
    'facts: while let Some((port, behind)) = rest.split_first() {
        add_some(&mut roles, port.role(outputs))?;
        rest = behind;
    }
    Ok(roles)
}

/// The fault that a port or a signal is in the way.
fn refused_ports(alloc: Global, name: &[u8]) -> PairFault
    ensures { (result ≡ NoMemory') ⊎ (result ≡ Ports' name.now) }
{
    match Text::from_bytes(alloc, name) {
        Ok(name) => PairFault::Ports { name },
        Err(_) => PairFault::NoMemory,
    }
}

/// The fault that an output is an input.
fn refused_output(alloc: Global, name: &[u8]) -> PairFault
    ensures { (result ≡ NoMemory') ⊎ (result ≡ OutputIsInput' name.now) }
{
    match Text::from_bytes(alloc, name) {
        Ok(signal) => PairFault::OutputIsInput { signal },
        Err(_) => PairFault::NoMemory,
    }
}

/// The fault of an output that is an input, where nothing is in the way.
fn output_fault(alloc: Global, flat: &FlatModel, paired: &Paired) -> Option<PairFault>
    ensures { (way : Option (List ℕ)) → way ≡ None → Tells way (output_in flat.now paired.now) result }
{
    match signal_named(flat, output_in_way(flat, paired)) {
        Some(name) => Some(refused_output(alloc, name)),
        None => None,
    }
}

/// The fault that stands, if one does.
fn fault_of(alloc: Global, flat: &FlatModel, ports: &[Text], paired: &Paired) -> Option<PairFault>
    ensures { Tells (way_in flat.now ports.now paired.now) (output_in flat.now paired.now) result }
{
    match way_in(flat, ports, paired) {
        Some(name) => Some(refused_ports(alloc, name)),
        None => output_fault(alloc, flat, paired),
    }
}

/// The pairing that is made of what is known. The signals that carry clocks are taken out of it.
fn pairing_by(alloc: Global, model: u32, paired: &mut Paired) -> Result<Pairing, PairFault>
    ensures { MatchResult result (λ p. p ≡ record { model = model; ports = filter_map (role_in (has_in paired.old.outputs)) paired.old.facts; clocked = paired.old.clocked }) (λ f. f ≡ NoMemory') }
{
    match roles_of(alloc, paired.facts.as_slice(), &paired.outputs) {
        Ok(ports) => {
            let clocked = replace(&mut paired.clocked, Seq::new(alloc));
            Ok(Pairing {
                model,
                ports,
                clocked,
            })
        }
        Err(_) => Err(PairFault::NoMemory),
    }
}

/// The pairing of a cell with a model.
fn pair_cell(
    alloc: Global,
    cell: &Cell,
    model: u32,
    flat: &FlatModel,
    rules: &Rules,
    index: &RuleIndex,
) -> Result<Pairing, PairFault>
    requires clocks { length rules.now.clocks ≤ 16 }
    requires tables { AreRuleTables rules.now index.now }
    ensures { (design : DesignValue) (number : ℕ) → cell.now ≡ cell_at design number → PairGives design number model flat.now rules.now result }
{
    let Ok(mut paired) = paired_of(alloc, flat, rules, index, cell) else {
        return Err(PairFault::NoMemory);
    };
    match fault_of(alloc, flat, cell.ports.as_slice(), &paired) {
        Some(fault) => Err(fault),
        None => pairing_by(alloc, model, &mut paired),
    }
}

/// The pairing of the ports of a cell, by the tables of the rules: the same as `pair_ports`, in time and memory in
/// proportion to the ports, the signals and the rules of this cell.
pub fn pair_ports_with(
    alloc: Global,
    index: &RuleIndex,
    cell: &Cell,
    model: u32,
    flat: &FlatModel,
    rules: &Rules,
) -> Result<Pairing, PairFault>
    requires tables { AreRuleTables rules.now index.now }
    requires clocks { length rules.now.clocks ≤ 16 }
    ensures { (design : DesignValue) (number : ℕ) → cell.now ≡ cell_at design number → PairGives design number model flat.now rules.now result }
{
    pair_cell(alloc, cell, model, flat, rules, index)
}

/// The pairing of the ports of a cell with the interface signals of a flat model. A port that is no supply pairs with
/// the signal that its `port` rule names, else with the first whose name in lower case is the port's. It is a clock by a
/// `clockport` rule, an output where it pairs with one, and an input else. An input or clock without port whose name is
/// a declared clock carries that clock. It refuses where a port or a signal is in the way, and else where an output is
/// an input. `model` is put into the pairing and not looked at. It takes time and memory in proportion to the ports, the
/// signals and the rules.
pub fn pair_ports(
    alloc: Global,
    design: &Design,
    cell: u32,
    model: u32,
    flat: &FlatModel,
    rules: &Rules,
) -> Result<Pairing, PairFault>
    requires cell { cell < length design.now.cells }
    requires clocks { length rules.now.clocks ≤ 16 }
    ensures { PairGives design.now cell model flat.now rules.now result }
{
    let cells = design.cells.as_slice();
    match index_of(alloc, design, rules) {
        Ok(index) => pair_ports_with(alloc, &index, &cells[cell as usize], model, flat, rules),
        Err(_) => Err(PairFault::NoMemory),
    }
}
