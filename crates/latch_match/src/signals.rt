//! Which ports pair with the signals of a model, and which signals carry clocks.

ghost use Rattle.std.specs.Prelude.{◌≡◌, ◌≤◌, ◌++◌, ◌∷◌, [], not, map, filter, filter_map, length, IfOk, OnOk};
ghost use Rattle.std.specs.List.{cons_option};
ghost use Rattle.vrt_model.specs.Lists.{place_of};
ghost use Rattle.vrt_model.specs.PairedPorts.{clocked_by_name, interface};
ghost use Rattle.latch_match.specs.Facts.{clock_carried, signal_paired};
ghost use Rattle.latch_match.specs.Looked.{facts_in};
ghost use Rattle.latch_match.specs.Marked.{AreCounts, has_in};
ghost use Rattle.latch_match.specs.Paired.{ArePaired, IsBlank, IsSetOf, carriers, clocked_without_port, interface_by};
ghost use Rattle.rule_index.specs.Tables.{AreRuleTables};

use crate::counts::{Counts, count_all};
use crate::facts::PortFacts;
use crate::lookups::{Lookups, facts_of};
use crate::lower_names::signal_name;
use crate::numbers::NumberSet;
use rule_index::{FirstValues, RuleIndex};
use std::alloc::Global;
use vrt_model::{Cell, ClockRef, ClockedSignal, FlatModel, NoMemory, Rules, Seq, Text};

/// What is known of the ports of a cell and the signals of a model: the tables of the cell, what is said of each port, the
/// interface, its outputs, the signals that ports pair with, and those that carry clocks.
pub(crate) struct Paired {
    lookups: Lookups,
    pub(crate) facts: Seq<PortFacts>,
    pub(crate) interface: Seq<u32>,
    pub(crate) outputs: NumberSet,
    pub(crate) counts: Counts,
    pub(crate) clocked: Seq<ClockedSignal>,
    pub(crate) carriers: NumberSet,
}

/// By hand, so that letting go of one is a call.
impl Drop for Paired {
    fn drop(self) {
        let Paired {
            lookups: _lookups,
            facts: _facts,
            interface: _interface,
            outputs: _outputs,
            counts: _counts,
            clocked: _clocked,
            carriers: _carriers,
        } = self;
    }
}

/// Adds an item, if there is one.
pub(crate) fn add_some<T: Copy>(list: &mut Seq<T>, item: Option<T>) -> Result<(), NoMemory>
    ensures { OnOk result (list.new ≡ list.old ++ cons_option item []) }
{
    let Some(item) = item else {
        return Ok(());
    };
    match list.push(item) {
        Ok(()) => Ok(()),
        Err(_) => Err(NoMemory),
    }
}

/// Adds numbers.
#[tactic(auto, using(vrt_model::proofs::Lists::pushed))]
fn add_all(list: &mut Seq<u32>, numbers: &[u32]) -> Result<(), NoMemory>
    ensures { OnOk result (list.new ≡ list.old ++ numbers.now) }
{
    let mut rest = numbers;
    'numbers: while let Some((number, behind)) = rest.split_first() {
        add_some(list, Some(*number))?;
        rest = behind;
    }
    Ok(())
}

/// A number that is not in a set.
fn outside(set: &NumberSet, number: u32) -> Option<u32>
    ensures { cons_option result [] ≡ filter (λ n. not (has_in set.now n)) (number ∷ []) }
{
    if set.contains(number) {
        None
    } else {
        Some(number)
    }
}

/// Adds the numbers that are not in a set.
#[tactic(auto, using(vrt_model::proofs::Lists::chosen))]
fn add_others(list: &mut Seq<u32>, set: &NumberSet, numbers: &[u32]) -> Result<(), NoMemory>
    ensures { OnOk result (list.new ≡ list.old ++ filter (λ n. not (has_in set.now n)) numbers.now) }
{
    let mut rest = numbers;
    'numbers: while let Some((number, behind)) = rest.split_first() {
        add_some(list, outside(set, *number))?;
        rest = behind;
    }
    Ok(())
}

/// Adds the numbers of a list to a set; there is room for those below a limit.
fn add_numbers(set: &mut NumberSet, limit: usize, numbers: &[u32]) -> Result<(), NoMemory>
    requires { IsSetOf [] set.old }
    ensures { OnOk result (IsSetOf numbers.now set.new) }
{
    set.make_room(limit)?;
    set.add_all(numbers)?;
    Ok(())
}

/// Adds the interface, by a set of the inputs and clocks.
fn add_interface_by(
    list: &mut Seq<u32>,
    flat: &FlatModel,
    inputs: &NumberSet,
) -> Result<(), NoMemory>
    requires { list.old ≡ [] }
    ensures { OnOk result (list.new ≡ interface_by flat.now (has_in inputs.now)) }
{
    add_all(list, flat.inputs.as_slice())?;
    add_all(list, flat.clocks.as_slice())?;
    add_others(list, inputs, flat.outputs.as_slice())?;
    Ok(())
}

/// Adds the inputs and clocks.
fn add_inputs(set: &mut NumberSet, flat: &FlatModel) -> Result<(), NoMemory>
    requires { IsSetOf [] set.old }
    ensures { OnOk result (IsSetOf (flat.now.inputs ++ flat.now.clocks) set.new) }
{
    set.make_room(flat.signals.len())?;
    set.add_all(flat.inputs.as_slice())?;
    set.add_all(flat.clocks.as_slice())?;
    Ok(())
}

/// Adds the interface.
fn add_interface(alloc: Global, list: &mut Seq<u32>, flat: &FlatModel) -> Result<(), NoMemory>
    requires { list.old ≡ [] }
    ensures { OnOk result (list.new ≡ interface flat.now) }
{
    let mut inputs = NumberSet::new(alloc);
    add_inputs(&mut inputs, flat)?;
    add_interface_by(list, flat, &inputs)?;
    Ok(())
}

/// Adds what the supplies and the tables say of ports.
fn add_facts_by(
    facts: &mut Seq<PortFacts>,
    supplies: &FirstValues<bool>,
    lookups: &Lookups,
    ports: &[Text],
) -> Result<(), NoMemory>
    requires { facts.old ≡ [] }
    ensures { OnOk result (facts.new ≡ map (facts_in supplies.now lookups.now) ports.now) }
{
    for port in ports {
        add_some(facts, Some(facts_of(supplies, lookups, port.as_bytes())))?;
    }
    Ok(())
}

/// Adds the signals that ports pair with.
#[tactic(auto, using(vrt_model::proofs::Lists::pushed))]
fn add_paired(list: &mut Seq<u32>, facts: &[PortFacts]) -> Result<(), NoMemory>
    requires { list.old ≡ [] }
    ensures { OnOk result (list.new ≡ filter_map signal_paired facts.now) }
{
    let mut rest = facts;
    'facts: while let Some((port, behind)) = rest.split_first() {
        add_some(list, port.paired())?;
        rest = behind;
    }
    Ok(())
}

/// Counts the signals that ports pair with.
fn count_paired(
    alloc: Global,
    counts: &mut Counts,
    limit: usize,
    facts: &[PortFacts],
) -> Result<(), NoMemory>
    requires { AreCounts [] counts.old }
    ensures { OnOk result (AreCounts (filter_map signal_paired facts.now) counts.new) }
{
    let mut signals = Seq::new(alloc);
    add_paired(&mut signals, facts)?;
    count_all(counts, limit, signals.as_slice())?;
    Ok(())
}

/// Adds the clocks that ports give their signals.
#[tactic(auto, using(vrt_model::proofs::Lists::pushed))]
fn add_clocked_ports(list: &mut Seq<ClockedSignal>, facts: &[PortFacts]) -> Result<(), NoMemory>
    ensures { OnOk result (list.new ≡ list.old ++ filter_map clock_carried facts.now) }
{
    let mut rest = facts;
    'facts: while let Some((port, behind)) = rest.split_first() {
        add_some(list, port.clocked())?;
        rest = behind;
    }
    Ok(())
}

/// The place of a name.
fn place_of(names: &[Text], name: &[u8]) -> Option<usize>
    ensures { result ≡ place_of names.now name.now }
{
    names.iter().position(|other| name == other.as_bytes())
}

/// The number of the clock of a name.
fn clock_of(rules: &Rules, name: &[u8]) -> Option<u32>
    requires { length rules.now.clocks ≤ 16 }
    ensures { result ≡ place_of rules.now.clocks name.now }
{
    match place_of(rules.clocks.as_slice(), name) {
        Some(place) => Some(place as u32),
        None => None,
    }
}

/// The clock that a signal carries by its name.
fn clocked_by_name(flat: &FlatModel, rules: &Rules, signal: u32) -> Option<ClockedSignal>
    requires { length rules.now.clocks ≤ 16 }
    ensures { result ≡ clocked_by_name flat.now rules.now signal }
{
    let clock = clock_of(rules, signal_name(flat, signal))?;
    let clock = ClockRef {
        clock,
        inverted: false,
    };
    Some(ClockedSignal { signal, clock })
}

/// The clock that a signal carries by its name, where no port pairs with it.
fn clocked_without_port(
    flat: &FlatModel,
    rules: &Rules,
    paired: &NumberSet,
    signal: u32,
) -> Option<ClockedSignal>
    requires { length rules.now.clocks ≤ 16 }
    ensures { cons_option result [] ≡ clocked_without_port flat.now rules.now (has_in paired.now) (signal ∷ []) }
{
    if paired.contains(signal) {
        None
    } else {
        clocked_by_name(flat, rules, signal)
    }
}

/// Adds the clocks that signals without port carry by their names.
#[tactic(auto, using(vrt_model::proofs::Lists::pushed))]
fn add_clocked_signals(
    list: &mut Seq<ClockedSignal>,
    flat: &FlatModel,
    rules: &Rules,
    paired: &NumberSet,
    signals: &[u32],
) -> Result<(), NoMemory>
    requires { length rules.now.clocks ≤ 16 }
    ensures { OnOk result (list.new ≡ list.old ++ clocked_without_port flat.now rules.now (has_in paired.now) signals.now) }
{
    let mut rest = signals;
    'signals: while let Some((signal, behind)) = rest.split_first() {
        add_some(list, clocked_without_port(flat, rules, paired, *signal))?;
        rest = behind;
    }
    Ok(())
}

/// Adds the signals that carry clocks.
fn add_clocked(
    list: &mut Seq<ClockedSignal>,
    flat: &FlatModel,
    rules: &Rules,
    facts: &[PortFacts],
    paired: &NumberSet,
) -> Result<(), NoMemory>
    requires few { length rules.now.clocks ≤ 16 }
    requires empty { list.old ≡ [] }
    ensures { OnOk result (list.new ≡ filter_map clock_carried facts.now ++ clocked_without_port flat.now rules.now (has_in paired.now) (flat.now.inputs ++ flat.now.clocks)) }
{
    add_clocked_ports(list, facts)?;
    add_clocked_signals(list, flat, rules, paired, flat.inputs.as_slice())?;
    add_clocked_signals(list, flat, rules, paired, flat.clocks.as_slice())?;
    Ok(())
}

/// Adds the signals of a list that carry clocks; there is room for those below a limit.
fn add_carriers(
    set: &mut NumberSet,
    limit: usize,
    clocked: &[ClockedSignal],
) -> Result<(), NoMemory>
    requires { IsSetOf [] set.old }
    ensures { OnOk result (IsSetOf (carriers clocked.now) set.new) }
{
    set.make_room(limit)?;
    let mut rest = clocked;
    'clocked: while let Some((one, behind)) = rest.split_first() {
        set.add(one.signal)?;
        rest = behind;
    }
    Ok(())
}

impl Paired {
    /// With nothing known. It takes no memory.
    fn new(alloc: Global) -> Self
        ensures { IsBlank result }
    {
        Paired {
            lookups: Lookups::new(alloc),
            facts: Seq::new(alloc),
            interface: Seq::new(alloc),
            outputs: NumberSet::new(alloc),
            counts: Counts::new(alloc),
            clocked: Seq::new(alloc),
            carriers: NumberSet::new(alloc),
        }
    }

    /// Adds what is known of the ports of a cell and the signals of a model, where nothing is known yet.
    fn fill(
        &mut self,
        alloc: Global,
        flat: &FlatModel,
        rules: &Rules,
        index: &RuleIndex,
        cell: &Cell,
    ) -> Result<(), NoMemory>
        requires few { length rules.now.clocks ≤ 16 }
        requires tables { AreRuleTables rules.now index.now }
        requires blank { IsBlank self.old }
        ensures { OnOk result (ArePaired flat.now rules.now cell.now self.new) }
    {
        let limit = flat.signals.len();
        add_interface(alloc, &mut self.interface, flat)?;
        let lines = &index.lines.ports;
        let signals = self.interface.as_slice();
        self.lookups
            .fill(flat, rules, lines, cell.name.as_bytes(), signals)?;
        let ports = cell.ports.as_slice();
        add_facts_by(&mut self.facts, &index.supplies, &self.lookups, ports)?;
        let facts = self.facts.as_slice();
        count_paired(alloc, &mut self.counts, limit, facts)?;
        add_clocked(&mut self.clocked, flat, rules, facts, &self.counts.once)?;
        add_carriers(&mut self.carriers, limit, self.clocked.as_slice())?;
        add_numbers(&mut self.outputs, limit, flat.outputs.as_slice())?;
        Ok(())
    }
}

/// What is known of the ports of a cell and the signals of a model.
pub(crate) fn paired_of(
    alloc: Global,
    flat: &FlatModel,
    rules: &Rules,
    index: &RuleIndex,
    cell: &Cell,
) -> Result<Paired, NoMemory>
    requires few { length rules.now.clocks ≤ 16 }
    requires tables { AreRuleTables rules.now index.now }
    ensures { IfOk result (ArePaired flat.now rules.now cell.now) }
{
    let mut paired = Paired::new(alloc);
    paired.fill(alloc, flat, rules, index, cell)?;
    Ok(paired)
}
