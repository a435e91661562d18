//! The rules of what a line says, by groups of first words.

ghost use Rattle.std.specs.Prelude.{◌≡◌, ℕ, List, Some, OnOk};
ghost use Rattle.rules_reader.specs.Built.{Adds, on_cells, on_clocks, on_devices, on_latches, on_phases};

use crate::circuit_rules::{
    add_device, add_hold, add_instance_match, add_keepers, add_match, add_pair, add_port,
    add_strength, add_supplies,
};
use crate::clocked_rules::{
    add_assume, add_clockport, add_defaultclock, add_enter, add_observe, add_phase,
};
use names::Names;
use rules_lines::Entry;
use std::alloc::Global;
use vrt_model::{NoMemory, Rules, Text};

/// Adds the rules of a line on supplies or devices, and none of any other.
fn add_on_devices(
    alloc: Global,
    rules: &mut Rules,
    line: u32,
    entry: &Entry,
) -> Result<(), NoMemory>
    ensures { (clocks phases : List (List ℕ)) → OnOk result (Adds clocks phases line (on_devices entry.now) rules.old rules.new) }
{
    match entry {
        Entry::SupplyLine { value, nets } => {
            add_supplies(alloc, &mut rules.supplies, line, *value, nets)
        }
        Entry::DeviceLine { model, kind, level } => {
            let level = level.at(rules.scale);
            add_device(alloc, &mut rules.devices, line, model, *kind, level)
        }
        Entry::StrengthLine {
            cell,
            device,
            level,
        } => {
            let level = level.at(rules.scale);
            add_strength(alloc, &mut rules.strengths, line, cell, device, level)
        }
        Entry::KeeperLine { cell, devices } => {
            add_keepers(alloc, &mut rules.keepers, line, cell, devices)
        }
        _ => Ok(()),
    }
}

/// Adds the rule of a line on a cell's model, ports or held nets, and none of any other.
fn add_on_cells(alloc: Global, rules: &mut Rules, line: u32, entry: &Entry) -> Result<(), NoMemory>
    ensures { (clocks phases : List (List ℕ)) → OnOk result (Adds clocks phases line (on_cells entry.now) rules.old rules.new) }
{
    match entry {
        Entry::PairLine { cell, model } => add_pair(alloc, &mut rules.pairs, line, cell, model),
        Entry::PortLine { cell, port, signal } => {
            add_port(alloc, &mut rules.ports, line, cell, port, signal)
        }
        Entry::HoldLine { cell, net, size } => {
            let size = size.at(rules.scale);
            add_hold(alloc, &mut rules.holds, line, cell, net, size)
        }
        _ => Ok(()),
    }
}

/// Adds the rule of a line on a latch, and none of any other.
fn add_on_latches(
    alloc: Global,
    rules: &mut Rules,
    line: u32,
    entry: &Entry,
) -> Result<(), NoMemory>
    ensures { (clocks phases : List (List ℕ)) → OnOk result (Adds clocks phases line (on_latches entry.now) rules.old rules.new) }
{
    match entry {
        Entry::MatchLine { cell, net, latch } => {
            add_match(alloc, &mut rules.matches, line, cell, net, latch)
        }
        Entry::InstanceMatchLine {
            cell,
            instance,
            inner,
            latch,
        } => add_instance_match(
            alloc,
            &mut rules.instance_matches,
            line,
            cell,
            instance,
            inner,
            latch,
        ),
        _ => Ok(()),
    }
}

/// Adds the rule of a line on clocks, and none of any other.
fn add_on_clocks(
    alloc: Global,
    clocks: &Names,
    clock_names: &[Text],
    rules: &mut Rules,
    line: u32,
    entry: &Entry,
) -> Result<(), NoMemory>
    requires { clock_names.now ≡ clocks.now }
    ensures { (phases : List (List ℕ)) → OnOk result (Adds clocks.now phases line (on_clocks entry.now) rules.old rules.new) }
{
    match entry {
        Entry::PhaseLine { name, bits } => {
            let phases = &mut rules.phases;
            add_phase(alloc, phases, line, clock_names, name, bits.as_slice())
        }
        Entry::ClockportLine { cell, port, clock } => {
            let ports = &mut rules.clockports;
            add_clockport(alloc, ports, line, clocks, cell, port, clock)
        }
        Entry::DefaultclockLine { clock } => {
            add_defaultclock(&mut rules.defaultclocks, line, clocks, clock)
        }
        _ => Ok(()),
    }
}

/// Adds the rule of a line on a phase, and none of any other.
fn add_on_phases(
    alloc: Global,
    phases: &Names,
    rules: &mut Rules,
    line: u32,
    entry: &Entry,
) -> Result<(), NoMemory>
    ensures { (clocks : List (List ℕ)) → OnOk result (Adds clocks phases.now line (on_phases entry.now) rules.old rules.new) }
{
    match entry {
        Entry::EnterLine {
            cell,
            phase,
            net,
            bit,
        } => {
            let enters = &mut rules.enters;
            add_enter(alloc, enters, line, phases, cell, phase, net, *bit)
        }
        Entry::ObserveLine {
            cell,
            port,
            phases: named,
        } => {
            let observes = &mut rules.observes;
            add_observe(alloc, observes, line, phases, cell, port, named)
        }
        Entry::AssumeLine {
            cell,
            phase,
            tokens,
        } => {
            let assumes = &mut rules.assumes;
            add_assume(alloc, assumes, line, phases, cell, phase, tokens)
        }
        _ => Ok(()),
    }
}

/// Adds the rules of a line.
pub fn add_entry(
    alloc: Global,
    clocks: &Names,
    clock_names: &[Text],
    phases: &Names,
    rules: &mut Rules,
    line: u32,
    entry: &Entry,
) -> Result<(), NoMemory>
    requires { clock_names.now ≡ clocks.now }
    ensures { OnOk result (Adds clocks.now phases.now line (Some entry.now) rules.old rules.new) }
{
    match entry {
        Entry::ScaleLine { .. } => Ok(()),
        Entry::ClockLine { .. } => Ok(()),
        Entry::SupplyLine { .. }
        | Entry::DeviceLine { .. }
        | Entry::StrengthLine { .. }
        | Entry::KeeperLine { .. } => add_on_devices(alloc, rules, line, entry),
        Entry::PairLine { .. } | Entry::PortLine { .. } | Entry::HoldLine { .. } => {
            add_on_cells(alloc, rules, line, entry)
        }
        Entry::MatchLine { .. } | Entry::InstanceMatchLine { .. } => {
            add_on_latches(alloc, rules, line, entry)
        }
        Entry::PhaseLine { .. } | Entry::ClockportLine { .. } | Entry::DefaultclockLine { .. } => {
            add_on_clocks(alloc, clocks, clock_names, rules, line, entry)
        }
        Entry::EnterLine { .. } | Entry::ObserveLine { .. } | Entry::AssumeLine { .. } => {
            add_on_phases(alloc, phases, rules, line, entry)
        }
    }
}
