//! What is looked up by the names of the ports of a cell, in tables.

ghost use Rattle.std.specs.Prelude.{◌≡◌, ◌++◌, ◌∷◌, ◌||◌, [], ℕ, List, map, filter_map, unwrap_or, OnOk};
ghost use Rattle.vrt_model.specs.Lists.{has_name};
ghost use Rattle.vrt_model.specs.Expressions.{names_in};
ghost use Rattle.vrt_model.specs.PairedPorts.{interface};
ghost use Rattle.rule_index.specs.Lines.{ArePortLines};
ghost use Rattle.latch_match.specs.Looked.{AreEmpty, AreLookups, Grows, assumed_at, by_lower_name, by_name, clock_at, facts_in, ruled_at};
ghost use Rattle.name_tables.specs.Tables.{IsTable, Named, first_value};
ghost use Rattle.std.specs.List.{list_any};

use crate::facts::PortFacts;
use crate::lower_names::signal_name;
use name_tables::NameTable;
use names::Names;
use rule_index::{FirstValues, PortLines, lowered_name, supply};
use std::alloc::Global;
use vrt_model::{
    AssumeRule, ClockRef, ClockportRule, Expr, FlatModel, NoMemory, PortRule, Rules, Seq,
};

/// The tables that the ports of one cell are looked up in: the interface signals by their names in lower case and as
/// they stand, the clocks and the signals that the cell's rules name, and the ports that its assumptions name.
#[derive(Drop)]
pub(crate) struct Lookups {
    alloc: Global,
    signals: NameTable<u32>,
    names: NameTable<u32>,
    clocks: NameTable<ClockRef>,
    ruled: NameTable<Option<u32>>,
    assumed: Names,
}

/// Adds signals under their names.
fn add_by_name(
    table: &mut NameTable<u32>,
    flat: &FlatModel,
    signals: &[u32],
) -> Result<(), NoMemory>
    requires { IsTable [] table.old }
    ensures { OnOk result (IsTable (map (by_name flat.now) signals.now) table.new) }
{
    for signal in signals {
        table.add(signal_name(flat, *signal), *signal)?;
    }
    Ok(())
}

/// Adds a signal under its name in lower case.
fn add_lowered(
    alloc: Global,
    table: &mut NameTable<u32>,
    flat: &FlatModel,
    signal: u32,
) -> Result<(), NoMemory>
    ensures { OnOk result ((entries : List (Named ℕ)) → IsTable entries table.old → IsTable (entries ++ by_lower_name flat.now signal ∷ []) table.new) }
{
    let name = lowered_name(alloc, signal_name(flat, signal))?;
    table.add(name.as_bytes(), signal)?;
    Ok(())
}

/// Adds signals under their names in lower case.
fn add_by_lower_name(
    alloc: Global,
    table: &mut NameTable<u32>,
    flat: &FlatModel,
    signals: &[u32],
) -> Result<(), NoMemory>
    requires { IsTable [] table.old }
    ensures { OnOk result (IsTable (map (by_lower_name flat.now) signals.now) table.new) }
{
    for signal in signals {
        add_lowered(alloc, table, flat, *signal)?;
    }
    Ok(())
}

/// Adds the clock of the port that the rule at a place names.
fn add_clock(
    table: &mut NameTable<ClockRef>,
    rules: &Seq<ClockportRule>,
    place: usize,
) -> Result<(), NoMemory>
    ensures { OnOk result (Grows (clock_at rules.now) place table.old table.new) }
{
    match rules.get(place) {
        Some(rule) => table.add(rule.port.as_bytes(), rule.clock)?,
        None => {}
    }
    Ok(())
}

/// Adds the clocks of the ports that the rules at places name.
fn add_clocks(
    table: &mut NameTable<ClockRef>,
    rules: &Seq<ClockportRule>,
    places: &[usize],
) -> Result<(), NoMemory>
    requires { IsTable [] table.old }
    ensures { OnOk result (IsTable (filter_map (clock_at rules.now) places.now) table.new) }
{
    for place in places {
        add_clock(table, rules, *place)?;
    }
    Ok(())
}

/// Adds the signal of the `port` rule at a place, found in a table by its name.
fn add_signal(
    table: &mut NameTable<Option<u32>>,
    signals: &NameTable<u32>,
    rules: &Seq<PortRule>,
    place: usize,
) -> Result<(), NoMemory>
    ensures { OnOk result (Grows (ruled_at (first_value signals.now) rules.now) place table.old table.new) }
{
    match rules.get(place) {
        Some(rule) => {
            let signal = signals.first(rule.signal.as_bytes());
            table.add(rule.port.as_bytes(), signal)?;
        }
        None => {}
    }
    Ok(())
}

/// Adds the signals of the `port` rules at places, found in a table by their names.
fn add_signals(
    table: &mut NameTable<Option<u32>>,
    signals: &NameTable<u32>,
    rules: &Seq<PortRule>,
    places: &[usize],
) -> Result<(), NoMemory>
    requires { IsTable [] table.old }
    ensures { OnOk result (IsTable (filter_map (ruled_at (first_value signals.now) rules.now) places.now) table.new) }
{
    for place in places {
        add_signal(table, signals, rules, *place)?;
    }
    Ok(())
}

/// Adds the names of an expression.
#[tactic(auto, using(crate::proofs::ListLaws::names_joined))]
fn add_names(names: &mut Names, expression: &Expr) -> Result<(), NoMemory>
    ensures { OnOk result ((m : List ℕ) → has_name names.new m ≡ (has_name names.old m || has_name (names_in expression.now) m)) }
{
    match expression {
        Expr::Port(name) => {
            names.number(name.as_bytes())?;
            Ok(())
        }
        Expr::Not(inner) => add_names(names, inner),
        Expr::And(left, right) => {
            add_names(names, left)?;
            add_names(names, right)?;
            Ok(())
        }
        Expr::Xor(left, right) => {
            add_names(names, left)?;
            add_names(names, right)?;
            Ok(())
        }
        Expr::Or(left, right) => {
            add_names(names, left)?;
            add_names(names, right)?;
            Ok(())
        }
    }
}

/// Adds the names of the assumption at a place.
fn add_assumed(names: &mut Names, rules: &Seq<AssumeRule>, place: usize) -> Result<(), NoMemory>
    ensures { OnOk result ((m : List ℕ) → has_name names.new m ≡ (has_name names.old m || assumed_at rules.now m place)) }
{
    match rules.get(place) {
        Some(rule) => add_names(names, &rule.expression)?,
        None => {}
    }
    Ok(())
}

/// Adds the names that the assumptions at places name.
fn add_all_assumed(
    names: &mut Names,
    rules: &Seq<AssumeRule>,
    places: &[usize],
) -> Result<(), NoMemory>
    requires { names.old ≡ [] }
    ensures { OnOk result ((m : List ℕ) → has_name names.new m ≡ list_any (assumed_at rules.now m) places.now) }
{
    for place in places {
        add_assumed(names, rules, *place)?;
    }
    Ok(())
}

impl Lookups {
    /// Tables with no values. It takes no memory.
    pub(crate) fn new(alloc: Global) -> Self
        ensures { AreEmpty result }
    {
        Lookups {
            alloc,
            signals: NameTable::new(alloc),
            names: NameTable::new(alloc),
            clocks: NameTable::new(alloc),
            ruled: NameTable::new(alloc),
            assumed: Names::new(alloc),
        }
    }

    /// Adds what the interface and the rules say of a cell, to tables with no values, in time and memory in proportion
    /// to the interface and the rules of the cell.
    pub(crate) fn fill(
        &mut self,
        flat: &FlatModel,
        rules: &Rules,
        lines: &PortLines,
        cell: &[u8],
        signals: &[u32],
    ) -> Result<(), NoMemory>
        requires empty { AreEmpty self.old }
        requires lines { ArePortLines rules.now lines.now }
        requires signals { signals.now ≡ interface flat.now }
        ensures { OnOk result (AreLookups flat.now rules.now cell.now self.new) }
    {
        add_by_lower_name(self.alloc, &mut self.signals, flat, signals)?;
        add_by_name(&mut self.names, flat, signals)?;
        let clocks = lines.clockports.places(cell);
        add_clocks(&mut self.clocks, &rules.clockports, clocks)?;
        let ports = lines.signals.places(cell);
        add_signals(&mut self.ruled, &self.names, &rules.ports, ports)?;
        let assumes = lines.assumes.places(cell);
        add_all_assumed(&mut self.assumed, &rules.assumes, assumes)?;
        Ok(())
    }
}

/// The signal that the rule of a port names, else the first that fits it by name.
fn signal_of(lookups: &Lookups, port: &[u8]) -> Option<u32>
    ensures { result ≡ unwrap_or (first_value lookups.now.ruled port.now) (first_value lookups.now.signals port.now) }
{
    match lookups.ruled.first(port) {
        Some(signal) => signal,
        None => lookups.signals.first(port),
    }
}

/// What the supplies and the tables say of a port.
pub(crate) fn facts_of(supplies: &FirstValues<bool>, lookups: &Lookups, port: &[u8]) -> PortFacts
    ensures { result ≡ facts_in supplies.now lookups.now port.now }
{
    PortFacts {
        supply: supply(supplies, port),
        clock: lookups.clocks.first(port),
        is_ruled: lookups.ruled.first(port).is_some(),
        signal: signal_of(lookups, port),
        fits_again: lookups.signals.has_second(port),
        is_assumed: lookups.assumed.contains(port),
    }
}
