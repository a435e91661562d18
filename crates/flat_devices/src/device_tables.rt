//! What rules say of the devices of a cell.

ghost use Rattle.std.specs.Prelude.{◌≡◌, [], ℕ, List, Some, OnOk, ◌||◌};
ghost use Rattle.std.specs.List.{list_any};
ghost use Rattle.std.specs.Option.{option_or};
ghost use Rattle.flat_devices.specs.DeviceTables.{AreDevices, AreFreshDevices, device_level, first_some, kept_at, level_at};
ghost use Rattle.rule_index.specs.Firsts.{IsEven, IsFresh, value_in};
ghost use Rattle.rule_index.specs.Lines.{AreDeviceLines};
ghost use Rattle.vrt_model.specs.Lists.{has_name};

use names::Names;
use rule_index::{DeviceLines, FirstValues, ModelTable};
use std::alloc::Global;
use vrt_model::{KeeperRule, NoMemory, Rules, Seq, StrengthRule};

/// What is said of the devices of one cell: the levels of `strength` rules, and the keepers.
#[derive(Drop)]
pub struct DeviceTable {
    /// The level of a device for which no rule has one.
    pub usual: u8,
    /// The levels of single transistors of the cell by their names.
    pub strengths: FirstValues<u8>,
    /// The names of the transistors of the cell that `keeper` rules name.
    pub keepers: Names,
}

/// Notes the level of the `strength` rule at a place.
fn note_strength(
    table: &mut FirstValues<u8>,
    rules: &Seq<StrengthRule>,
    place: usize,
) -> Result<(), NoMemory>
    requires { IsEven table.old }
    ensures even { OnOk result (IsEven table.new) }
    ensures first { OnOk result ((other : List ℕ) → value_in table.new other ≡ option_or (value_in table.old other) (level_at rules.now other place)) }
{
    match rules.get(place) {
        Some(rule) => table.note(rule.device.as_bytes(), rule.level)?,
        None => {}
    }
    Ok(())
}

/// Notes the levels of the `strength` rules at places, in a table with nothing noted.
fn note_strengths(
    table: &mut FirstValues<u8>,
    rules: &Seq<StrengthRule>,
    places: &[usize],
) -> Result<(), NoMemory>
    requires { IsFresh table.old }
    ensures { OnOk result ((device : List ℕ) → value_in table.new device ≡ first_some (level_at rules.now device) places.now) }
{
    for place in places {
        note_strength(table, rules, *place)?;
    }
    Ok(())
}

/// Adds the device of the `keeper` rule at a place.
fn add_keeper(names: &mut Names, rules: &Seq<KeeperRule>, place: usize) -> Result<(), NoMemory>
    ensures { OnOk result ((other : List ℕ) → has_name names.new other ≡ (has_name names.old other || kept_at rules.now other place)) }
{
    match rules.get(place) {
        Some(rule) => {
            names.number(rule.device.as_bytes())?;
        }
        None => {}
    }
    Ok(())
}

/// Adds the devices of the `keeper` rules at places, to no names.
fn add_keepers(names: &mut Names, rules: &Seq<KeeperRule>, places: &[usize]) -> Result<(), NoMemory>
    requires { names.old ≡ [] }
    ensures { OnOk result ((device : List ℕ) → has_name names.new device ≡ list_any (kept_at rules.now device) places.now) }
{
    for place in places {
        add_keeper(names, rules, *place)?;
    }
    Ok(())
}

impl DeviceTable {
    /// With nothing said. It takes no memory.
    pub fn new(alloc: Global) -> Self
        ensures { AreFreshDevices result }
    {
        DeviceTable {
            usual: 0,
            strengths: FirstValues::new(alloc),
            keepers: Names::new(alloc),
        }
    }

    /// Notes what is said of the devices of a cell, where nothing is said yet, in time and memory in proportion to the
    /// rules of the cell.
    pub fn fill(&mut self, lines: &DeviceLines, rules: &Rules, cell: &[u8]) -> Result<(), NoMemory>
        requires fresh { AreFreshDevices self.old }
        requires lines { AreDeviceLines rules.now lines.now }
        ensures { OnOk result (AreDevices rules.now cell.now self.new) }
    {
        self.usual = rules.usual_level();
        let strengths = lines.strengths.places(cell);
        note_strengths(&mut self.strengths, &rules.strengths, strengths)?;
        let keepers = lines.keepers.places(cell);
        add_keepers(&mut self.keepers, &rules.keepers, keepers)?;
        Ok(())
    }
}

/// The level of a device: a `strength` rule goes before a `device` rule; the usual one where there is none.
pub fn level(models: &ModelTable, table: &DeviceTable, device: &[u8], model: &[u8]) -> u8
    ensures { result ≡ device_level models.now table.now device.now model.now }
{
    match table.strengths.get(device) {
        Some(level) => *level,
        None => match models.level(model) {
            Some(level) => level,
            None => table.usual,
        },
    }
}
