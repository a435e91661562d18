//! Circuits whose devices are all of one level, and in which given nets alone are roots: each plain net that does not float has that level.

ghost use Rattle.std.specs.Prelude.{◌≡◌, ◌==◌, ◌<◌, ℕ, IsTrue, Some, length, not, true};
ghost use Rattle.std.specs.List.{list_any};
ghost use Rattle.drive_levels.specs.OneLevel.{HasOneLevel};
ghost use Rattle.output_levels.specs.PartLevels.{level_at};
ghost use Rattle.vrt_model.specs.Lists.{Among, mark_at};
ghost use Rattle.vrt_model.specs.declared.circuit.Device.{Device as DeviceValue};

use known_nets::is_marked;
use vrt_model::{Circuit, Device};

/// Whether the level of a device is another one.
fn is_other(device: &Device, level: u8) -> bool
    ensures { result ≡ not (device.now.level == level) }
{
    device.level != level
}

/// Whether some device has another level.
fn has_other(devices: &[Device], level: u8) -> bool
    ensures { result ≡ list_any (λ (d : DeviceValue). not (d.level == level)) devices.now }
{
    devices.iter().any(|device| is_other(device, level))
}

/// The level of all devices of a circuit that has devices, and neither holds nor whole instances; none where they have several.
pub(crate) fn one_level(circuit: &Circuit) -> Option<u8>
    ensures one { (level : ℕ) → result ≡ Some level → HasOneLevel circuit.now level }
    ensures all { (d : DeviceValue) → Among circuit.now.devices d → HasOneLevel circuit.now d.level → result ≡ Some d.level }
{
    if !circuit.holds.is_empty() {
        return None;
    }
    if !circuit.wholes.is_empty() {
        return None;
    }
    let devices = circuit.devices.as_slice();
    let Some(first) = devices.first() else {
        return None;
    };
    if has_other(devices, first.level) {
        return None;
    }
    Some(first.level)
}

/// Whether each net that is asked for is observed.
pub(crate) fn are_observed(asked: &[bool], observed: &[bool]) -> bool
    ensures seen { IsTrue result → (n : ℕ) → mark_at asked.now n ≡ true → mark_at observed.now n ≡ true }
    ensures all { ((n : ℕ) → mark_at asked.now n ≡ true → mark_at observed.now n ≡ true) → IsTrue result }
{
    for at in 0..asked.len() {
        if asked[at] && !is_marked(observed, at) {
            return false;
        }
    }
    true
}

/// Writes one level at each place of a table.
pub(crate) fn write_everywhere(level: u8, levels: &mut Vec<Option<u8>>)
    ensures len { length levels.new.items ≡ length levels.old.items }
    ensures each { (n : ℕ) → n < length levels.new.items → level_at levels.new.items n ≡ Some level }
{
    for at in 0..levels.len() {
        levels[at] = Some(level);
    }
}
