//! What rules say of supplies.

ghost use Rattle.std.specs.Prelude.{◌≡◌, ℕ, List, OnOk};
ghost use Rattle.name_tables.specs.Firsts.{IsFresh, value_in};
ghost use Rattle.rule_index.specs.Tables.{declared_supply, supply_in};

use name_tables::FirstValues;
use vrt_model::{NoMemory, SupplyRule};

/// Notes the supplies that rules declare, in a table with nothing noted.
pub fn note_supplies(table: &mut FirstValues<bool>, rules: &[SupplyRule]) -> Result<(), NoMemory>
    requires { IsFresh table.old }
    ensures { OnOk result ((name : List ℕ) → value_in table.new name ≡ declared_supply rules.now name) }
{
    for rule in rules {
        table.note(rule.net.as_bytes(), rule.value)?;
    }
    Ok(())
}

/// The value of the supply that a name is, if it is one: as a rule declares it, and `0` is supply 0 where no rule
/// declares it.
pub fn supply(supplies: &FirstValues<bool>, name: &[u8]) -> Option<bool>
    ensures { result ≡ supply_in supplies.now name.now }
{
    match supplies.get(name) {
        Some(value) => Some(*value),
        None => if name == b"0".as_slice() {
            Some(false)
        } else {
            None
        },
    }
}
