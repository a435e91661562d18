//! Which nets the clocks switch: they are known in every phase, and not with the same bit in all.

ghost use Rattle.std.specs.Prelude.{◌≡◌, is_none, IfOk};
ghost use Rattle.known_nets.specs.KnownTables.{IsKnownTable, known_at};
ghost use Rattle.channel_parts.specs.PhaseTables.{AreTables, has_bit, hides, is_switched, shows};
ghost use Rattle.vrt_model.specs.Circuits.{IsFlat};

use crate::known_bits::copied;
use known_nets::{known_bit, known_nets};
use std::alloc::Global;
use vrt_model::{Circuit, NoMemory, Phase, Seq};

/// The known nets of the bare circuit in a phase.
fn table_of(alloc: Global, circuit: &Circuit, phase: &Phase) -> Result<Seq<Option<bool>>, NoMemory>
    requires { IsFlat circuit.now }
    ensures { IfOk result (λ table. IsKnownTable circuit.now phase.now (known_at table)) }
{
    let known = known_nets(alloc, circuit, phase)?;
    copied(alloc, known.as_slice())
}

/// The known nets of the bare circuit in each phase.
pub(crate) fn tables_of(
    alloc: Global,
    circuit: &Circuit,
    phases: &[Phase],
) -> Result<Seq<Seq<Option<bool>>>, NoMemory>
    requires { IsFlat circuit.now }
    ensures { IfOk result (λ tables. AreTables circuit.now phases.now tables) }
{
    let mut tables = Seq::new(alloc);
    for phase in phases {
        let table = table_of(alloc, circuit, phase)?;
        tables.append(table)?;
    }
    Ok(tables)
}

/// Whether a bit is known, and this one.
fn has_bit(bit: Option<bool>, value: bool) -> bool
    ensures { result ≡ has_bit value bit }
{
    match bit {
        Some(bit) => { if value { bit } else { !bit } }
        None => false,
    }
}

/// Whether a table has this bit of a net.
fn has_net(table: &Seq<Option<bool>>, value: bool, net: usize) -> bool
    ensures { result ≡ has_bit value (known_at table.now net) }
{
    has_bit(known_bit(table.as_slice(), net), value)
}

/// Whether a table has no bit of a net.
fn lacks_net(table: &Seq<Option<bool>>, net: usize) -> bool
    ensures { result ≡ is_none (known_at table.now net) }
{
    known_bit(table.as_slice(), net).is_none()
}

/// Whether a net is known with this bit in some phase.
fn shows(tables: &[Seq<Option<bool>>], value: bool, net: usize) -> bool
    ensures { result ≡ shows tables.now value net }
{
    tables.iter().any(|table| has_net(table, value, net))
}

/// Whether a net is not known in some phase.
fn hides(tables: &[Seq<Option<bool>>], net: usize) -> bool
    ensures { result ≡ hides tables.now net }
{
    tables.iter().any(|table| lacks_net(table, net))
}

/// Whether a net is known in every phase, 0 in one and 1 in another.
pub(crate) fn is_switched(tables: &[Seq<Option<bool>>], net: usize) -> bool
    ensures { result ≡ is_switched tables.now net }
{
    !hides(tables, net) && (shows(tables, false, net) && shows(tables, true, net))
}
