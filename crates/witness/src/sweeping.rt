//! The bits that the nets of the bare circuit show, part by part in the order in which parts are solved, each by a look at
//! its own devices alone: so what it costs is in proportion to the circuit, however deep that is.

ghost use Rattle.std.specs.Prelude.{◌≡◌, ℕ, ◌<◌, ◌⊎◌, All, Bool, Some, true, length, OnOk};
ghost use Rattle.channel_parts.specs.PartLists.{IsPartOf, net_numbers};
ghost use Rattle.channel_parts.specs.declared.part.Part.{Part as PartValue};
ghost use Rattle.known_nets.specs.KnownTables.{known_at};
ghost use Rattle.plain_paths.specs.Local.{HasPlaces, ShowsRoots};
ghost use Rattle.vrt_model.specs.Circuits.{IsFlat};
ghost use Rattle.vrt_model.specs.Lists.{Among, bit_at};
ghost use Rattle.vrt_model.specs.Reading.{IsReading};
ghost use Rattle.vrt_model.specs.State.{Setting};
ghost use Rattle.vrt_model.specs.declared.ids.Net.{Net as NetValue};
ghost use Rattle.vrt_model.specs.declared.rules.Phase.{Phase as PhaseValue};
ghost use Rattle.witness.specs.Settling.{IsSwept, Stands};
ghost use Rattle.witness.specs.Views.{shown_by};

use crate::looking::{is_stopped, seen_by};
use crate::rounds::{note, shown_bit};
use crate::viewing::filled;
use channel_parts::Part;
use plain_paths::{Signals, bit, raise, restore, root_signals};
use std::alloc::Global;
use vrt_model::{Circuit, Net, NoMemory};

/// The bit that a net shows by these signals, if it shows one.
fn shown_by(signals: &Signals, net: usize) -> Option<bool>
    ensures { result ≡ shown_by signals.now net }
{
    let zero = bit(signals.zeros.as_slice(), net);
    let one = bit(signals.ones.as_slice(), net);
    shown_bit(seen_by(zero, one))
}

/// Notes the bits that these nets show by these signals and that they have not yet.
fn note_nets(bits: &mut Vec<Option<bool>>, nets: &[Net], signals: &Signals)
    requires { All (λ (net : NetValue). net.0 < length bits.old.items) nets.now }
    ensures size { length bits.new.items ≡ length bits.old.items }
    ensures grown { (n : ℕ) (v : Bool) → known_at bits.old.items n ≡ Some v → known_at bits.new.items n ≡ Some v }
    ensures only { (n : ℕ) (v : Bool) → known_at bits.new.items n ≡ Some v → (known_at bits.old.items n ≡ Some v) ⊎ (Among (net_numbers nets.now) n × (shown_by signals.now n ≡ Some v)) }
{
    for net in nets {
        let at = net.0 as usize;
        let shown = shown_by(signals, at);
        note(bits, at, shown);
    }
}

/// Notes the bits that the nets of a part show, where each gate of it has a bit. The tables have the signals of the roots
/// alone before and after.
fn sweep_part(
    alloc: Global,
    circuit: &Circuit,
    bits: &mut Vec<Option<bool>>,
    part: &Part,
    roots: &Signals,
    tables: &mut Signals,
) -> Result<(), NoMemory>
    requires flat { IsFlat circuit.now }
    requires nets { All (λ (net : NetValue). net.0 < length circuit.now.nets) part.now.nets }
    requires len { length bits.old.items ≡ length circuit.now.nets }
    requires roots { HasPlaces (length circuit.now.nets) roots.now }
    requires places { HasPlaces (length circuit.now.nets) tables.old }
    ensures len { OnOk result (length bits.new.items ≡ length circuit.now.nets) }
    ensures places { OnOk result (HasPlaces (length circuit.now.nets) tables.new) }
    ensures swept { OnOk result ((phase : PhaseValue) → (setting : Setting) → (rank : ℕ → ℕ) → (given : ℕ → Bool) → IsPartOf circuit.now phase true rank part.now → IsReading circuit.now phase setting.inputs given → ShowsRoots circuit.now given setting.held roots.now → IsSwept circuit.now phase setting given (known_at bits.old.items) tables.old → IsSwept circuit.now phase setting given (known_at bits.new.items) tables.new) }
{
    if is_stopped(circuit, bits.as_slice(), part.devices.as_slice()) {
        return Ok(());
    }
    raise(
        alloc,
        circuit,
        bits.as_slice(),
        part.devices.as_slice(),
        roots,
        tables,
    )?;
    note_nets(bits, part.nets.as_slice(), tables);
    restore(circuit, part.devices.as_slice(), roots, tables);
    Ok(())
}

/// Notes the bits that the nets of these parts show, part by part in their order.
fn sweep_parts(
    alloc: Global,
    circuit: &Circuit,
    bits: &mut Vec<Option<bool>>,
    parts: &[Part],
    roots: &Signals,
    tables: &mut Signals,
) -> Result<(), NoMemory>
    requires flat { IsFlat circuit.now }
    requires nets { All (λ (part : PartValue). All (λ (net : NetValue). net.0 < length circuit.now.nets) part.nets) parts.now }
    requires len { length bits.old.items ≡ length circuit.now.nets }
    requires roots { HasPlaces (length circuit.now.nets) roots.now }
    requires places { HasPlaces (length circuit.now.nets) tables.old }
    ensures len { OnOk result (length bits.new.items ≡ length circuit.now.nets) }
    ensures swept { OnOk result ((phase : PhaseValue) → (setting : Setting) → (rank : ℕ → ℕ) → (given : ℕ → Bool) → ((part : PartValue) → Among parts.now part → IsPartOf circuit.now phase true rank part) → IsReading circuit.now phase setting.inputs given → ShowsRoots circuit.now given setting.held roots.now → IsSwept circuit.now phase setting given (known_at bits.old.items) tables.old → IsSwept circuit.now phase setting given (known_at bits.new.items) tables.new) }
{
    for part in parts {
        sweep_part(alloc, circuit, bits, part, roots, tables)?;
    }
    Ok(())
}

/// Notes bits that nets of the bare circuit show at the bits that they have, where these bits are shown already and these are
/// its parts: of each part whose gates have bits when its turn comes. What nets show beside that is for the looks at all nets
/// to find.
pub(crate) fn sweep(
    alloc: Global,
    circuit: &Circuit,
    bits: &mut Vec<Option<bool>>,
    held: &[bool],
    parts: &[Part],
) -> Result<(), NoMemory>
    requires flat { IsFlat circuit.now }
    requires nets { All (λ (part : PartValue). All (λ (net : NetValue). net.0 < length circuit.now.nets) part.nets) parts.now }
    requires len { length bits.old.items ≡ length circuit.now.nets }
    ensures len { OnOk result (length bits.new.items ≡ length circuit.now.nets) }
    ensures stands { OnOk result ((phase : PhaseValue) → (setting : Setting) → (rank : ℕ → ℕ) → setting.held ≡ bit_at held.now → ((part : PartValue) → Among parts.now part → IsPartOf circuit.now phase true rank part) → Stands circuit.now phase setting (known_at bits.old.items) → Stands circuit.now phase setting (known_at bits.new.items)) }
{
    let reading = filled(alloc, bits.as_slice())?;
    let roots = root_signals(alloc, circuit, reading.as_slice(), held)?;
    let mut tables = root_signals(alloc, circuit, reading.as_slice(), held)?;
    sweep_parts(alloc, circuit, bits, parts, &roots, &mut tables)?;
    Ok(())
}
