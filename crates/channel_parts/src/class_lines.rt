//! The class of each part.

ghost use Rattle.std.specs.Prelude.{◌≡◌, map, IfOk};
ghost use Rattle.channel_parts.specs.Classes.{AreClasses};
ghost use Rattle.channel_parts.specs.ClassTests.{line_by};
ghost use Rattle.vrt_model.specs.Circuits.{IsFlat};

use crate::channels::linked_parts;
use crate::class::ClassLine;
use crate::judging::line_of;
use crate::part::Part;
use crate::switching::tables_of;
use known_nets::held_nets;
use std::alloc::Global;
use vrt_model::{Circuit, NoMemory, Phase, Seq};

/// The lines of parts, in their order.
fn lines_of(
    alloc: Global,
    circuit: &Circuit,
    held: &[bool],
    tables: &[Seq<Option<bool>>],
    parts: &[Part],
) -> Result<Seq<ClassLine>, NoMemory>
    ensures { IfOk result (λ lines. lines ≡ map (line_by circuit.now held.now tables.now) parts.now) }
{
    let mut lines = Seq::new(alloc);
    for part in parts {
        lines.append(line_of(circuit, held, tables, part))?;
    }
    Ok(lines)
}

/// The class of each channel-connected part of a circuit without whole instances, by least net. The parts are those of all
/// devices, keepers among them, whatever is known of their gates; a plain net at no channel is a part of its own.
///
/// A part is `Domino` where a p-device to supply 1 or an n-device to supply 0 joins a hold net of it, and the gate of
/// that device is known in every phase of the bare circuit, and not with the same bit in all. Else it is `Pass` where a
/// device of it joins an input or a net of it has a hold, and else `Static`. Nothing but want of memory refuses.
pub fn classes(
    alloc: Global,
    circuit: &Circuit,
    phases: &Seq<Phase>,
) -> Result<Seq<ClassLine>, NoMemory>
    requires { IsFlat circuit.now }
    ensures { IfOk result (λ lines. AreClasses circuit.now phases.now lines) }
{
    let found = linked_parts(alloc, circuit)?;
    let tables = tables_of(alloc, circuit, phases.as_slice())?;
    let held = held_nets(alloc, circuit)?;
    lines_of(
        alloc,
        circuit,
        held.as_slice(),
        tables.as_slice(),
        found.list.as_slice(),
    )
}
