//! A planned cell written, or the first cause that refuses it.

ghost use Rattle.std.specs.Prelude.{◌≡◌, ◌≤◌, ℕ, None};
ghost use Rattle.cell_writer.specs.Refused.{clock_among, first_hold};
ghost use Rattle.cell_writer.specs.Writing.{IsWriting, written_of};
ghost use Rattle.cell_writer.specs.Written.{WriteGives};
ghost use Rattle.vrt_model.specs.Comparison.{cell_at};
ghost use Rattle.vrt_model.specs.FlatBlif.{model_at};

use crate::causes::{clock_port, held_net};
use crate::name_lists::{other_clocks, variable_names};
use crate::refusal::WriteRefusal;
use crate::refuse::{refuse_clock, refuse_hold};
use crate::tested::write_tested;
use crate::writing::Writing;
use std::alloc::Global;
use vrt_model::{Design, Text};

/// The names of the ports of a cell, none where there is no such cell.
fn ports_of(design: &Design, cell: u32) -> &[Text]
    ensures { result.now ≡ (cell_at design.entry.now cell).ports }
{
    match design.cells.get(cell as usize) {
        Some(cell) => cell.ports.as_slice(),
        None => &[],
    }
}

/// What is written of a cell without holds and clock ports.
fn write_named(alloc: Global, budget: u32, w: Writing<'_>) -> Result<Text, WriteRefusal>
    requires budget { (65536 ≤ budget) × (budget ≤ 64000000) }
    requires writing { (m : ℕ) × IsWriting m w }
    requires holds { first_hold w.planned.now.flattened.circuit ≡ None }
    requires ports { clock_among (cell_at w.design.now w.cell).ports w.planned.now.flattened.pairing.ports ≡ None }
    ensures { (m : ℕ) → IsWriting m w.entry → WriteGives (written_of w.entry m) w.entry.blif.now (model_at w.entry.blif.now m) budget result }
{
    let flattened = &w.planned.flattened;
    let inputs = w.model.inputs.as_slice();
    let Ok(clocks) = other_clocks(alloc, inputs, w.model.clocks.as_slice()) else {
        return Err(WriteRefusal::NoMemory);
    };
    let signals = flattened.model().signals.as_slice();
    let Ok(variables) = variable_names(alloc, signals, flattened.pairing().ports.as_slice()) else {
        return Err(WriteRefusal::NoMemory);
    };
    write_tested(alloc, budget, w, clocks.as_slice(), variables.as_slice())
}

/// What is written of a cell without holds.
fn write_stateless(alloc: Global, budget: u32, w: Writing<'_>) -> Result<Text, WriteRefusal>
    requires budget { (65536 ≤ budget) × (budget ≤ 64000000) }
    requires writing { (m : ℕ) × IsWriting m w }
    requires holds { first_hold w.planned.now.flattened.circuit ≡ None }
    ensures { (m : ℕ) → IsWriting m w.entry → WriteGives (written_of w.entry m) w.entry.blif.now (model_at w.entry.blif.now m) budget result }
{
    let roles = w.planned.flattened.pairing().ports.as_slice();
    match clock_port(ports_of(w.design, w.cell), roles) {
        Some(port) => refuse_clock(alloc, port),
        None => write_named(alloc, budget, w),
    }
}

/// What is written of a planned cell: its text, or the first cause that refuses it.
pub(crate) fn write_planned(
    alloc: Global,
    budget: u32,
    w: Writing<'_>,
) -> Result<Text, WriteRefusal>
    requires budget { (65536 ≤ budget) × (budget ≤ 64000000) }
    requires writing { (m : ℕ) × IsWriting m w }
    ensures { (m : ℕ) → IsWriting m w.entry → WriteGives (written_of w.entry m) w.entry.blif.now (model_at w.entry.blif.now m) budget result }
{
    match held_net(w.planned.flattened.circuit()) {
        Some(net) => refuse_hold(alloc, net),
        None => write_stateless(alloc, budget, w),
    }
}
