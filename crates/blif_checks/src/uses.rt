//! What uses the signals of a model.

ghost use Rattle.std.specs.Prelude.{◌≡◌, ◌++◌, map, flat_map, IfOk, OnOk};
ghost use Rattle.vrt_model.specs.Models.{on_line, uses_in};
ghost use Rattle.vrt_model.specs.declared.blif.CoverLine.{CoverLine as CoverValue};
ghost use Rattle.blif_checks.specs.Drivers.{AreClocks, latch_uses};
ghost use Rattle.blif_checks.specs.Mentions.{numbered};
ghost use Rattle.blif_checks.specs.Parts.{part_of};
ghost use Rattle.blif_checks.specs.Tables.{AreTables};

use crate::mentions::{Mention, add, add_all, add_listed};
use crate::part::{Part, covers_of, latches_of, output_lines_of, outputs_of, subs_of};
use crate::roles::Role;
use crate::tables::Tables;
use crate::ties::add_subs;
use names::Names;
use std::alloc::Global;
use vrt_model::{Blif, BlifModel, CoverLine, LatchLine, NoMemory, Seq};

/// Adds the inputs of covers.
fn add_covers(list: &mut Seq<Mention>, names: &Names, covers: &[CoverLine]) -> Result<(), NoMemory>
    ensures { OnOk result (list.new ≡ list.old ++ map (numbered names.now) (flat_map (λ (c : CoverValue). map (on_line c.line) c.inputs) covers.now)) }
{
    for cover in covers {
        add_all(list, names, cover.line, cover.inputs.as_slice())?;
    }
    Ok(())
}

/// Adds the input and the control of a latch.
fn add_latch(list: &mut Seq<Mention>, names: &Names, latch: &LatchLine) -> Result<(), NoMemory>
    ensures { OnOk result (list.new ≡ list.old ++ map (numbered names.now) (latch_uses latch.now)) }
{
    add(list, names, latch.line, latch.input.as_bytes())?;
    match &latch.control {
        Some(control) => add(list, names, latch.line, control.as_bytes()),
        None => Ok(()),
    }
}

/// Adds the inputs and controls of latches.
fn add_latches(
    list: &mut Seq<Mention>,
    names: &Names,
    latches: &[LatchLine],
) -> Result<(), NoMemory>
    ensures { OnOk result (list.new ≡ list.old ++ map (numbered names.now) (flat_map latch_uses latches.now)) }
{
    for latch in latches {
        add_latch(list, names, latch)?;
    }
    Ok(())
}

/// What uses the signals of a model or its network, by their numbers among some names.
pub(crate) fn uses_of(
    alloc: Global,
    names: &Names,
    blif: &Blif,
    tables: &Tables,
    clocks: &[Names],
    part: Part,
    model: &BlifModel,
) -> Result<Seq<Mention>, NoMemory>
    requires tables { AreTables blif.now tables.now }
    requires clocks { AreClocks blif.now clocks.now }
    ensures { IfOk result (λ list. list ≡ map (numbered names.now) (uses_in blif.now (part_of part model.now))) }
{
    let mut list = Seq::new(alloc);
    add_covers(&mut list, names, covers_of(part, model))?;
    add_latches(&mut list, names, latches_of(part, model))?;
    add_subs(
        &mut list,
        names,
        blif,
        tables,
        clocks,
        Role::Reading,
        subs_of(part, model),
    )?;
    add_listed(
        &mut list,
        names,
        outputs_of(part, model),
        output_lines_of(part, model),
    )?;
    Ok(list)
}
