//! The signals of a model.

ghost use Rattle.std.specs.Prelude.{◌≡◌, [], List, map, flat_map, IfOk, OnOk};
ghost use Rattle.vrt_model.specs.Lists.{distinct};
ghost use Rattle.names.specs.Names.{with_names};
ghost use Rattle.vrt_model.specs.FlatBlif.{cover_signals, latch_signals, sub_signals};
ghost use Rattle.vrt_model.specs.declared.blif.Tie.{Tie as TieValue};
ghost use Rattle.blif_checks.specs.Parts.{part_of};
ghost use Rattle.blif_checks.specs.Signals.{named_beside, named_in};

use crate::part::{Part, covers_of, latches_of, outputs_of, subs_of};
use names::Names;
use std::alloc::Global;
use vrt_model::{BlifModel, CoverLine, LatchLine, NoMemory, SubLine, Tie};

/// Adds the signals of a cover.
fn add_cover(names: &mut Names, cover: &CoverLine) -> Result<(), NoMemory>
    ensures { OnOk result (names.new ≡ with_names names.old (cover_signals cover.now)) }
{
    names.add_all(cover.inputs.as_slice())?;
    names.number(cover.output.as_bytes())?;
    Ok(())
}

/// Adds the signals of covers.
fn add_covers(names: &mut Names, covers: &[CoverLine]) -> Result<(), NoMemory>
    ensures { OnOk result (names.new ≡ with_names names.old (flat_map cover_signals covers.now)) }
{
    for cover in covers {
        add_cover(names, cover)?;
    }
    Ok(())
}

/// Adds the signals of a latch.
fn add_latch(names: &mut Names, latch: &LatchLine) -> Result<(), NoMemory>
    ensures { OnOk result (names.new ≡ with_names names.old (latch_signals latch.now)) }
{
    names.number(latch.input.as_bytes())?;
    names.number(latch.output.as_bytes())?;
    if let Some(control) = &latch.control {
        names.number(control.as_bytes())?;
    }
    Ok(())
}

/// Adds the signals of latches.
fn add_latches(names: &mut Names, latches: &[LatchLine]) -> Result<(), NoMemory>
    ensures { OnOk result (names.new ≡ with_names names.old (flat_map latch_signals latches.now)) }
{
    for latch in latches {
        add_latch(names, latch)?;
    }
    Ok(())
}

/// Adds the actuals of ties.
fn add_ties(names: &mut Names, ties: &[Tie]) -> Result<(), NoMemory>
    ensures { OnOk result (names.new ≡ with_names names.old (map (λ (t : TieValue). t.actual) ties.now)) }
{
    for tie in ties {
        names.number(tie.actual.as_bytes())?;
    }
    Ok(())
}

/// Adds the signals of sub-models.
fn add_subs(names: &mut Names, subs: &[SubLine]) -> Result<(), NoMemory>
    ensures { OnOk result (names.new ≡ with_names names.old (flat_map sub_signals subs.now)) }
{
    for sub in subs {
        add_ties(names, sub.ties.as_slice())?;
    }
    Ok(())
}

/// Adds the signals of a model or its network that are named elsewhere than as inputs and clocks: outputs, then those of
/// covers, latches and ties.
fn add_beside(names: &mut Names, part: Part, model: &BlifModel) -> Result<(), NoMemory>
    ensures { OnOk result (names.new ≡ with_names names.old (named_beside (part_of part model.now))) }
{
    names.add_all(outputs_of(part, model))?;
    add_covers(names, covers_of(part, model))?;
    add_latches(names, latches_of(part, model))?;
    add_subs(names, subs_of(part, model))?;
    Ok(())
}

/// The signals of a model or its network that are named elsewhere than as inputs and clocks. One that is named as input or
/// clock alone has no fault.
pub(crate) fn beside_of(alloc: Global, part: Part, model: &BlifModel) -> Result<Names, NoMemory>
    ensures { IfOk result (λ names. names ≡ with_names [] (named_beside (part_of part model.now))) }
{
    let mut names = Names::new(alloc);
    add_beside(&mut names, part, model)?;
    Ok(names)
}

/// The signals of a model in the order in which they are first named: inputs, clocks, outputs, then those of covers,
/// latches and ties.
pub fn signals_of(alloc: Global, model: &BlifModel) -> Result<Names, NoMemory>
    ensures { IfOk result (λ names. names ≡ with_names [] (named_in model.now)) }
{
    let mut names = Names::new(alloc);
    names.add_all(model.inputs.as_slice())?;
    names.add_all(model.clocks.as_slice())?;
    add_beside(&mut names, Part::Own, model)?;
    Ok(names)
}

/// The names on the cards of covers, in the order in which they are first named.
pub fn cover_names(alloc: Global, covers: &[CoverLine]) -> Result<Names, NoMemory>
    ensures { IfOk result (λ names. names ≡ with_names [] (flat_map cover_signals covers.now)) }
{
    let mut names = Names::new(alloc);
    add_covers(&mut names, covers)?;
    Ok(names)
}
