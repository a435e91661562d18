//! Models, made of what tokens tell.

ghost use Rattle.std.specs.Prelude.{◌≡◌, ◌++◌, ◌∷◌, [], map, OnOk};
ghost use Rattle.gate_verilog.specs.Built.{AddsEntries, Building, IsBuilding, built_from};
ghost use Rattle.rule_index.specs.Firsts.{IsEven};
ghost use Rattle.verilog_expression.specs.Grammar.{seen};
ghost use Rattle.verilog_models.specs.Drafts.{IsDraft, begun};
ghost use Rattle.verilog_models.specs.Models.{model_of};
ghost use Rattle.verilog_source.specs.Grammar.{named, port_entries};
ghost use Rattle.verilog_source.specs.Modules.{Module};
ghost use Rattle.verilog_source.specs.Modules.Entry.{assigned};
ghost use Rattle.verilog_source.specs.Positions.{events};

use std::alloc::Global;
use std::mem::replace;
use verilog_expression::Expression;
use verilog_models::Draft;
use verilog_source::{Direction, Told, Work};
use vrt_model::{BlifModel, NoMemory, Seq, Text};

/// A module begins.
fn begin_module(alloc: Global, draft: &mut Draft, line: u32, name: &[u8]) -> Result<(), NoMemory>
    ensures { OnOk result (IsDraft (begun line name.now) draft.new) }
{
    let name = Text::from_bytes(alloc, name)?;
    *draft = Draft::new(alloc, line, name);
    Ok(())
}

/// Adds the direction of a name, none for a wire.
fn add_named(
    draft: &mut Draft,
    line: u32,
    direction: Option<Direction>,
    name: &[u8],
) -> Result<(), NoMemory>
    requires { IsEven draft.old.directions }
    ensures { OnOk result (AddsEntries (named line direction name.now) draft.old draft.new) }
{
    match direction {
        Some(direction) => draft.add_directed(line, direction, name),
        None => Ok(()),
    }
}

/// Adds a port of the list, with the direction before it.
fn add_port(
    draft: &mut Draft,
    line: u32,
    direction: Option<Direction>,
    name: &[u8],
) -> Result<(), NoMemory>
    requires { IsEven draft.old.directions }
    ensures { OnOk result (AddsEntries (port_entries line direction name.now) draft.old draft.new) }
{
    draft.add_listed(name)?;
    add_named(draft, line, direction, name)?;
    Ok(())
}

/// Adds a net with each of these values.
fn add_values(
    alloc: Global,
    draft: &mut Draft,
    line: u32,
    net: &[u8],
    values: &[Expression],
) -> Result<(), NoMemory>
    requires { IsEven draft.old.directions }
    ensures { OnOk result (AddsEntries (map (λ e. assigned line net.now (seen e)) values.now) draft.old draft.new) }
{
    let mut left = values;
    'values: while let Some((value, behind)) = left.split_first() {
        draft.add_assigned(alloc, line, net, value)?;
        left = behind;
    }
    Ok(())
}

/// A module ends: its model is made, and none is open.
fn end_module(alloc: Global, models: &mut Seq<BlifModel>, draft: &mut Draft) -> Result<(), NoMemory>
    ensures models { (m : Module) → IsDraft m draft.old → OnOk result (models.new ≡ models.old ++ model_of m ∷ []) }
    ensures draft { IsDraft (begun 0 []) draft.new }
{
    let whole = replace(draft, Draft::new(alloc, 0, Text::new(alloc)));
    let model = whole.finish(alloc)?;
    models.append(model)?;
    Ok(())
}

/// Adds what a token of these bytes tells, with what is read of the statement.
pub fn add_told(
    alloc: Global,
    models: &mut Seq<BlifModel>,
    draft: &mut Draft,
    told: Told,
    bytes: &[u8],
    work: &Work,
) -> Result<(), NoMemory>
    requires { IsEven draft.old.directions }
    ensures { (b : Building) → IsBuilding b models.old draft.old → OnOk result (IsBuilding (built_from b (events told bytes.now work.now)) models.new draft.new) }
{
    match told {
        Told::Nothing => Ok(()),
        Told::Begins(line) => begin_module(alloc, draft, line, bytes),
        Told::Port(line, direction) => add_port(draft, line, direction, bytes),
        Told::Named(line, direction) => add_named(draft, line, direction, bytes),
        Told::Assigned(line) => {
            add_values(
                alloc,
                draft,
                line,
                work.name.as_bytes(),
                work.inputs.as_slice(),
            )
        }
        Told::Gate(line, kind) => draft.add_gate(
            alloc,
            line,
            kind,
            work.outputs.as_slice(),
            work.inputs.as_slice(),
        ),
        Told::Instance(line) => {
            draft.add_instance(alloc, line, work.module.as_bytes(), work.ties.as_slice())
        }
        Told::Ends => end_module(alloc, models, draft),
    }
}
