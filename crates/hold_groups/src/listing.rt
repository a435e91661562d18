//! The variables of a cell in a phase.

ghost use Rattle.std.specs.Prelude.{◌≡◌, [], IfOk};
ghost use Rattle.vrt_model.specs.Elements.{element_names};
ghost use Rattle.hold_groups.specs.Given.{AreFilled, VariablesGive};

use crate::faults::VarsFault;
use crate::lists::small;
use crate::sources::add_sources;
use crate::variable_names::{add_element_names, add_names};
use std::alloc::Global;
use vrt_model::{Circuit, FlatModel, Group, NoMemory, Seq, Text, Vars};

/// The most variables that a cell may have in a phase.
const MOST_VARIABLES: u32 = 1000;

/// Lists the variables, where none is listed yet, by the names of the elements. The answer is how many they are; the
/// names are added only where they are not too many.
fn fill_by(
    alloc: Global,
    vars: &mut Vars,
    circuit: &Circuit,
    elements: &[Text],
    groups: &[Group],
    phase: u32,
) -> Result<u32, NoMemory>
    requires sources { vars.old.sources ≡ [] }
    requires names { vars.old.names ≡ [] }
    ensures { IfOk result (AreFilled circuit.now elements.now groups.now phase vars.new) }
{
    add_sources(&mut vars.sources, circuit, elements, groups, phase)?;
    let count = small(vars.sources.len())?;
    if count > MOST_VARIABLES {
        return Ok(count);
    }
    let sources = vars.sources.as_slice();
    add_names(alloc, &mut vars.names, circuit, elements, groups, sources)?;
    Ok(count)
}

/// Lists the variables, where none is listed yet. `elements` takes the names of the latch elements, and has none yet.
fn fill(
    alloc: Global,
    vars: &mut Vars,
    elements: &mut Seq<Text>,
    circuit: &Circuit,
    flat: &FlatModel,
    groups: &[Group],
    phase: u32,
) -> Result<u32, NoMemory>
    requires sources { vars.old.sources ≡ [] }
    requires names { vars.old.names ≡ [] }
    requires elements { elements.old ≡ [] }
    ensures { IfOk result (AreFilled circuit.now (element_names flat.now) groups.now phase vars.new) }
{
    add_element_names(alloc, elements, flat)?;
    fill_by(alloc, vars, circuit, elements.as_slice(), groups, phase)
}

/// The variables of a cell in a phase, with their names: one for each input, in net order; then one for each latch
/// element of the flat model, in order; then one for each group that reaches no latch and has no `enter` line for the
/// phase, in the order of the groups. `TooMany` comes exactly where they are more than 1,000.
pub fn variables(
    alloc: Global,
    circuit: &Circuit,
    flat: &FlatModel,
    groups: &Seq<Group>,
    phase: u32,
) -> Result<Vars, VarsFault>
    ensures { VariablesGive circuit.now flat.now groups.now phase result }
{
    let mut vars = Vars {
        names: Seq::new(alloc),
        sources: Seq::new(alloc),
    };
    let mut elements = Seq::new(alloc);
    let groups = groups.as_slice();
    match fill(
        alloc,
        &mut vars,
        &mut elements,
        circuit,
        flat,
        groups,
        phase,
    ) {
        Ok(count) if count > MOST_VARIABLES => Err(VarsFault::TooMany { count }),
        Ok(_) => Ok(vars),
        Err(_) => Err(VarsFault::NoMemory),
    }
}
