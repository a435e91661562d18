//! The variables of the first cell in a phase.

ghost use Rattle.hold_groups.specs.Grouped.{AreGroups};
ghost use Rattle.vrt_model.specs.Circuits.{IsCircuit};

use crate::stop::Stop;
use crate::texts::Given;
use crate::{care, held};
use hold_groups::{VarsFault, variables};
use row_script::Page;
use vrt_model::{FlatModel, Group, Seq, Source, Vars};

/// What a variable stands for, and its number.
fn source_of(source: Source) -> (&'static str, u32) {
    match source {
        Source::Input(net) => ("input", net.0),
        Source::Element(element) => ("element", element),
        Source::Group(group) => ("group", group),
    }
}

/// Adds the variable of a place.
fn add_variable(page: &mut Page, vars: &Vars, at: usize) -> Result<(), Stop> {
    let (Some(name), Some(source)) = (vars.names.get(at), vars.sources.get(at)) else {
        return Err(Stop::Unfit);
    };
    let (kind, number) = source_of(*source);
    page.word(", ");
    page.name(name.as_bytes());
    page.word(" is ");
    page.word(kind);
    page.behind_blank(number);
    Ok(())
}

/// Tells all variables.
fn tell_all(page: &mut Page, vars: &Vars) -> Result<(), Stop> {
    let count = vars.sources.len();
    page.word("variables ");
    page.count(count, "");
    for at in 0..count {
        add_variable(page, vars, at)?;
    }
    Ok(())
}

/// Tells what is asked of a phase with its variables.
fn tell_with(
    page: &mut Page,
    given: Given<'_>,
    groups: &Seq<Group>,
    vars: &Vars,
    word: &str,
    phase: u32,
) -> Result<(), Stop>
    requires circuit { IsCircuit given.circuit.now }
    requires groups { AreGroups given.circuit.now groups.now }
{
    match word {
        "variables" => tell_all(page, vars),
        "care" => care::tell(page, given, groups, vars, phase),
        "held" => held::tell(page, given.circuit, groups, vars, phase),
        _ => Err(Stop::NotRead),
    }
}

/// Tells what is asked of a phase.
pub(crate) fn tell(
    page: &mut Page,
    given: Given<'_>,
    flat: &FlatModel,
    groups: &Seq<Group>,
    word: &str,
    phase: u32,
) -> Result<(), Stop>
    requires circuit { IsCircuit given.circuit.now }
    requires groups { AreGroups given.circuit.now groups.now }
{
    match variables(page.alloc(), given.circuit, flat, groups, phase) {
        Ok(vars) => tell_with(page, given, groups, &vars, word, phase),
        Err(VarsFault::TooMany { count }) => {
            page.word("too many");
            page.behind_blank(count);
            Ok(())
        }
        Err(VarsFault::NoMemory) => Err(Stop::NoMemory),
    }
}
