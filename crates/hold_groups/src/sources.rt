//! What the variables stand for: the inputs, the latch elements, and the groups without another bit.

ghost use Rattle.std.specs.Prelude.{◌≡◌, ◌++◌, [], OnOk};
ghost use Rattle.hold_groups.specs.Sources.{element_sources, group_at, group_sources, input_at, input_sources, sources_by};

use crate::entered::is_free;
use crate::lists::{add_some, next};
use vrt_model::{Circuit, FlatNet, Group, Net, NetKind, NoMemory, Seq, Source, Text};

/// The variable of a net, if the net is an input.
fn input_at(number: u32, kind: NetKind) -> Option<Source>
    ensures { result ≡ input_at number kind }
{
    match kind {
        NetKind::Supply(_) => None,
        NetKind::Clock(_) => None,
        NetKind::Input => Some(Source::Input(Net(number))),
        NetKind::Plain => None,
    }
}

/// Adds the inputs.
#[tactic(auto, using(vrt_model::proofs::Lists::pushed))]
fn add_inputs(sources: &mut Seq<Source>, nets: &[FlatNet]) -> Result<(), NoMemory>
    ensures { OnOk result (sources.new ≡ sources.old ++ input_sources 0 nets.now) }
{
    let mut number = 0;
    let mut rest = nets;
    'nets: while let Some((net, behind)) = rest.split_first() {
        add_some(sources, input_at(number, net.kind))?;
        number = next(number)?;
        rest = behind;
    }
    Ok(())
}

/// Adds the latch elements.
#[tactic(auto, using(vrt_model::proofs::Lists::pushed))]
fn add_elements(sources: &mut Seq<Source>, elements: &[Text]) -> Result<(), NoMemory>
    ensures { OnOk result (sources.new ≡ sources.old ++ element_sources 0 elements.now) }
{
    let mut number = 0;
    let mut rest = elements;
    'elements: while let Some((_element, behind)) = rest.split_first() {
        add_some(sources, Some(Source::Element(number)))?;
        number = next(number)?;
        rest = behind;
    }
    Ok(())
}

/// The variable of a group, if the group has one.
fn group_at(circuit: &Circuit, phase: u32, number: u32, group: &Group) -> Option<Source>
    ensures { result ≡ group_at circuit.now phase number group.now }
{
    if is_free(circuit, phase, group) {
        Some(Source::Group(number))
    } else {
        None
    }
}

/// Adds the groups that have a variable.
#[tactic(auto, using(vrt_model::proofs::Lists::pushed))]
fn add_groups(
    sources: &mut Seq<Source>,
    circuit: &Circuit,
    phase: u32,
    groups: &[Group],
) -> Result<(), NoMemory>
    ensures { OnOk result (sources.new ≡ sources.old ++ group_sources circuit.now phase 0 groups.now) }
{
    let mut number = 0;
    let mut rest = groups;
    'groups: while let Some((group, behind)) = rest.split_first() {
        add_some(sources, group_at(circuit, phase, number, group))?;
        number = next(number)?;
        rest = behind;
    }
    Ok(())
}

/// Adds what each variable stands for, where there is none yet.
pub(crate) fn add_sources(
    sources: &mut Seq<Source>,
    circuit: &Circuit,
    elements: &[Text],
    groups: &[Group],
    phase: u32,
) -> Result<(), NoMemory>
    requires { sources.old ≡ [] }
    ensures { OnOk result (sources.new ≡ sources_by circuit.now elements.now groups.now phase) }
{
    add_inputs(sources, circuit.nets.as_slice())?;
    add_elements(sources, elements)?;
    add_groups(sources, circuit, phase, groups)?;
    Ok(())
}
