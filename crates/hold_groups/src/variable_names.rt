//! The names of latch elements and of variables.

ghost use Rattle.std.specs.Prelude.{◌≡◌, ◌++◌, [], map, slice_get, unwrap_or, OnOk};
ghost use Rattle.vrt_model.specs.Comparison.{net_name};
ghost use Rattle.vrt_model.specs.Elements.{element_names, names_by_kind, signal_name};
ghost use Rattle.vrt_model.specs.Variables.{least_net};
ghost use Rattle.hold_groups.specs.Sources.{elements_of, group_name, name_in};

use crate::lists::{add_longer, add_name};
use std::alloc::Global;
use vrt_model::{Circuit, FlatLatch, FlatModel, Group, LatchKind, NoMemory, Seq, Source, Text};

/// The name of a signal, empty where there is none.
fn signal_name(flat: &FlatModel, signal: u32) -> &[u8]
    ensures { result.now ≡ signal_name flat.now signal }
{
    match flat.signals.get(signal as usize) {
        Some(name) => name.as_bytes(),
        None => &[],
    }
}

/// Adds the names of the elements of a latch with this output: of an edge-triggered one the master first.
fn add_latch(
    alloc: Global,
    names: &mut Seq<Text>,
    kind: LatchKind,
    output: &[u8],
) -> Result<(), NoMemory>
    ensures { OnOk result (names.new ≡ names.old ++ names_by_kind kind output.now) }
{
    let is_edge = matches!(kind, LatchKind::Re | LatchKind::Fe);
    if is_edge {
        add_longer(alloc, names, output, b"#m")?;
    }
    add_name(alloc, names, output)
}

/// Adds the names of the elements of all latches.
fn add_latches(
    alloc: Global,
    names: &mut Seq<Text>,
    flat: &FlatModel,
    latches: &[FlatLatch],
) -> Result<(), NoMemory>
    ensures { OnOk result (names.new ≡ names.old ++ elements_of flat.now latches.now) }
{
    let mut rest = latches;
    'latches: while let Some((latch, behind)) = rest.split_first() {
        add_latch(alloc, names, latch.kind, signal_name(flat, latch.output))?;
        rest = behind;
    }
    Ok(())
}

/// Adds the names of the elements of a model, where there is none yet.
pub(crate) fn add_element_names(
    alloc: Global,
    names: &mut Seq<Text>,
    flat: &FlatModel,
) -> Result<(), NoMemory>
    requires { names.old ≡ [] }
    ensures { OnOk result (names.new ≡ element_names flat.now) }
{
    add_latches(alloc, names, flat, flat.latches.as_slice())
}

/// The name of a net, empty where there is none.
fn net_name(circuit: &Circuit, net: usize) -> &[u8]
    ensures { result.now ≡ net_name circuit.now net }
{
    match circuit.nets.get(net) {
        Some(net) => net.name.as_bytes(),
        None => &[],
    }
}

/// The least net of a group, 0 where there is none.
fn least_net(circuit: &Circuit, group: &Group) -> usize
    ensures { result ≡ least_net circuit.now group.now }
{
    let first = match group.members.get(0) {
        Some(member) => member.hold as usize,
        None => 0,
    };
    match circuit.holds.get(first) {
        Some(hold) => hold.net.0 as usize,
        None => 0,
    }
}

/// The name of an element, empty where there is none.
fn element_name(elements: &[Text], element: usize) -> &[u8]
    ensures { result.now ≡ unwrap_or (slice_get elements.now element) [] }
{
    match elements.get(element) {
        Some(name) => name.as_bytes(),
        None => &[],
    }
}

/// The name of the least net of a group, empty where there is none.
fn group_name<'a>(circuit: &'a Circuit, groups: &[Group], group: usize) -> &'a [u8]
    ensures { result.now ≡ group_name circuit.now groups.now group }
{
    match groups.get(group) {
        Some(group) => net_name(circuit, least_net(circuit, group)),
        None => &[],
    }
}

/// The name of a variable.
fn name_of<'a>(
    circuit: &'a Circuit,
    elements: &'a [Text],
    groups: &[Group],
    source: Source,
) -> &'a [u8]
    ensures { result.now ≡ name_in circuit.now elements.now groups.now source }
{
    match source {
        Source::Input(net) => net_name(circuit, net.0 as usize),
        Source::Element(element) => element_name(elements, element as usize),
        Source::Group(group) => group_name(circuit, groups, group as usize),
    }
}

/// Adds the names of variables, where there is none yet.
pub(crate) fn add_names(
    alloc: Global,
    names: &mut Seq<Text>,
    circuit: &Circuit,
    elements: &[Text],
    groups: &[Group],
    sources: &[Source],
) -> Result<(), NoMemory>
    requires { names.old ≡ [] }
    ensures { OnOk result (names.new ≡ map (name_in circuit.now elements.now groups.now) sources.now) }
{
    for source in sources {
        add_name(alloc, names, name_of(circuit, elements, groups, *source))?;
    }
    Ok(())
}
