//! The names of places.

ghost use Rattle.std.specs.Prelude.{◌≡◌, ◌<◌, [], length, option_map, slice_get, unwrap_or, IfOk};
ghost use Rattle.phase_terms.specs.Ready.{comparison_in};
ghost use Rattle.vrt_model.specs.Comparison.{cell_at, net_name};
ghost use Rattle.vrt_model.specs.Faults.{place_name};
ghost use Rattle.vrt_model.specs.declared.circuit.FlatInstance.{FlatInstance as InstanceValue};

use phase_terms::Comparison;
use std::alloc::Global;
use vrt_model::{Circuit, Design, FaultKind, NoMemory, Seq, Text};

/// The name of a net of a circuit.
fn name_of_net(alloc: Global, circuit: &Circuit, net: u32) -> Result<Text, NoMemory>
    ensures { IfOk result (λ name. name ≡ net_name circuit.now net) }
{
    match circuit.nets.get(net as usize) {
        Some(net) => Text::from_bytes(alloc, net.name.as_bytes()),
        None => Ok(Text::new(alloc)),
    }
}

/// The path of an instance of a circuit.
fn path_of_instance(alloc: Global, circuit: &Circuit, place: u32) -> Result<Text, NoMemory>
    ensures { IfOk result (λ path. path ≡ unwrap_or (option_map (λ (i : InstanceValue). i.path) (slice_get circuit.now.instances place)) []) }
{
    match circuit.instances.get(place as usize) {
        Some(instance) => Text::from_bytes(alloc, instance.path.as_bytes()),
        None => Ok(Text::new(alloc)),
    }
}

/// The name of a port of a cell.
fn name_of_port(alloc: Global, design: &Design, cell: u32, place: u32) -> Result<Text, NoMemory>
    requires { cell < length design.now.cells }
    ensures { IfOk result (λ name. name ≡ unwrap_or (slice_get (cell_at design.now cell).ports place) []) }
{
    let cells = design.cells.as_slice();
    match cells[cell as usize].ports.get(place as usize) {
        Some(name) => Text::from_bytes(alloc, name.as_bytes()),
        None => Ok(Text::new(alloc)),
    }
}

/// The name of the place of a fault: that of a net, for `Constraint` the path of an instance, for `Differs` the name of a port.
pub(crate) fn name_of_place(
    alloc: Global,
    compared: Comparison<'_>,
    kind: FaultKind,
    place: u32,
) -> Result<Text, NoMemory>
    requires { compared.cell < length compared.design.now.cells }
    ensures { IfOk result (λ name. name ≡ place_name (comparison_in compared.entry) kind place) }
{
    match kind {
        FaultKind::Constraint => path_of_instance(alloc, compared.circuit, place),
        FaultKind::Differs => name_of_port(alloc, compared.design, compared.cell, place),
        _ => name_of_net(alloc, compared.circuit, place),
    }
}

/// Copies of texts.
pub(crate) fn copies_of(alloc: Global, texts: &[Text]) -> Result<Seq<Text>, NoMemory>
    ensures { IfOk result (λ copies. copies ≡ texts.now) }
{
    let mut copies = Seq::new(alloc);
    for text in texts {
        copies.append(Text::from_bytes(alloc, text.as_bytes())?)?;
    }
    Ok(copies)
}
