//! The groups of a cell.

ghost use Rattle.std.specs.Prelude.{◌≡◌, [], OnOk};
ghost use Rattle.vrt_model.specs.Circuits.{IsCircuit};
ghost use Rattle.vrt_model.specs.Comparison.{cell_at};
ghost use Rattle.vrt_model.specs.Elements.{element_names};
ghost use Rattle.vrt_model.specs.Groups.{holds_by_net};
ghost use Rattle.hold_groups.specs.Elements.{IsTable};
ghost use Rattle.hold_groups.specs.Grouped.{GroupsGive, groups_in};

use crate::elements::ElementTable;
use crate::faults::MatchFault;
use crate::grouping::list_groups;
use crate::unmatched::unmatched;
use std::alloc::Global;
use vrt_model::{Circuit, Design, FlatModel, Group, NoMemory, Rules, Seq};

/// The name of a cell, empty where there is none.
fn cell_name(design: &Design, cell: u32) -> &[u8]
    ensures { result.now ≡ (cell_at design.now cell).name }
{
    match design.cells.get(cell as usize) {
        Some(cell) => cell.name.as_bytes(),
        None => &[],
    }
}

/// Fills in the elements of a model and the groups of a circuit, where there are none yet.
fn fill(
    groups: &mut Seq<Group>,
    elements: &mut ElementTable,
    alloc: Global,
    circuit: &Circuit,
    flat: &FlatModel,
) -> Result<(), NoMemory>
    requires circuit { IsCircuit circuit.now }
    requires groups { groups.old ≡ [] }
    requires list { elements.old.list ≡ [] }
    requires names { elements.old.names ≡ [] }
    ensures list { OnOk result (elements.new.list ≡ element_names flat.now) }
    ensures table { OnOk result (IsTable elements.new) }
    ensures groups { OnOk result (groups.new ≡ groups_in (element_names flat.now) (holds_by_net circuit.now)) }
{
    elements.fill(alloc, flat)?;
    list_groups(groups, alloc, circuit, elements)
}

/// The groups of a cell: holds whose `match` lines lead to the same end share one bit, and a group reaches a latch where
/// that end is an element of the cell's flat model. Groups stand in the order of their least nets, and so do the members of
/// each. `Unmatched` comes exactly where an element has no group, or a `match` line of the cell names no element: it has
/// the first such element, else the latch of the first such line.
pub fn groups(
    alloc: Global,
    design: &Design,
    circuit: &Circuit,
    flat: &FlatModel,
    rules: &Rules,
    cell: u32,
) -> Result<Seq<Group>, MatchFault>
    requires { IsCircuit circuit.now }
    ensures { GroupsGive design.now circuit.now flat.now rules.now cell result }
{
    let mut groups = Seq::new(alloc);
    let mut elements = ElementTable::new(alloc);
    match fill(&mut groups, &mut elements, alloc, circuit, flat) {
        Ok(()) => {}
        Err(_) => return Err(MatchFault::NoMemory),
    }
    let name = cell_name(design, cell);
    match unmatched(alloc, rules, name, &elements, groups.as_slice()) {
        Ok(None) => Ok(groups),
        Ok(Some(name)) => Err(MatchFault::Unmatched { name }),
        Err(_) => Err(MatchFault::NoMemory),
    }
}
