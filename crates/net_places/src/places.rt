//! Places.

ghost use Rattle.std.specs.Prelude.{◌≡◌, ◌<◌, IfOk, map};
ghost use Rattle.net_places.specs.Places.{HasRoomFor, inner_place, name_at, net_of};
ghost use Rattle.vrt_model.specs.Lists.{path_name};

use net_tables::{CellNet, InstanceNets, place_net};
use std::alloc::Global;
use vrt_model::{Design, Net, NoMemory, Seq, Text};

/// A cell at its place in an unrolled netlist. The places of a cell are numbered: the cell itself is the first, and each
/// instance stands before those inside it, and all of these before the next card.
pub struct Place {
    /// The number of the cell, from 0 in the order of the `.subckt` cards.
    pub cell: usize,
    /// The number of the place around it, 0 for the whole.
    pub around: usize,
    /// The number of its instance card in the cell around it, from 0.
    pub card: usize,
    /// How many places stand around it.
    pub depth: u32,
    /// The path to it, as `x1/x2`; empty for the whole.
    pub path: Text,
    /// The flat nets of its ports.
    pub ports: Seq<Net>,
    /// The flat net of its first own net. The others follow.
    pub base: u32,
}

/// By hand, so that letting go of one is a call.
impl Drop for Place {
    fn drop(self) {
        let Place {
            cell: _cell,
            around: _around,
            card: _card,
            depth: _depth,
            path: _path,
            ports: _ports,
            base: _base,
        } = self;
    }
}

/// A copy of nets.
pub(crate) fn copy_nets(alloc: Global, nets: &[Net]) -> Result<Seq<Net>, NoMemory>
    ensures { IfOk result (λ copy. copy ≡ nets.now) }
{
    let mut copy = Seq::new(alloc);
    for net in nets {
        copy.append(*net)?;
    }
    Ok(copy)
}

/// A copy of a place.
pub(crate) fn copy_place(alloc: Global, place: &Place) -> Result<Place, NoMemory>
    ensures { IfOk result (λ copy. copy ≡ place.now) }
{
    let path = Text::from_bytes(alloc, place.path.as_bytes())?;
    let ports = copy_nets(alloc, place.ports.as_slice())?;
    Ok(Place {
        cell: place.cell,
        around: place.around,
        card: place.card,
        depth: place.depth,
        path,
        ports,
        base: place.base,
    })
}

/// The flat nets of nets of a place's cell.
fn flat_nets(
    alloc: Global,
    place: &Place,
    globals: &[Net],
    nets: &[CellNet],
) -> Result<Seq<Net>, NoMemory>
    requires { HasRoomFor place.now.base nets.now }
    ensures { IfOk result (λ flat. flat ≡ map (net_of place.now globals.now) nets.now) }
{
    let ports = place.ports.as_slice();
    let mut flat = Seq::new(alloc);
    for net in nets {
        flat.append(place_net(*net, ports, place.base, globals))?;
    }
    Ok(flat)
}

/// The name on an instance card of a cell, empty where there is no such card.
fn instance_name(design: &Design, cell: usize, card: usize) -> &[u8]
    ensures { result.now ≡ name_at design.now cell card }
{
    match design.cells.get(cell) {
        Some(found) => match found.instances.get(card) {
            Some(instance) => instance.name.as_bytes(),
            None => [].as_slice(),
        },
        None => [].as_slice(),
    }
}

/// The path of something in an instance.
pub(crate) fn inner_path(alloc: Global, path: &Text, name: &[u8]) -> Result<Text, NoMemory>
    ensures { IfOk result (λ text. text ≡ path_name path.now name.now) }
{
    if path.is_empty() {
        return Text::from_bytes(alloc, name);
    }
    let mut text = Text::from_bytes(alloc, path.as_bytes())?;
    text.extend(b"/")?;
    text.extend(name)?;
    Ok(text)
}

/// The path of an instance in a place, by the number of its card.
fn instance_path(
    alloc: Global,
    design: &Design,
    place: &Place,
    card: usize,
) -> Result<Text, NoMemory>
    ensures { IfOk result (λ text. text ≡ path_name place.now.path (name_at design.now place.now.cell card)) }
{
    inner_path(alloc, &place.path, instance_name(design, place.cell, card))
}

/// The place of an instance in a place that has a number. Its own nets are those from a net on.
pub(crate) fn place_inside(
    alloc: Global,
    design: &Design,
    globals: &[Net],
    around: usize,
    place: &Place,
    card: usize,
    instance: &InstanceNets,
    base: u32,
) -> Result<Place, NoMemory>
    requires room { HasRoomFor place.now.base instance.now.nets }
    requires deep { place.now.depth < 32 }
    ensures { IfOk result (λ inner. inner ≡ inner_place design.now globals.now around place.now card base instance.now) }
{
    let path = instance_path(alloc, design, place, card)?;
    let ports = flat_nets(alloc, place, globals, instance.nets.as_slice())?;
    Ok(Place {
        cell: instance.cell,
        around,
        card,
        depth: place.depth + 1,
        path,
        ports,
        base,
    })
}
