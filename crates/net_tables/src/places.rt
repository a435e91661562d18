//! The nets of the places of an unrolled netlist.

ghost use Rattle.std.specs.Prelude.{◌≡◌, ◌<◌, ◌+◌, ◌^◌, ℕ, List};
ghost use Rattle.net_tables.specs.Nets.{net_in};
ghost use Rattle.net_tables.specs.Places.{ArePlaceNets, IsNamedAt, net_or_first, number_by};
ghost use Rattle.net_tables.specs.declared.types.CellNet.TheVariants.{Own};
ghost use Rattle.vrt_model.specs.Comparison.{cell_at};
ghost use Rattle.vrt_model.specs.Unrolled.{Place, Top, net_at, supply_net};

use crate::types::CellNet;
use vrt_model::Net;

/// A net of a list, the first where there is none.
fn net_or_first(nets: &[Net], at: usize) -> Net
    ensures { result ≡ net_or_first nets.now at }
{
    match nets.get(at) {
        Some(net) => *net,
        None => Net(0),
    }
}

/// The flat net of a supply.
fn supply_net(value: bool) -> Net
    ensures { result.0 ≡ supply_net value }
{
    if value { Net(1) } else { Net(0) }
}

/// The flat net of a net of a cell, at a place where the cell stands in the unrolled netlist. The supplies are nets 0 and
/// 1; a port is the net that it is tied to at the place; a global net is one net everywhere; and the own nets of a place
/// follow one another.
///
/// `ports` are the flat nets of the place's ports, `base` the one of its first own net, and `globals` those of the nets on
/// `.global` cards.
pub fn place_net(net: CellNet, ports: &[Net], base: u32, globals: &[Net]) -> Net
    requires { (i : ℕ) → net ≡ Own i → base + i < 2 ^ 32 }
    ensures number { result.0 ≡ number_by ports.now base globals.now net }
    ensures net { (t : Top) (at : Place) (name : List ℕ) → ArePlaceNets t at ports.now base globals.now → IsNamedAt t at name → net ≡ net_in t.design t.rules (cell_at t.design at.cell) name → result.0 ≡ net_at t at name }
{
    match net {
        CellNet::Supply(value) => supply_net(value),
        CellNet::Port(place) => net_or_first(ports, place),
        CellNet::Global(place) => net_or_first(globals, place),
        CellNet::Own(place) => Net(base + place as u32),
    }
}
