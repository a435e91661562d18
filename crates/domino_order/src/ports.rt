//! The search of the ports that rise, one after the other.

ghost use Rattle.std.specs.Prelude.{◌≡◌, ◌<◌, length, IfOk};
ghost use Rattle.domino_order.specs.Ports.{PortsGive};
ghost use Rattle.domino_order.specs.Runs.{IsAsked};
ghost use Rattle.domino_order.specs.Searches.{HasRoom};

use crate::arrival::Arrival;
use crate::found::NetFound;
use crate::prepared::Asked;
use crate::search::search_net;
use bdd_core::Store;
use std::alloc::Global;
use vrt_model::NoMemory;

/// The first of some ports of whose net a step fails, where `ports` are in the order of the nets that rise: its number and the least bits of such a
/// step. `Yes` where each step of each holds.
///
/// `Budget` comes only with more than four variables and arrivals, where the operations of one run may add more nodes than the budget has.
pub fn search_ports(
    store: &mut Store,
    alloc: Global,
    budget: u32,
    asked: Asked<'_>,
    ports: &[u32],
) -> Result<Arrival, NoMemory>
    requires asked { IsAsked asked }
    requires room { HasRoom asked store.old }
    requires budget { store.old.budget ≡ budget }
    requires ports { length ports.now ≡ length asked.rising.nets.now }
    ensures gives { IfOk result (PortsGive asked.entry ports.now budget) }
{
    store.sound();
    let nets = asked.rising.nets;
    for i in 0..nets.len() {
        let found = search_net(store, alloc, asked, nets[i])?;
        match found {
            NetFound::Holds => {}
            NetFound::Fails(valuation) => {
                return Ok(Arrival::No {
                    port: ports[i],
                    valuation,
                });
            }
            NetFound::Spent => return Ok(Arrival::Budget { nodes: budget }),
        }
    }
    Ok(Arrival::Yes)
}
