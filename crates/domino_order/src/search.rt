//! The search of a net for the least step that fails.

ghost use Rattle.std.specs.Prelude.{◌≡◌, ℕ, ◌+◌, ◌*◌, ◌≤◌, length, take, true, IfOk};
ghost use Rattle.domino_order.specs.Runs.{IsAsked};
ghost use Rattle.domino_order.specs.Searches.{FoundIs, HasRoom, NetGives};
ghost use Rattle.vrt_model.specs.Lists.{has_number};

use crate::found::NetFound;
use crate::prepared::Asked;
use crate::runs::run;
use bdd_core::Store;
use node_pool::Mark;
use std::alloc::Global;
use vrt_model::{NoMemory, Valuation};

/// Leaves all nodes and words of a store.
fn leave_all(store: &mut Store)
    requires own { store.old.own ≤ length store.old.words }
    requires nodes { 2 ≤ length store.old.nodes }
    ensures { store.new ≡ record store.old { nodes = take 2 store.old.nodes; words = take store.old.own store.old.words } }
{
    store.sound();
    let words = store.own_words();
    store.leave(Mark { nodes: 2, words });
}

/// What the last answer says, where nothing is below it.
fn found_of(last: Option<Valuation>) -> NetFound
    ensures { FoundIs last result }
{
    match last {
        None => NetFound::Holds,
        Some(bits) => NetFound::Fails(bits),
    }
}

/// Whether a step fails at which the net rises, and the least bits of those that do. The net is asked at every valuation at once; where something is
/// found, the store is left, and the net is asked again below what was found, until nothing is. Want of memory is the only refusal.
///
/// `Spent` comes only with more than four variables and arrivals, where the operations of one run may add more nodes than the budget has.
pub fn search_net(
    store: &mut Store,
    alloc: Global,
    asked: Asked<'_>,
    net: u32,
) -> Result<NetFound, NoMemory>
    requires asked { IsAsked asked }
    requires room { HasRoom asked store.old }
    requires net { has_number asked.rising.nets.now net ≡ true }
    ensures gives { IfOk result (NetGives asked.entry net store.old.budget) }
    ensures room { HasRoom asked.entry store.new }
    ensures budget { store.new.budget ≡ store.old.budget }
{
    store.sound();
    let mut last: Option<Valuation> = None;
    'runs: loop {
        leave_all(store);
        match run(store, alloc, asked, net, &last)? {
            NetFound::Holds => return Ok(found_of(last)),
            NetFound::Fails(bits) => last = Some(bits),
            NetFound::Spent => return Ok(NetFound::Spent),
        }
    }
}
