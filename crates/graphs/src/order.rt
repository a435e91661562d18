//! The order of a graph, or its first cycle.

ghost use Rattle.std.specs.Prelude.{IfOk};
ghost use Rattle.graphs.specs.Graphs.{AreInside};
ghost use Rattle.graphs.specs.Orders.{OrderGives};

use crate::cycle::first_cycle;
use crate::levels::{all_levelled, placing_of};
use std::alloc::Global;
use vrt_model::{NoMemory, Seq};

/// The numbers of a graph, each behind those from which arcs lead to it, or a cycle of arcs, which begins with the
/// least number on any.
#[derive(Drop)]
pub enum Order {
    /// All numbers, each once.
    Steps(Seq<u32>),
    /// The numbers of the cycle, in the order of its arcs.
    Cycle(Seq<u32>),
}

/// An order of a graph, where the arcs have no cycle, and else the first cycle. Nothing but want of memory refuses,
/// which a graph of more than 2^32 numbers is too. The search is over each arc a few times.
pub fn order_of(alloc: Global, sources: &[Seq<u32>]) -> Result<Order, NoMemory>
    requires { AreInside sources.now }
    ensures { IfOk result (λ o. OrderGives sources.now o) }
{
    let placing = placing_of(alloc, sources)?;
    if all_levelled(placing.levels.as_slice()) {
        return Ok(Order::Steps(placing.steps));
    }
    let around = first_cycle(alloc, sources)?;
    match around {
        Some(nodes) => Ok(Order::Cycle(nodes)),
        None => unreachable!(),
    }
}
