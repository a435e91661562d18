//! What it takes to solve a part.

use crate::board::Board;
use crate::stop::Stop;
use crate::words::{Measure, number};
use anyhow::Result;
use std::time::Instant;
use vrt_model::Circuit;

/// A part that was solved: its nets and devices, the nodes of the store before and after, and the time in microseconds.
#[derive(Clone, Copy)]
struct Solved {
    nets: usize,
    devices: usize,
    before: u32,
    after: u32,
    micros: u128,
}

/// Solves the part of a circuit in a new store.
fn solve(rt: HostRuntime, circuit: &Circuit, budget: u32) -> Result<Solved> {
    let mut board = Board::open(rt.alloc(), circuit, budget)?;
    let (nets, devices) = board.size();
    let before = board.store.node_count();
    let start = Instant::now(&rt)?;
    let solved = board.solve(circuit)?;
    let micros = start.elapsed(&rt)?.as_micros();
    if solved.is_err() {
        return Err(Stop::Spent.into());
    }
    Ok(Solved {
        nets,
        devices,
        before,
        after: board.store.node_count(),
        micros,
    })
}

/// Solves it so many times, at least once, and gives the time that took least.
fn solve_often(rt: HostRuntime, circuit: &Circuit, budget: u32, times: u32) -> Result<Solved> {
    let mut best = solve(rt, circuit, budget)?;
    for _ in 1..times {
        let next = solve(rt, circuit, budget)?;
        if next.micros < best.micros {
            best = next;
        }
    }
    Ok(best)
}

/// Tells the size of a part, and the nodes.
fn tell(rt: HostRuntime, solved: Solved) -> Result<()> {
    let Solved {
        nets,
        devices,
        before,
        after,
        ..
    } = solved;
    print!(rt; "part: {nets} nets, {devices} devices, {before} nodes, {after} when solved")?;
    Ok(())
}

/// Tells what it takes to solve the part of a circuit.
pub(crate) fn measure(
    rt: HostRuntime,
    circuit: &Circuit,
    what: Measure,
    numbers: &[u32],
) -> Result<()> {
    let budget = number(numbers, 0)?;
    match what {
        Measure::Nodes => {
            tell(rt, solve(rt, circuit, budget)?)?;
            println!(rt; "")?;
        }
        Measure::Time => {
            let best = solve_often(rt, circuit, budget, number(numbers, 1)?)?;
            tell(rt, best)?;
            let micros = best.micros;
            println!(rt; ", {micros} microseconds")?;
        }
    }
    Ok(())
}
