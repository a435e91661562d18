//! The clear paths of a circuit, asked for by sums of products of its inputs.

use crate::board::{Board, Entry};
use crate::stop::Stop;
use crate::words::{Path, number};
use anyhow::Result;
use bdd_core::{H, ONE, Spent, Store, ZERO};
use bdd_ops::{and, not, or};
use std::alloc::Global;
use vrt_model::{Circuit, Net};

/// A circuit's part with its words, whether the budget was used up, and a sum of products.
pub struct Solved {
    board: Board,
    spent: Option<Spent>,
    sum: H,
}

/// By hand, so that letting go of one is a call.
impl Drop for Solved {
    fn drop(self) {
        let Solved {
            board: _board,
            spent: _spent,
            sum: _sum,
        } = self;
    }
}

/// Tells what a line asks for, or adds to the sum of products.
pub(crate) fn follow_path(
    rt: HostRuntime,
    circuit: &Circuit,
    paths: &mut Option<Solved>,
    what: Path,
    numbers: &[u32],
) -> Result<()> {
    if let Path::Solve = what {
        let solved = solve(rt.alloc(), circuit, number(numbers, 0)?)?;
        tell_solved(rt, &solved)?;
        *paths = Some(solved);
        return Ok(());
    }
    match paths.as_mut() {
        Some(solved) => solved.follow(rt, what, numbers),
        None => Err(Stop::NotRead.into()),
    }
}

/// Solves the part of a circuit.
fn solve(alloc: Global, circuit: &Circuit, budget: u32) -> Result<Solved, Stop> {
    let mut board = Board::open(alloc, circuit, budget)?;
    let spent = board.solve(circuit)?.err();
    Ok(Solved {
        board,
        spent,
        sum: ZERO,
    })
}

/// Tells whether a part was solved, or the budget and the nodes of the store.
fn tell_solved(rt: HostRuntime, solved: &Solved) -> Result<()> {
    let nodes = solved.board.store.node_count();
    match solved.spent {
        None => println!(rt; "paths: solved")?,
        Some(spent) => println!(rt; "paths: {spent:?}, {nodes} nodes")?,
    }
    Ok(())
}

/// The function that is 1 where both are.
fn both(store: &mut Store, f: H, g: H) -> Result<H, Stop> {
    let count = store.node_count();
    if f.0 >= count || g.0 >= count {
        return Err(Stop::Unfit);
    }
    Ok(and(store, f, g)?)
}

/// The function that is 1 where one of them or both are.
fn either(store: &mut Store, f: H, g: H) -> Result<H, Stop> {
    let count = store.node_count();
    if f.0 >= count || g.0 >= count {
        return Err(Stop::Unfit);
    }
    Ok(or(store, f, g)?)
}

/// The complement.
fn complement(store: &mut Store, f: H) -> Result<H, Stop> {
    if f.0 >= store.node_count() {
        return Err(Stop::Unfit);
    }
    Ok(not(store, f)?)
}

impl Solved {
    fn follow(&mut self, rt: HostRuntime, what: Path, numbers: &[u32]) -> Result<()> {
        match what {
            Path::Product => self.add_product(numbers)?,
            Path::Complement => self.add_complement(number(numbers, 0)?)?,
            Path::Level => self.tell(rt, Entry::Level(number(numbers, 0)?), number(numbers, 1)?)?,
            Path::Zeros => self.tell(rt, Entry::Value(false), number(numbers, 0)?)?,
            Path::Ones => self.tell(rt, Entry::Value(true), number(numbers, 0)?)?,
            Path::Solve => {}
        }
        Ok(())
    }

    /// Adds the product of inputs to the sum.
    fn add_product(&mut self, nets: &[u32]) -> Result<(), Stop> {
        let mut product = ONE;
        for net in nets {
            let gate = self.board.gate(*net);
            product = both(&mut self.board.store, product, gate)?;
        }
        self.sum = either(&mut self.board.store, self.sum, product)?;
        Ok(())
    }

    /// Adds the complement of an input to the sum.
    fn add_complement(&mut self, net: u32) -> Result<(), Stop> {
        let gate = self.board.gate(net);
        let off = complement(&mut self.board.store, gate)?;
        self.sum = either(&mut self.board.store, self.sum, off)?;
        Ok(())
    }

    /// Whether an entry of a net is the sum. A new sum begins.
    fn is_sum(&mut self, entry: Entry, net: u32) -> Result<bool, Stop> {
        let Some(place) = self.board.place(Net(net)) else {
            return Err(Stop::NotRead);
        };
        let is_sum = self.board.entry(place, entry) == self.sum;
        self.sum = ZERO;
        Ok(is_sum)
    }

    /// Tells whether an entry of a net is the sum.
    fn tell(&mut self, rt: HostRuntime, entry: Entry, net: u32) -> Result<()> {
        let is_sum = self.is_sum(entry, net)?;
        match entry {
            Entry::Value(false) => println!(rt; "paths: 0 reaches net {net} as told: {is_sum}")?,
            Entry::Value(true) => println!(rt; "paths: 1 reaches net {net} as told: {is_sum}")?,
            Entry::Level(level) => println!(rt;
                "paths: net {net} has level {level} as told: {is_sum}"
            )?,
        }
        Ok(())
    }
}
