//! The held values of the holds of the first cell, over the variables of a phase.

ghost use Rattle.hold_groups.specs.Grouped.{AreGroups};
ghost use Rattle.vrt_model.specs.Circuits.{IsCircuit};

use crate::board::{Board, word};
use crate::checks::is_live;
use crate::stop::Stop;
use crate::values::add_net;
use bdd_core::{ONE, Store};
use hold_keep::held_roots;
use node_pool::Span;
use row_script::Page;
use vrt_model::{Circuit, Group, Seq, Vars};

/// Writes the held values.
fn write(
    store: &mut Store,
    values: Span,
    circuit: &Circuit,
    groups: &Seq<Group>,
    vars: &Vars,
    phase: u32,
) -> Result<(), Stop>
    requires circuit { IsCircuit circuit.now }
    requires groups { AreGroups circuit.now groups.now }
{
    if !is_live(store, values) || values.len as usize != circuit.nets.len() {
        return Err(Stop::Unfit);
    }
    if vars.sources.len() > store.vars() as usize {
        return Err(Stop::Unfit);
    }
    Ok(held_roots(store, circuit, groups, vars, phase, values)?)
}

/// Tells the held value of each hold in a phase.
pub(crate) fn tell(
    page: &mut Page,
    circuit: &Circuit,
    groups: &Seq<Group>,
    vars: &Vars,
    phase: u32,
) -> Result<(), Stop>
    requires circuit { IsCircuit circuit.now }
    requires groups { AreGroups circuit.now groups.now }
{
    let mut board = Board::open(page.alloc(), circuit.nets.len(), vars.sources.len())?;
    write(&mut board.store, board.values, circuit, groups, vars, phase)?;
    page.word("variables");
    page.behind_blank(board.store.vars());
    for hold in circuit.holds.as_slice() {
        page.word(", ");
        let held = word(&board.store, board.values, hold.net.0);
        add_net(page, &board.store, circuit, hold.net.0, ONE, held)?;
    }
    Ok(())
}
