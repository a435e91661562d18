//! The care set of a phase, over its variables.

ghost use Rattle.hold_groups.specs.Grouped.{AreGroups};

use crate::board::Board;
use crate::checks::{are_live, is_live};
use crate::inputs::has_inputs;
use crate::stop::Stop;
use crate::texts::Given;
use crate::values::add_bits;
use bdd_core::{H, ONE, Store};
use constraints::care;
use node_pool::Span;
use row_script::Page;
use vrt_model::{Group, Seq, Vars};

/// The care set of the first cell.
fn cared(
    store: &mut Store,
    roots: Span,
    given: Given<'_>,
    groups: &Seq<Group>,
    vars: &Vars,
    phase: u32,
) -> Result<H, Stop>
    requires { AreGroups given.circuit.now groups.now }
{
    if !is_live(store, roots) || roots.len as usize != given.circuit.nets.len() {
        return Err(Stop::Unfit);
    }
    if vars.sources.len() > store.vars() as usize || !are_live(store, roots) {
        return Err(Stop::Unfit);
    }
    if !has_inputs(store, given.circuit, vars.sources.as_slice(), roots) {
        return Err(Stop::Unfit);
    }
    let (design, rules, circuit) = (given.design, given.rules, given.circuit);
    Ok(care(store, design, rules, 0, circuit, groups, vars, phase, roots)?)
}

/// Tells the bits of the care set in a phase.
pub(crate) fn tell(
    page: &mut Page,
    given: Given<'_>,
    groups: &Seq<Group>,
    vars: &Vars,
    phase: u32,
) -> Result<(), Stop>
    requires { AreGroups given.circuit.now groups.now }
{
    let mut board = Board::open(page.alloc(), given.circuit.nets.len(), vars.sources.len())?;
    board.put_inputs(given.circuit)?;
    let f = cared(&mut board.store, board.values, given, groups, vars, phase)?;
    page.word("variables");
    page.behind_blank(board.store.vars());
    page.word(", care ");
    add_bits(page, &board.store, ONE, f)
}
