//! Outputs joined to functions, one after the other.

ghost use Rattle.std.specs.Prelude.{◌≡◌, ◌<◌, ◌*◌, ℕ, All, OnOk, length};
ghost use Rattle.bdd_core.specs.Store.{AddsNodes, IsLive, IsSpan, function_of};
ghost use Rattle.bdd_core.specs.Words.{IsFilled, shows};
ghost use Rattle.bdd_ops.specs.Counting.{Counts};
ghost use Rattle.output_joins.specs.Joins.{AreLive, HasJoined, IsOutputWithin, one_of, part_of, parts_of};
ghost use Rattle.phase_terms.specs.Stores.{IsUsed};

use bdd_core::{H, Spent, Store};
use bdd_ops::{and, or};
use node_pool::Span;
use phase_wishes::{Wanted, Wish};

/// Joins the bit of a net to the function of a signal: it becomes 1 in the care set where the net is 1.
fn join_output(
    store: &mut Store,
    functions: &mut Vec<H>,
    care: H,
    gate: H,
    signal: u32,
) -> Result<(), Spent>
    requires functions { AreLive store.old functions.old.items }
    requires care { IsLive store.old care }
    requires gate { IsLive store.old gate }
    requires within { signal < length functions.old.items }
    ensures adds { AddsNodes store.old store.new }
    ensures joined { OnOk result (HasJoined (one_of (function_of store.old care) (function_of store.old gate) signal) store.old functions.old.items store.new functions.new.items) }
    ensures counts { (u made : ℕ) → IsUsed store.old.budget u made store.old → Counts u 2 store.old store.new result }
{
    store.sound();
    let here = match and(store, care, gate) {
        Ok(here) => here,
        Err(spent) => return Err(spent),
    };
    let before = functions[signal as usize];
    match or(store, before, here) {
        Ok(all) => {
            functions[signal as usize] = all;
            Ok(())
        }
        Err(spent) => Err(spent),
    }
}

/// Joins the output that a wish is of.
fn join_wish(
    store: &mut Store,
    functions: &mut Vec<H>,
    wish: Wish,
    care: H,
    gates: Span,
) -> Result<(), Spent>
    requires functions { AreLive store.old functions.old.items }
    requires care { IsLive store.old care }
    requires gates { IsSpan store.old gates }
    requires filled { IsFilled store.old gates }
    requires within { IsOutputWithin gates.len (length functions.old.items) wish }
    ensures adds { AddsNodes store.old store.new }
    ensures joined { OnOk result (HasJoined (part_of (function_of store.old care) (shows store.old gates) wish) store.old functions.old.items store.new functions.new.items) }
    ensures counts { (u made : ℕ) → IsUsed store.old.budget u made store.old → Counts u 2 store.old store.new result }
{
    store.sound();
    match wish.wanted {
        Wanted::Signal(signal) => {
            let gate = H(store.read(gates, wish.net.0));
            join_output(store, functions, care, gate, signal)
        }
        Wanted::Element { .. } => Ok(()),
        Wanted::Other { .. } => Ok(()),
        Wanted::Constant(_) => Ok(()),
    }
}

/// Joins the outputs that these wishes are of, where a function of each signal is there: it becomes 1 in the care set where such an output of
/// the signal is 1.
///
/// It takes two operations for each wish. `Spent` comes only where these may add more nodes than the budget has.
pub fn join_outputs(
    store: &mut Store,
    functions: &mut Vec<H>,
    wishes: &[Wish],
    care: H,
    gates: Span,
) -> Result<(), Spent>
    requires functions { AreLive store.old functions.old.items }
    requires care { IsLive store.old care }
    requires gates { IsSpan store.old gates }
    requires filled { IsFilled store.old gates }
    requires within { All (IsOutputWithin gates.len (length functions.old.items)) wishes.now }
    ensures adds { AddsNodes store.old store.new }
    ensures joined { OnOk result (HasJoined (parts_of (function_of store.old care) (shows store.old gates) wishes.now) store.old functions.old.items store.new functions.new.items) }
    ensures counts { (u made : ℕ) → IsUsed store.old.budget u made store.old → Counts u (2 * length wishes.now) store.old store.new result }
{
    store.sound();
    let mut left = wishes;
    'outputs: while let Some((wish, behind)) = left.split_first() {
        match join_wish(store, functions, *wish, care, gates) {
            Ok(()) => {}
            Err(spent) => return Err(spent),
        }
        left = behind;
    }
    Ok(())
}
