//! The function of an expression, by the handles of the ports that it names.

ghost use Rattle.std.specs.Prelude.{◌≡◌, ℕ, ◌+◌, ◌*◌, length};
ghost use Rattle.bdd_core.specs.Store.{IsSpan, Gives};
ghost use Rattle.bdd_core.specs.Words.{IsFilled};
ghost use Rattle.bdd_ops.specs.Counting.{Counts, IsSpanWithin};
ghost use Rattle.constraints.specs.Evaluated.{Evaluates, expression_size, value_listed};
ghost use Rattle.constraints.specs.Handles.{HasHandles, handle_in};

use crate::ports::{Ports, handle_of};
use bdd_core::{H, Spent, Store};
use bdd_ops::{and, not, or, xor};
use node_pool::Span;
use vrt_model::{Expr, Seq, Text};

/// The function of an expression. It takes at most two operations for each operator.
#[tactic(auto, using(crate::proofs::DiagramLaws::handles_stay))]
pub(crate) fn diagram(store: &mut Store, e: &Expr, ports: Ports<'_>) -> Result<H, Spent>
    requires { HasHandles store.old ports }
    ensures { Evaluates store.old store.new (handle_in store.old.words ports.entry) e.now result }
{
    store.sound();
    match e {
        Expr::Port(name) => Ok(handle_of(store, ports, name.as_bytes())),
        Expr::Not(inner) => match diagram(store, inner, ports) {
            Ok(inner) => not(store, inner),
            Err(spent) => Err(spent),
        },
        Expr::And(left, right) => {
            let left = match diagram(store, left, ports) {
                Ok(left) => left,
                Err(spent) => return Err(spent),
            };
            let right = match diagram(store, right, ports) {
                Ok(right) => right,
                Err(spent) => return Err(spent),
            };
            and(store, left, right)
        }
        Expr::Xor(left, right) => {
            let left = match diagram(store, left, ports) {
                Ok(left) => left,
                Err(spent) => return Err(spent),
            };
            let right = match diagram(store, right, ports) {
                Ok(right) => right,
                Err(spent) => return Err(spent),
            };
            xor(store, left, right)
        }
        Expr::Or(left, right) => {
            let left = match diagram(store, left, ports) {
                Ok(left) => left,
                Err(spent) => return Err(spent),
            };
            let right = match diagram(store, right, ports) {
                Ok(right) => right,
                Err(spent) => return Err(spent),
            };
            or(store, left, right)
        }
    }
}

/// The function of an expression over ports, by the handles of the ports: `values` has one for each of `names`. A port
/// that stands nowhere among them is 0.
///
/// Handles from before keep their functions and no word changes, also after `Spent`, which has the budget and comes only
/// where as many nodes are there. Where the handles read only the first `u` variables, at most `2 ^ u * 20 * s` nodes
/// are added, for `s` operators and names of the expression, and they test these variables. `Spent` comes only where the
/// budget is less than all of these with the nodes that were there; and, where `u` is at most 4 and the nodes that were
/// there test the first four variables, only where the budget is less than 65,536.
pub fn expr(store: &mut Store, e: &Expr, names: &Seq<Text>, values: Span) -> Result<H, Spent>
    requires span { IsSpan store.old values }
    requires live { IsFilled store.old values }
    requires len { values.len ≡ length names.now }
    ensures gives { Gives store.old store.new (value_listed store.old names.now values e.now) result }
    ensures counts { (u : ℕ) → IsSpanWithin u store.old values → Counts u (20 * expression_size e.now) store.old store.new result }
{
    store.sound();
    let names = names.as_slice();
    diagram(store, e, Ports::Listed { names, values })
}
