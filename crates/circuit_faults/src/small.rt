//! The faults of one net of a part that is solved over the functions that it reads.

ghost use Rattle.std.specs.Prelude.{◌≡◌, ℕ, ◌+◌, ◌*◌, ◌^◌, ◌<◌, ◌≤◌, IfOk};
ghost use Rattle.bdd_core.specs.Diagram.{IsWithin};
ghost use Rattle.bdd_core.specs.Store.{AddsNodes, IsLive, Means, function_of};
ghost use Rattle.bdd_ops.specs.Counting.{Counts};
ghost use Rattle.bdd_ops.specs.Ops.{and_of};
ghost use Rattle.circuit_faults.specs.Scans.{NetGives, fight_of, float_of};
ghost use Rattle.circuit_faults.specs.Small.{IsInner, nor_of};
ghost use Rattle.part_functions.specs.Inner.{AreWithin, composed_of};

use crate::net::CircuitFault;
use bdd_core::{H, Spent, Store};
use bdd_ops::{and, not, or};
use part_functions::{PartFunctions, composed};
use vrt_model::{FaultKind, Net};

/// Where there is care and a function of what the part reads is 1.
fn cared(store: &mut Store, functions: PartFunctions, care: H, f: H) -> Result<H, Spent>
    requires { IsLive store.old care × IsInner functions store.old f }
    ensures adds { AddsNodes store.old store.new }
    ensures is { IfOk result (λ h. Means store.new h (and_of (function_of store.old care) (composed_of functions store.old (function_of store.old f)))) }
    ensures counts { (u : ℕ) → IsWithin u (function_of store.old care) → AreWithin u functions store.old → Counts u (2 ^ functions.count) store.old store.new result }
{
    store.sound();
    if f.0 == 0 {
        return Ok(f);
    }
    let there = match composed(store, functions, f) {
        Ok(there) => there,
        Err(spent) => return Err(spent),
    };
    and(store, care, there)
}

/// Where there is care and both values reach a net.
fn fighting(
    store: &mut Store,
    functions: PartFunctions,
    care: H,
    zero: H,
    one: H,
) -> Result<H, Spent>
    requires { IsLive store.old care × IsInner functions store.old zero × IsInner functions store.old one }
    ensures adds { AddsNodes store.old store.new }
    ensures is { IfOk result (λ h. Means store.new h (fight_of (function_of store.old care) (composed_of functions store.old (function_of store.old zero)) (composed_of functions store.old (function_of store.old one)))) }
    ensures counts { (u : ℕ) → functions.count ≤ u → IsWithin u (function_of store.old care) → AreWithin u functions store.old → Counts u (2 ^ functions.count + 1) store.old store.new result }
{
    store.sound();
    let both = match and(store, zero, one) {
        Ok(both) => both,
        Err(spent) => return Err(spent),
    };
    cared(store, functions, care, both)
}

/// Where neither of two functions is 1.
fn neither(store: &mut Store, zero: H, one: H) -> Result<H, Spent>
    requires { IsLive store.old zero × IsLive store.old one }
    ensures adds { AddsNodes store.old store.new }
    ensures is { IfOk result (λ h. Means store.new h (nor_of (function_of store.old zero) (function_of store.old one))) }
    ensures counts { (u : ℕ) → IsWithin u (function_of store.old zero) → IsWithin u (function_of store.old one) → Counts u 2 store.old store.new result }
{
    store.sound();
    let any = match or(store, zero, one) {
        Ok(any) => any,
        Err(spent) => return Err(spent),
    };
    not(store, any)
}

/// Where there is care and neither value reaches a net.
fn floating(
    store: &mut Store,
    functions: PartFunctions,
    care: H,
    zero: H,
    one: H,
) -> Result<H, Spent>
    requires { IsLive store.old care × IsInner functions store.old zero × IsInner functions store.old one }
    ensures adds { AddsNodes store.old store.new }
    ensures is { IfOk result (λ h. Means store.new h (float_of (function_of store.old care) (composed_of functions store.old (function_of store.old zero)) (composed_of functions store.old (function_of store.old one)))) }
    ensures counts { (u : ℕ) → functions.count ≤ u → IsWithin u (function_of store.old care) → AreWithin u functions store.old → Counts u (2 ^ functions.count + 2) store.old store.new result }
{
    store.sound();
    let none = match neither(store, zero, one) {
        Ok(none) => none,
        Err(spent) => return Err(spent),
    };
    cared(store, functions, care, none)
}

/// The first fault of a net in the care set, as `net_fault` gives it: `zero` and `one` say where these values reach the net, over the
/// variables that stand for the functions.
pub(crate) fn small_fault(
    store: &mut Store,
    functions: PartFunctions,
    net: Net,
    care: H,
    zero: H,
    one: H,
    seen: bool,
) -> Result<Option<CircuitFault>, Spent>
    requires { IsLive store.old care × IsInner functions store.old zero × IsInner functions store.old one }
    ensures adds { AddsNodes store.old store.new }
    ensures gives { IfOk result (λ found. NetGives (function_of store.old care) (composed_of functions store.old (function_of store.old zero)) (composed_of functions store.old (function_of store.old one)) seen net store.new found) }
    ensures counts { (u : ℕ) → functions.count ≤ u → IsWithin u (function_of store.old care) → AreWithin u functions store.old → Counts u (2 * 2 ^ functions.count + 3) store.old store.new result }
{
    store.sound();
    let fight = match fighting(store, functions, care, zero, one) {
        Ok(fight) => fight,
        Err(spent) => return Err(spent),
    };
    if fight.0 != 0 {
        return Ok(Some(CircuitFault {
            kind: FaultKind::Fight,
            place: net.0,
            at: fight,
        }));
    }
    if !seen {
        return Ok(None);
    }
    let float = match floating(store, functions, care, zero, one) {
        Ok(float) => float,
        Err(spent) => return Err(spent),
    };
    if float.0 != 0 {
        return Ok(Some(CircuitFault {
            kind: FaultKind::Float,
            place: net.0,
            at: float,
        }));
    }
    Ok(None)
}
