//! The faults of one net.

ghost use Rattle.std.specs.Prelude.{ℕ, ◌<◌, IfOk};
ghost use Rattle.bdd_core.specs.Diagram.{IsWithin};
ghost use Rattle.bdd_core.specs.Store.{IsLive, Means, function_of, AddsNodes};
ghost use Rattle.bdd_ops.specs.Counting.{Counts};
ghost use Rattle.circuit_faults.specs.Scans.{NetGives, fight_of, float_of};

use bdd_core::{H, Spent, Store, ZERO};
use bdd_ops::{and, or};
use vrt_model::{FaultKind, Net};

/// A fault of the bare circuit: at a net that both values reach (`Fight`), or that is observed and neither reaches
/// (`Float`); or at an instance that breaks a constraint of its cell (`Constraint`). `at` is the function that is 1 at the
/// valuations of the care set at which the fault stands.
#[derive(Clone, Copy)]
pub struct CircuitFault {
    /// `Fight`, `Float` or `Constraint`.
    pub kind: FaultKind,
    /// The net at which the fault stands, and of `Constraint` the instance, by number.
    pub place: u32,
    /// At which valuations it stands: a function that is not constant 0.
    pub at: H,
}

/// Where there is care and both values reach a net.
fn fighting(store: &mut Store, care: H, zero: H, one: H) -> Result<H, Spent>
    requires { IsLive store.old care × IsLive store.old zero × IsLive store.old one }
    ensures adds { AddsNodes store.old store.new }
    ensures is { IfOk result (λ h. Means store.new h (fight_of (function_of store.old care) (function_of store.old zero) (function_of store.old one))) }
    ensures counts { (u : ℕ) → IsWithin u (function_of store.old care) → IsWithin u (function_of store.old zero) → IsWithin u (function_of store.old one) → Counts u 2 store.old store.new result }
{
    store.sound();
    let both = match and(store, zero, one) {
        Ok(both) => both,
        Err(spent) => return Err(spent),
    };
    and(store, care, both)
}

/// Where there is care and neither value reaches a net.
fn floating(store: &mut Store, care: H, zero: H, one: H) -> Result<H, Spent>
    requires { IsLive store.old care × IsLive store.old zero × IsLive store.old one }
    ensures adds { AddsNodes store.old store.new }
    ensures is { IfOk result (λ h. Means store.new h (float_of (function_of store.old care) (function_of store.old zero) (function_of store.old one))) }
    ensures counts { (u : ℕ) → IsWithin u (function_of store.old care) → IsWithin u (function_of store.old zero) → IsWithin u (function_of store.old one) → Counts u 2 store.old store.new result }
{
    store.sound();
    let any = match or(store, zero, one) {
        Ok(any) => any,
        Err(spent) => return Err(spent),
    };
    store.ite(any, ZERO, care)
}

/// The first fault of a net in the care set: a fight, or where the net is seen a float. `zero` and `one` say where these
/// values reach the net.
pub(crate) fn net_fault(
    store: &mut Store,
    net: Net,
    care: H,
    zero: H,
    one: H,
    seen: bool,
) -> Result<Option<CircuitFault>, Spent>
    requires { IsLive store.old care × IsLive store.old zero × IsLive store.old one }
    ensures adds { AddsNodes store.old store.new }
    ensures gives { IfOk result (λ found. NetGives (function_of store.old care) (function_of store.old zero) (function_of store.old one) seen net store.new found) }
    ensures counts { (u : ℕ) → IsWithin u (function_of store.old care) → IsWithin u (function_of store.old zero) → IsWithin u (function_of store.old one) → Counts u 4 store.old store.new result }
{
    store.sound();
    let fight = match fighting(store, care, zero, one) {
        Ok(fight) => fight,
        Err(spent) => return Err(spent),
    };
    if fight.0 != 0 {
        return Ok(Some(CircuitFault {
            kind: FaultKind::Fight,
            place: net.0,
            at: fight,
        }));
    }
    if !seen {
        return Ok(None);
    }
    let float = match floating(store, care, zero, one) {
        Ok(float) => float,
        Err(spent) => return Err(spent),
    };
    if float.0 != 0 {
        return Ok(Some(CircuitFault {
            kind: FaultKind::Float,
            place: net.0,
            at: float,
        }));
    }
    Ok(None)
}
