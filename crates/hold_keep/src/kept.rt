//! The faults of a net in the kept circuit, by which values reach it there.

ghost use Rattle.std.specs.Prelude.{ℕ};
ghost use Rattle.bdd_core.specs.Diagram.{IsWithin};
ghost use Rattle.bdd_core.specs.Store.{IsLive, function_of, Gives};
ghost use Rattle.bdd_ops.specs.Counting.{Counts};
ghost use Rattle.hold_keep.specs.Kept.{KeptGive, fails_of, fight_of, unsettled_of};

use bdd_core::{H, Spent, Store};
use bdd_ops::{and, implies};

/// Where the faults of a net in the kept circuit stand.
#[derive(Clone, Copy)]
pub struct KeptFaults {
    /// At which valuations of the care set the response is fight.
    pub fight: H,
    /// At which valuations of the care set the response is not the wanted bit.
    pub unsettled: H,
}

/// Where there is care and both values reach a net.
fn fight(store: &mut Store, care: H, zero: H, one: H) -> Result<H, Spent>
    requires { IsLive store.old care × IsLive store.old zero × IsLive store.old one }
    ensures gives { Gives store.old store.new (fight_of (function_of store.old care) (function_of store.old zero) (function_of store.old one)) result }
    ensures counts { (u : ℕ) → IsWithin u (function_of store.old care) → IsWithin u (function_of store.old zero) → IsWithin u (function_of store.old one) → Counts u 2 store.old store.new result }
{
    store.sound();
    let both = match and(store, zero, one) {
        Ok(both) => both,
        Err(spent) => return Err(spent),
    };
    and(store, care, both)
}

/// Where the wanted value does not reach a net or the other one does.
fn fails(store: &mut Store, wanted: H, zero: H, one: H) -> Result<H, Spent>
    requires { IsLive store.old wanted × IsLive store.old zero × IsLive store.old one }
    ensures gives { Gives store.old store.new (fails_of (function_of store.old wanted) (function_of store.old zero) (function_of store.old one)) result }
    ensures counts { (u : ℕ) → IsWithin u (function_of store.old wanted) → IsWithin u (function_of store.old zero) → IsWithin u (function_of store.old one) → Counts u 3 store.old store.new result }
{
    store.sound();
    let right = match store.ite(wanted, one, zero) {
        Ok(right) => right,
        Err(spent) => return Err(spent),
    };
    let other = match store.ite(wanted, zero, one) {
        Ok(other) => other,
        Err(spent) => return Err(spent),
    };
    implies(store, right, other)
}

/// Where there is care and the response of a net is not the wanted bit.
fn unsettled(store: &mut Store, care: H, wanted: H, zero: H, one: H) -> Result<H, Spent>
    requires { IsLive store.old care × IsLive store.old wanted × IsLive store.old zero × IsLive store.old one }
    ensures gives { Gives store.old store.new (unsettled_of (function_of store.old care) (function_of store.old wanted) (function_of store.old zero) (function_of store.old one)) result }
    ensures counts { (u : ℕ) → IsWithin u (function_of store.old care) → IsWithin u (function_of store.old wanted) → IsWithin u (function_of store.old zero) → IsWithin u (function_of store.old one) → Counts u 4 store.old store.new result }
{
    store.sound();
    let fails = match fails(store, wanted, zero, one) {
        Ok(fails) => fails,
        Err(spent) => return Err(spent),
    };
    and(store, care, fails)
}

/// Where the two faults of a net in the kept circuit stand, within a care set: that its response is fight, and that its
/// response is not the wanted bit. `zero` and `one` are the functions that say that the value reaches the net by a clear
/// path of the kept circuit. A response of float is not the wanted bit.
///
/// Nodes alone are added, also after `Spent`, which has the budget and comes only where as many nodes are there. Where the
/// handles read only the first `u` variables, at most `2 ^ u * 20` nodes are added, and they test these variables. `Spent`
/// comes only where the budget is less than all of these with the nodes that were there; and, where `u` is at most 4 and
/// the nodes that were there test the first four variables, only where the budget is less than 65,536.
pub fn kept_faults(
    store: &mut Store,
    care: H,
    wanted: H,
    zero: H,
    one: H,
) -> Result<KeptFaults, Spent>
    requires { IsLive store.old care × IsLive store.old wanted × IsLive store.old zero × IsLive store.old one }
    ensures gives { KeptGive store.old store.new (fight_of (function_of store.old care) (function_of store.old zero) (function_of store.old one)) (unsettled_of (function_of store.old care) (function_of store.old wanted) (function_of store.old zero) (function_of store.old one)) result }
    ensures counts { (u : ℕ) → IsWithin u (function_of store.old care) → IsWithin u (function_of store.old wanted) → IsWithin u (function_of store.old zero) → IsWithin u (function_of store.old one) → Counts u 20 store.old store.new result }
{
    store.sound();
    let fight = match fight(store, care, zero, one) {
        Ok(fight) => fight,
        Err(spent) => return Err(spent),
    };
    let unsettled = match unsettled(store, care, wanted, zero, one) {
        Ok(unsettled) => unsettled,
        Err(spent) => return Err(spent),
    };
    Ok(KeptFaults { fight, unsettled })
}
