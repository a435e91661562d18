//! The faults of one net of the kept circuit.

ghost use Rattle.std.specs.Prelude.{◌≡◌, ℕ, ◌<◌, IfOk, cond};
ghost use Rattle.bdd_core.specs.Diagram.{IsWithin};
ghost use Rattle.bdd_core.specs.Store.{AddsNodes, IsLive, function_of};
ghost use Rattle.bdd_ops.specs.Counting.{Counts};
ghost use Rattle.circuit_faults.specs.KeptScans.{KeptNetGives, first_kept};

use bdd_core::{H, Spent, Store, ZERO};
use hold_keep::kept_faults;
use vrt_model::{FaultKind, Net};

/// A fault of the kept circuit at a net: both values reach it (`FightKept`), or it is observed and does not show the bit
/// of the bare circuit (`Unsettled`).
#[derive(Clone, Copy)]
pub struct KeptFault {
    /// `FightKept` or `Unsettled`.
    pub kind: FaultKind,
    /// The net at which the fault stands.
    pub net: Net,
    /// At which valuations of the care set it stands: a function that is not constant 0.
    pub at: H,
    /// Of an unsettled net, the bit that the kept circuit gives it where the fault stands.
    pub value: H,
}

/// A function where a net is seen, and else the constant 0.
fn where_seen(seen: bool, at: H) -> H
    ensures { result.0 ≡ cond seen at.0 0 }
{
    if seen { at } else { ZERO }
}

/// The first fault of a net, by where its faults stand: a fight before that its response is not the wanted bit.
fn first_kept(net: Net, fight: H, unsettled: H, value: H) -> Option<KeptFault>
    ensures { result ≡ first_kept net fight unsettled value }
{
    if fight.0 != 0 {
        return Some(KeptFault {
            kind: FaultKind::FightKept,
            net,
            at: fight,
            value,
        });
    }
    if unsettled.0 != 0 {
        return Some(KeptFault {
            kind: FaultKind::Unsettled,
            net,
            at: unsettled,
            value,
        });
    }
    None
}

/// The first fault of a net in the care set: a fight, or where the net is seen, that its response is not the wanted bit.
/// `zero` and `one` say where these values reach the net.
pub(crate) fn kept_net_fault(
    store: &mut Store,
    net: Net,
    care: H,
    wanted: H,
    zero: H,
    one: H,
    seen: bool,
) -> Result<Option<KeptFault>, Spent>
    requires { IsLive store.old care × IsLive store.old wanted × IsLive store.old zero × IsLive store.old one }
    ensures adds { AddsNodes store.old store.new }
    ensures gives { IfOk result (λ found. KeptNetGives (function_of store.old care) (function_of store.old wanted) (function_of store.old zero) (function_of store.old one) seen net store.new found) }
    ensures counts { (u : ℕ) → IsWithin u (function_of store.old care) → IsWithin u (function_of store.old wanted) → IsWithin u (function_of store.old zero) → IsWithin u (function_of store.old one) → Counts u 20 store.old store.new result }
{
    let faults = match kept_faults(store, care, wanted, zero, one) {
        Ok(faults) => faults,
        Err(spent) => return Err(spent),
    };
    let unsettled = where_seen(seen, faults.unsettled);
    Ok(first_kept(net, faults.fight, unsettled, one))
}
