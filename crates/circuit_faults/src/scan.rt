//! The nets of one part, one after the other.

ghost use Rattle.std.specs.Prelude.{◌≡◌, ◌≢◌, ℕ, ◌+◌, ◌*◌, ◌^◌, ◌<◌, ◌≤◌, All, length, IfOk, None, true, false};
ghost use Rattle.bdd_core.specs.Diagram.{IsWithin, Valuation};
ghost use Rattle.bdd_core.specs.Store.{AddsNodes, Gives, IsLive, IsSpan, function_of};
ghost use Rattle.bdd_core.specs.Words.{IsApart, IsFilled, Writes, shows, word_at};
ghost use Rattle.bdd_ops.specs.Counting.{Counts, IsSpanWithin};
ghost use Rattle.circuit_faults.specs.Scans.{NetGives, ScanGives};
ghost use Rattle.circuit_faults.specs.Small.{AreFewAt, AreReady, bit_operations, fault_operations, reach_of, scan_operations};
ghost use Rattle.path_fixpoint.specs.Parts.{IsPlace};
ghost use Rattle.path_fixpoint.specs.Spending.{Finds, Spends};
ghost use Rattle.path_fixpoint.specs.Strengths.{net_words};
ghost use Rattle.vrt_model.specs.Lists.{mark_at};

use crate::net::{CircuitFault, net_fault};
use crate::small::small_fault;
use bdd_core::{H, Spent, Store};
use channel_parts::Part;
use node_pool::Span;
use part_functions::{PartFunctions, composed};
use path_fixpoint::{NetWords, reached};
use vrt_model::Net;

/// Whether a net is observed.
pub(crate) fn is_seen(observed: &[bool], net: Net) -> bool
    requires { net.0 < length observed.now }
    ensures { result ≡ mark_at observed.now net.0 }
{
    observed[net.0 as usize]
}

/// The first fault of a net: by the words themselves, or over the variables that stand for functions.
fn fault_at(
    store: &mut Store,
    way: Option<PartFunctions>,
    net: Net,
    place: usize,
    seen: bool,
    care: H,
    out: NetWords,
) -> Result<Option<CircuitFault>, Spent>
    requires care { IsLive store.old care }
    requires out { IsSpan store.old out.span × IsFilled store.old out.span }
    requires place { (net_words out.source * place + net_words out.source ≤ out.span.len) × (out.span.len < 2 ^ 32) }
    requires ready { AreReady way store.old out place }
    ensures adds { AddsNodes store.old store.new }
    ensures gives { IfOk result (λ found. NetGives (function_of store.old care) (reach_of way store.old out false place) (reach_of way store.old out true place) seen net store.new found) }
    ensures counts { (u : ℕ) → IsWithin u (function_of store.old care) → IsSpanWithin u store.old out.span → AreFewAt u way store.old → Counts u (fault_operations way) store.old store.new result }
{
    store.sound();
    let zero = reached(store, out, place, false);
    let one = reached(store, out, place, true);
    match way {
        Some(functions) => small_fault(store, functions, net, care, zero, one, seen),
        None => net_fault(store, net, care, zero, one, seen),
    }
}

/// The bit of a net that has no fault: where 1 reaches it.
fn bit_at(
    store: &mut Store,
    way: Option<PartFunctions>,
    place: usize,
    out: NetWords,
) -> Result<H, Spent>
    requires out { IsSpan store.old out.span × IsFilled store.old out.span }
    requires place { (net_words out.source * place + net_words out.source ≤ out.span.len) × (out.span.len < 2 ^ 32) }
    requires ready { AreReady way store.old out place }
    ensures gives { Gives store.old store.new (reach_of way store.old out true place) result }
    ensures finds { (u : ℕ) → IsSpanWithin u store.old out.span → AreFewAt u way store.old → Finds u (bit_operations way) store.old store.new result }
{
    store.sound();
    let one = reached(store, out, place, true);
    match way {
        Some(functions) => composed(store, functions, one),
        None => Ok(one),
    }
}

/// The first fault of a net. Where it has none and is observed, its handle among `gates` becomes the function that says where 1 reaches
/// it, which is then its bit.
fn check_net(
    store: &mut Store,
    way: Option<PartFunctions>,
    net: Net,
    place: usize,
    seen: bool,
    care: H,
    gates: Span,
    out: NetWords,
) -> Result<Option<CircuitFault>, Spent>
    requires care { IsLive store.old care }
    requires gates { IsSpan store.old gates × IsFilled store.old gates }
    requires out { IsSpan store.old out.span × IsFilled store.old out.span }
    requires place { (net.0 < gates.len) × (net_words out.source * place + net_words out.source ≤ out.span.len) × (out.span.len < 2 ^ 32) × AreReady way store.old out place }
    ensures writes { Writes gates store.old store.new }
    ensures apart { (k : ℕ) → k ≢ net.0 → word_at store.new gates k ≡ word_at store.old gates k }
    ensures gives { IfOk result (λ found. NetGives (function_of store.old care) (reach_of way store.old out false place) (reach_of way store.old out true place) seen net store.new found) }
    ensures few { (u : ℕ) → IsWithin u (function_of store.old care) → IsSpanWithin u store.old gates → IsSpanWithin u store.old out.span → AreFewAt u way store.old → Spends u (scan_operations way) gates store.old store.new result }
    ensures bit { IfOk result (λ found. found ≡ None → seen ≡ true → (v : Valuation) → shows store.new gates net.0 v ≡ reach_of way store.old out true place v) }
{
    store.sound();
    let found = match fault_at(store, way, net, place, seen, care, out) {
        Ok(found) => found,
        Err(spent) => return Err(spent),
    };
    if let Some(fault) = found {
        return Ok(Some(fault));
    }
    if !seen {
        return Ok(None);
    }
    let bit = match bit_at(store, way, place, out) {
        Ok(bit) => bit,
        Err(spent) => return Err(spent),
    };
    store.write(gates, net.0, bit.0);
    Ok(None)
}

/// The first fault of the nets of a part, in their order, and at each net a fight before a float. The handles among
/// `gates` of the observed nets before it, and where there is none those of all observed nets of the part, become their bits. The words of
/// `out` say which values reach the nets, or say it over the variables that stand for functions.
pub(crate) fn scan(
    store: &mut Store,
    way: Option<PartFunctions>,
    part: &Part,
    observed: &[bool],
    care: H,
    gates: Span,
    out: NetWords,
) -> Result<Option<CircuitFault>, Spent>
    requires care { IsLive store.old care }
    requires gates { IsSpan store.old gates × IsFilled store.old gates }
    requires nets { All (λ (n : Net). (n.0 < gates.len) × (n.0 < length observed.now)) part.now.nets × ((i j n : ℕ) → IsPlace part.now i n → IsPlace part.now j n → i ≡ j) }
    requires out { IsSpan store.old out.span × IsFilled store.old out.span × (out.span.len ≡ net_words out.source * length part.now.nets) × (out.span.len < 2 ^ 32) }
    requires apart { IsApart out.span gates }
    requires ready { (i : ℕ) → i < length part.now.nets → AreReady way store.old out i }
    ensures writes { Writes gates store.old store.new }
    ensures gives { IfOk result (λ found. ScanGives part.now (mark_at observed.now) care gates (reach_of way store.old out) store.old store.new found) }
    ensures few { (u : ℕ) → IsWithin u (function_of store.old care) → IsSpanWithin u store.old gates → IsSpanWithin u store.old out.span → AreFewAt u way store.old → Spends u (length part.now.nets * scan_operations way) gates store.old store.new result }
{
    store.sound();
    let nets = part.nets.as_slice();
    for i in 0..nets.len() {
        let net = nets[i];
        let seen = is_seen(observed, net);
        let found = match check_net(store, way, net, i, seen, care, gates, out) {
            Ok(found) => found,
            Err(spent) => return Err(spent),
        };
        if let Some(fault) = found {
            return Ok(Some(fault));
        }
    }
    Ok(None)
}
