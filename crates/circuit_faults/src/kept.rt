//! The kept circuit of a phase, after the bare one.

ghost use Rattle.std.specs.Prelude.{◌≡◌, ℕ, ◌*◌, ◌<◌, ◌↔◌, Bool, [], false, true, length, IfErr, IfOk, None, Ok};
ghost use Rattle.std.specs.List.{list_any};
ghost use Rattle.bdd_core.specs.Diagram.{IsWithin, Valuation};
ghost use Rattle.bdd_core.specs.Store.{AddsNodes, IsLive, IsSpan, function_of};
ghost use Rattle.bdd_core.specs.Words.{IsFilled, word_at};
ghost use Rattle.bdd_ops.specs.Counting.{Counts, IsSpanWithin};
ghost use Rattle.channel_parts.specs.PartLists.{IsPartList};
ghost use Rattle.circuit_faults.specs.Faults.{HasFixedBits};
ghost use Rattle.circuit_faults.specs.KeptFaults.{AreKeptObserved, HasNoKeeper};
ghost use Rattle.circuit_faults.specs.KeptResults.{HasKeptSpans, KeptGives, WritesKept};
ghost use Rattle.circuit_faults.specs.KeptScans.{IsLoose, KeptScanGives, PlainNetGives, ReadWithin, reach_span};
ghost use Rattle.circuit_faults.specs.Operations.{IsUsedUp, kept_operations};
ghost use Rattle.circuit_faults.specs.Results.{IsClearCircuit, root_at};
ghost use Rattle.path_fixpoint.specs.Spending.{HasOneHold};
ghost use Rattle.circuit_faults.specs.Wholes.{HasSoundWholes};
ghost use Rattle.vrt_model.specs.Lists.{mark_at};
ghost use Rattle.vrt_model.specs.Networks.{HasRanges};
ghost use Rattle.known_nets.specs.Wired.{IsWired};
ghost use Rattle.whole_steps.specs.Tables.{IsWholeTable};
ghost use Rattle.vrt_model.specs.declared.circuit.Device.{Device as DeviceValue};
ghost use Rattle.vrt_model.specs.declared.rules.Phase.{Phase};

use crate::kept_net::{KeptFault, kept_net_fault};
use crate::kept_parts::solve_parts;
use crate::scan::is_seen;
use crate::spans::KeptSpans;
use bdd_core::{H, Spent, Store};
use channel_parts::Parts;
use known_nets::is_plain;
use vrt_model::{Circuit, Net};
use whole_steps::{WholeTable, free_driver};

/// Whether some device is a keeper.
pub fn has_keeper(circuit: &Circuit) -> bool
    ensures { result ≡ list_any (λ (d : DeviceValue). d.keeper) circuit.now.devices }
{
    for device in circuit.devices.as_slice() {
        if device.keeper {
            return true;
        }
    }
    false
}

/// Whether a net is plain and no output of a whole instance there is marked as free.
fn is_loose(circuit: &Circuit, wholes: WholeTable<'_>, net: Net) -> bool
    ensures { (result ≡ true) ↔ IsLoose circuit.now wholes.entry.drivers.now net.0 }
{
    if !is_plain(circuit, net.0 as usize) {
        return false;
    }
    match free_driver(wholes, net) {
        Some(_) => false,
        None => true,
    }
}

/// The first fault of a net, by the words that say its bit and the values that reach it. A net that is not plain, or has a free output
/// of a whole instance, has none.
fn check_kept_net(
    store: &mut Store,
    circuit: &Circuit,
    wholes: WholeTable<'_>,
    net: Net,
    seen: bool,
    care: H,
    spans: KeptSpans,
) -> Result<Option<KeptFault>, Spent>
    requires care { IsLive store.old care }
    requires spans { IsSpan store.old spans.gates × IsSpan store.old spans.zeros × IsSpan store.old spans.ones }
    requires net { (net.0 < spans.gates.len) × (net.0 < spans.zeros.len) × (net.0 < spans.ones.len) }
    requires wanted { IsFilled store.old spans.gates }
    requires live { IsLoose circuit.now wholes.drivers.now net.0 → (value : Bool) → word_at store.old (reach_span spans value) net.0 < length store.old.nodes }
    ensures adds { AddsNodes store.old store.new }
    ensures gives { IfOk result (λ found. PlainNetGives (IsLoose circuit.now wholes.entry.drivers.now) care spans seen net store.old store.new found) }
    ensures few { (u : ℕ) → IsWithin u (function_of store.old care) → IsSpanWithin u store.old spans.gates → ReadWithin u spans (IsLoose circuit.now wholes.entry.drivers.now) store.old → Counts u 20 store.old store.new result }
{
    store.sound();
    if !is_loose(circuit, wholes, net) {
        return Ok(None);
    }
    let wanted = H(store.read(spans.gates, net.0));
    let zero = H(store.read(spans.zeros, net.0));
    let one = H(store.read(spans.ones, net.0));
    kept_net_fault(store, net, care, wanted, zero, one, seen)
}

/// The first fault of the plain nets without free outputs of whole instances by number, by the words that say their bits and the values that reach them.
fn scan_kept(
    store: &mut Store,
    circuit: &Circuit,
    wholes: WholeTable<'_>,
    observed: &[bool],
    care: H,
    spans: KeptSpans,
) -> Result<Option<KeptFault>, Spent>
    requires marks { length observed.now ≡ length circuit.now.nets }
    requires care { IsLive store.old care }
    requires spans { HasKeptSpans circuit.now [] spans store.old }
    requires live { (n : ℕ) → IsLoose circuit.now wholes.drivers.now n → (value : Bool) → word_at store.old (reach_span spans value) n < length store.old.nodes }
    ensures adds { AddsNodes store.old store.new }
    ensures gives { IfOk result (λ found. KeptScanGives (IsLoose circuit.now wholes.entry.drivers.now) (mark_at observed.now) care spans store.old store.new found) }
    ensures few { (u : ℕ) → IsWithin u (function_of store.old care) → IsSpanWithin u store.old spans.gates → ReadWithin u spans (IsLoose circuit.now wholes.entry.drivers.now) store.old → Counts u (20 * length circuit.now.nets) store.old store.new result }
{
    store.sound();
    for n in 0..spans.gates.len {
        let net = Net(n);
        let seen = is_seen(observed, net);
        let found = match check_kept_net(store, circuit, wholes, net, seen, care, spans) {
            Ok(found) => found,
            Err(spent) => return Err(spent),
        };
        if let Some(fault) = found {
            return Ok(Some(fault));
        }
    }
    Ok(None)
}

/// The first fault of the kept circuit in the care set, where whole instances may stand, and where the bare circuit has none, its observed
/// nets have the bits of `gates` and the outputs of whole instances those of `roots` behind the nets: net by net by number, at each plain net a fight, and where a net is observed, that the kept response
/// is not its bit. `kept` are the parts of a phase with the keepers, and `spans.roots` has the bits of the given nets and
/// of the holds, as functions. Where no device is a keeper, nothing is done and there is none.
///
/// Handles from before keep their functions, and words outside `spans.zeros`, `spans.ones` and `spans.out` stay as they
/// are, also where the budget is used up.
///
/// Where the handles read only the first `u` variables and no net has two holds, a part of p nets and q devices takes at
/// most (12 l + 12) p q + 12 p + 6 r operations of `2 ^ u` nodes for r outputs of whole instances on its nets, where l is the source
/// level, and each net at most 20. `Spent` comes only where the budget is less than all these with the nodes that were there, and has
/// the budget.
pub fn wired_kept(
    store: &mut Store,
    circuit: &Circuit,
    wholes: WholeTable<'_>,
    kept: &Parts,
    observed: &[bool],
    care: H,
    spans: KeptSpans,
) -> Result<Option<KeptFault>, Spent>
    requires circuit { HasRanges circuit.now }
    requires wired { IsWired circuit.now }
    requires wholes { IsWholeTable circuit.now wholes.drivers.now wholes.plans.now }
    requires parts { (phase : Phase) × IsPartList circuit.now phase false kept.now }
    requires marks { length observed.now ≡ length circuit.now.nets }
    requires observed { AreKeptObserved circuit.now (mark_at observed.now) }
    requires care { IsLive store.old care }
    requires spans { HasKeptSpans circuit.now kept.now.list spans store.old }
    ensures writes { WritesKept spans store.old store.new }
    ensures gives { IfOk result (λ found. (phase : Phase) → HasSoundWholes circuit.now phase (mark_at observed.now) → IsPartList circuit.now phase false kept.now → ((v : Valuation) → HasFixedBits circuit.now phase (root_at store.old spans.roots v)) → IsClearCircuit circuit.now phase (mark_at observed.now) care spans.roots spans.gates store.old store.old → KeptGives circuit.now phase (mark_at observed.now) care spans.roots store.old store.new found) }
    ensures idle { HasNoKeeper circuit.now → (result ≡ Ok None) × (store.new ≡ store.old) }
    ensures few { HasOneHold circuit.now → (u : ℕ) → IsWithin u (function_of store.old care) → IsSpanWithin u store.old spans.gates → IsSpanWithin u store.old spans.roots → Counts u (kept_operations circuit.now kept.now.list) store.old store.new result }
    ensures spent { HasOneHold circuit.now → IfErr result (IsUsedUp store.old store.new) }
{
    store.sound();
    if !has_keeper(circuit) {
        return Ok(None);
    }
    match solve_parts(store, circuit, wholes, kept.list.as_slice(), spans) {
        Ok(()) => {}
        Err(spent) => return Err(spent),
    }
    scan_kept(store, circuit, wholes, observed, care, spans)
}
