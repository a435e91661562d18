//! The constraints of one instance.

ghost use Rattle.std.specs.Prelude.{◌≡◌, ℕ, ◌<◌, length, IfOk};
ghost use Rattle.bdd_core.specs.Diagram.{IsWithin};
ghost use Rattle.bdd_core.specs.Store.{AddsNodes, IsLive, IsSpan, Means, function_of};
ghost use Rattle.bdd_core.specs.Words.{IsFilled};
ghost use Rattle.bdd_ops.specs.Counting.{Counts, IsSpanWithin};
ghost use Rattle.circuit_faults.specs.Operations.{instance_operations};
ghost use Rattle.circuit_faults.specs.Results.{InstanceGives, broken_of};
ghost use Rattle.circuit_faults.specs.Steps.{IsReadyInstance, in_phase};
ghost use Rattle.constraints.specs.Obliged.{obliged_at};

use crate::net::CircuitFault;
use crate::phased::PhasedCircuit;
use bdd_core::{H, Spent, Store, ZERO};
use constraints::obligation;
use node_pool::Span;
use vrt_model::{FaultKind, FlatInstance};

/// Where there is care and the lines of an instance's cell do not all hold.
fn broken(
    store: &mut Store,
    phased: PhasedCircuit<'_>,
    instance: &FlatInstance,
    care: H,
    gates: Span,
) -> Result<H, Spent>
    requires ready { IsReadyInstance (in_phase phased) instance.now }
    requires care { IsLive store.old care }
    requires gates { IsSpan store.old gates × IsFilled store.old gates × (gates.len ≡ length phased.circuit.now.nets) }
    ensures adds { AddsNodes store.old store.new }
    ensures is { IfOk result (λ h. Means store.new h (broken_of (function_of store.old care) (obliged_at store.old phased.entry.design.now phased.entry.rules.now instance.now phased.entry.phase gates))) }
    ensures counts { (u : ℕ) → IsWithin u (function_of store.old care) → IsSpanWithin u store.old gates → Counts u (instance_operations (in_phase phased.entry) instance.now) store.old store.new result }
{
    store.sound();
    let held = match obligation(
        store,
        phased.design,
        phased.rules,
        instance,
        phased.phase,
        gates,
    ) {
        Ok(held) => held,
        Err(spent) => return Err(spent),
    };
    store.ite(held, ZERO, care)
}

/// The fault of an instance in the care set, where it breaks a constraint of its cell. `gates` has the bits of the nets
/// that its constraints name.
pub(crate) fn check_instance(
    store: &mut Store,
    phased: PhasedCircuit<'_>,
    at: u32,
    instance: &FlatInstance,
    care: H,
    gates: Span,
) -> Result<Option<CircuitFault>, Spent>
    requires ready { IsReadyInstance (in_phase phased) instance.now }
    requires care { IsLive store.old care }
    requires gates { IsSpan store.old gates × IsFilled store.old gates × (gates.len ≡ length phased.circuit.now.nets) }
    ensures adds { AddsNodes store.old store.new }
    ensures gives { IfOk result (λ found. InstanceGives (in_phase phased.entry) instance.now at care gates store.old store.new found) }
    ensures counts { (u : ℕ) → IsWithin u (function_of store.old care) → IsSpanWithin u store.old gates → Counts u (instance_operations (in_phase phased.entry) instance.now) store.old store.new result }
{
    store.sound();
    let fault = match broken(store, phased, instance, care, gates) {
        Ok(fault) => fault,
        Err(spent) => return Err(spent),
    };
    if fault.0 != 0 {
        return Ok(Some(CircuitFault {
            kind: FaultKind::Constraint,
            place: at,
            at: fault,
        }));
    }
    Ok(None)
}
