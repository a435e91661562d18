//! The handles at the gates of a part, replaced and put back.

ghost use Rattle.std.specs.Prelude.{◌≡◌, ℕ, ◌<◌, ◌≤◌, length, IfOk};
ghost use Rattle.bdd_core.specs.Store.{AddsNodes, IsSpan};
ghost use Rattle.bdd_core.specs.Words.{IsFilled, Writes};
ghost use Rattle.bdd_ops.specs.Counting.{Counts};
ghost use Rattle.path_fixpoint.specs.Parts.{IsPart};
ghost use Rattle.vrt_model.specs.Networks.{HasRanges};
ghost use Rattle.part_functions.specs.Inner.{AreLive, HasHandle, IsList};
ghost use Rattle.part_functions.specs.Replaced.{AreGates, AreLiveGates, IsWritten, StandsFor, gate_handle};

use crate::few::PartFunctions;
use crate::suits::device_at;
use bdd_core::{Spent, Store};
use channel_parts::Part;
use node_pool::Span;
use vrt_model::{Circuit, Var};

/// The handle at the gate of each device of a part.
#[derive(Clone, Copy)]
pub(crate) struct GateHandles {
    /// The handles, by the places of the devices in the part, and behind them that of the constant 0.
    pub(crate) handles: [u32; 24],
}

/// The handles at the gates of a part.
pub(crate) fn gate_handles(
    store: &Store,
    circuit: &Circuit,
    part: &Part,
    gates: Span,
) -> GateHandles
    requires circuit { HasRanges circuit.now }
    requires part { IsPart circuit.now part.now }
    requires few { length part.now.devices ≤ 24 }
    requires gates { IsSpan store.now gates × IsFilled store.now gates × (gates.len ≡ length circuit.now.nets) }
    ensures are { AreGates circuit.now part.now gates store.now result }
    ensures live { AreLiveGates store.now result }
{
    store.sound();
    let mut handles = [0u32; 24];
    for place in 0..part.devices.len() {
        let device = device_at(circuit, part, place);
        handles[place] = store.read(gates, device.gate.0);
    }
    GateHandles { handles }
}

/// Writes the handles at the gates of a part.
pub(crate) fn write_gates(
    store: &mut Store,
    circuit: &Circuit,
    part: &Part,
    gates: Span,
    handles: GateHandles,
)
    requires circuit { HasRanges circuit.now }
    requires part { IsPart circuit.now part.now }
    requires few { length part.now.devices ≤ 24 }
    requires gates { IsSpan store.old gates × IsFilled store.old gates × (gates.len ≡ length circuit.now.nets) }
    requires live { AreLiveGates store.old handles }
    ensures writes { Writes gates store.old store.new }
    ensures rest { store.new ≡ record store.old { words = store.new.words } }
    ensures written { (n : ℕ) → n < gates.len → IsWritten circuit.now part.now gates handles (length part.now.devices) store.old store.new n }
{
    store.sound();
    for place in 0..part.devices.len() {
        let device = device_at(circuit, part, place);
        store.write(gates, device.gate.0, handles.handles[place]);
    }
}

/// The handle of the variable that stands for a function, and of a constant itself.
fn small_handle(store: &mut Store, functions: PartFunctions, handle: u32) -> Result<u32, Spent>
    requires functions { IsList functions × AreLive functions store.old × (functions.count ≤ store.old.vars) }
    requires handle { HasHandle functions handle }
    ensures adds { AddsNodes store.old store.new }
    ensures stands { IfOk result (λ small. StandsFor functions store.new handle small) }
    ensures counts { (u : ℕ) → functions.count ≤ u → Counts u 1 store.old store.new result }
{
    store.sound();
    if handle < 2 {
        return Ok(handle);
    }
    let Some(number) = functions.number_of(handle) else {
        return Ok(handle);
    };
    match store.bit(Var(number)) {
        Ok(bit) => Ok(bit.0),
        Err(spent) => Err(spent),
    }
}

/// The handles of the variables that stand for those at the gates.
pub(crate) fn small_handles(
    store: &mut Store,
    functions: PartFunctions,
    part: &Part,
    handles: GateHandles,
) -> Result<GateHandles, Spent>
    requires functions { IsList functions × AreLive functions store.old × (functions.count ≤ store.old.vars) }
    requires few { length part.now.devices ≤ 24 }
    requires handles { (i : ℕ) → i < length part.now.devices → HasHandle functions (gate_handle handles i) }
    requires live { AreLiveGates store.old handles }
    ensures adds { AddsNodes store.old store.new }
    ensures live { IfOk result (AreLiveGates store.new) }
    ensures stand { IfOk result (λ small. (i : ℕ) → i < length part.now.devices → StandsFor functions store.new (gate_handle handles i) (gate_handle small i)) }
    ensures counts { (u : ℕ) → functions.count ≤ u → Counts u (length part.now.devices) store.old store.new result }
{
    store.sound();
    let mut small = [0u32; 24];
    for place in 0..part.devices.len() {
        match small_handle(store, functions, handles.handles[place]) {
            Ok(handle) => small[place] = handle,
            Err(spent) => return Err(spent),
        }
    }
    Ok(GateHandles { handles: small })
}
