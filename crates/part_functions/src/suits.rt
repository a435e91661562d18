//! Whether a part reads few functions, and which.

ghost use Rattle.std.specs.Prelude.{◌≡◌, ℕ, ◌<◌, ◌≤◌, ◌↔◌, false, true, length, IfSome, IsNone};
ghost use Rattle.bdd_core.specs.Diagram.{IsWithin};
ghost use Rattle.bdd_core.specs.Store.{IsLive, IsSpan, function_of};
ghost use Rattle.bdd_core.specs.Words.{IsFilled, word_at};
ghost use Rattle.path_fixpoint.specs.Parts.{IsGiven, IsPart, IsPlace, pins_of};
ghost use Rattle.vrt_model.specs.Circuits.{IsNet};
ghost use Rattle.vrt_model.specs.Networks.{HasRanges};
ghost use Rattle.vrt_model.specs.Lists.{At};
ghost use Rattle.vrt_model.specs.declared.circuit.Hold.{Hold as HoldValue};
ghost use Rattle.vrt_model.specs.declared.whole.WholePin.{WholePin as PinValue};
ghost use Rattle.part_functions.specs.Inner.{AreLive, AreWithin, IsList};
ghost use Rattle.part_functions.specs.Small.{AreOutside, IsDeviceAt, IsInside, IsRootless, IsSmall, ReadsFew};

use crate::few::PartFunctions;
use crate::order::ordered;
use bdd_core::{H, Store};
use channel_parts::Part;
use node_pool::Span;
use vrt_model::{Circuit, Device, Net, NetKind, WholePin};

/// How many devices such a part has at most.
const MOST_DEVICES: usize = 24;

/// Whether a net has a given value: a supply, an input or a clock port.
fn is_given(circuit: &Circuit, net: Net) -> bool
    ensures { (result ≡ true) ↔ IsGiven circuit.now net.0 }
{
    let Some(flat) = circuit.nets.get(net.0 as usize) else {
        return false;
    };
    match flat.kind {
        NetKind::Plain => false,
        _ => true,
    }
}

/// Whether a net is plain, or its root is a constant.
fn is_fixed_end(store: &Store, circuit: &Circuit, roots: Span, net: Net) -> bool
    requires roots { IsSpan store.now roots × (length circuit.now.nets ≤ roots.len) }
    requires net { IsNet circuit.now net }
    ensures { result ≡ true → IsGiven circuit.now net.0 → word_at store.now roots net.0 < 2 }
{
    !is_given(circuit, net) || store.read(roots, net.0) < 2
}

/// The device of a part at a place.
pub(crate) fn device_at<'a>(circuit: &'a Circuit, part: &Part, place: usize) -> &'a Device
    requires part { IsPart circuit.now part.now }
    requires place { place < length part.now.devices }
    ensures { IsDeviceAt circuit.now part.now place result.now }
{
    let dev = part.devices.as_slice()[place];
    let Some(device) = circuit.devices.get(dev.0 as usize) else {
        unreachable!();
    };
    device
}

/// The distinct functions at the gates of a part, where there are few and each given end of a channel has a constant.
fn gathered(
    store: &Store,
    circuit: &Circuit,
    part: &Part,
    gates: Span,
    roots: Span,
) -> Option<PartFunctions>
    requires circuit { HasRanges circuit.now }
    requires part { IsPart circuit.now part.now }
    requires gates { IsSpan store.now gates × (gates.len ≡ length circuit.now.nets) }
    requires roots { IsSpan store.now roots × (length circuit.now.nets ≤ roots.len) }
    ensures { IfSome result (λ functions. ReadsFew functions circuit.now part.now gates roots store.now) }
{
    let mut functions = PartFunctions::none();
    for place in 0..part.devices.len() {
        let device = device_at(circuit, part, place);
        if !is_fixed_end(store, circuit, roots, device.left) {
            return None;
        }
        if !is_fixed_end(store, circuit, roots, device.right) {
            return None;
        }
        match functions.with(store.read(gates, device.gate.0)) {
            Some(more) => functions = more,
            None => return None,
        }
    }
    Some(functions)
}

/// These functions, in the order of the variables that they test first.
fn read_functions(
    store: &Store,
    circuit: &Circuit,
    part: &Part,
    gates: Span,
    roots: Span,
) -> Option<PartFunctions>
    requires circuit { HasRanges circuit.now }
    requires part { IsPart circuit.now part.now }
    requires gates { IsSpan store.now gates × IsFilled store.now gates × (gates.len ≡ length circuit.now.nets) }
    requires roots { IsSpan store.now roots × (length circuit.now.nets ≤ roots.len) }
    ensures { IfSome result (λ functions. ReadsFew functions circuit.now part.now gates roots store.now) }
{
    store.sound();
    let Some(functions) = gathered(store, circuit, part, gates, roots) else {
        return None;
    };
    Some(ordered(functions))
}

/// Whether a function is seen at once to read a variable of a number or behind it.
fn reads_from(store: &Store, function: H, least: u32) -> bool
    requires { IsLive store.now function }
    ensures { result ≡ true → (u : ℕ) → IsWithin u (function_of store.now function) → least < u }
{
    store.sound();
    let mut here = function;
    for _step in 0..6u32 {
        let Some(node) = store.node(here) else {
            return false;
        };
        if node.var >= least {
            return true;
        }
        if node.lo >= 2 {
            here = H(node.lo);
        } else {
            here = H(node.hi);
        }
    }
    false
}

/// Whether one of the functions is seen at once to read a variable of a number that none of them has: then they read more variables than
/// there are functions.
fn reads_more(store: &Store, functions: PartFunctions) -> bool
    requires functions { IsList functions × AreLive functions store.now }
    ensures { result ≡ true → (u : ℕ) → AreWithin u functions store.now → functions.count < u }
{
    for number in 0..functions.count {
        if reads_from(store, functions.at(number), functions.count) {
            return true;
        }
    }
    false
}

/// Where a net stands in a part.
fn place_of(part: &Part, net: Net) -> Option<usize>
    ensures none { IsNone result → (i : ℕ) → IsPlace part.now i net.0 → ⊥ }
{
    part.nets
        .as_slice()
        .iter()
        .position(|other| other.0 == net.0)
}

/// Whether a net is seen to be one of a part.
fn has_net(part: &Part, net: Net) -> bool
    ensures { result ≡ false → (i : ℕ) → IsPlace part.now i net.0 → ⊥ }
{
    match place_of(part, net) {
        Some(_) => true,
        None => false,
    }
}

/// Whether no net of a part has a hold.
fn no_hold(circuit: &Circuit, part: &Part) -> bool
    ensures { result ≡ true → AreOutside part.now (λ (hold : HoldValue). hold.net) circuit.now.holds }
{
    for hold in circuit.holds.as_slice() {
        if has_net(part, hold.net) {
            return false;
        }
    }
    true
}

/// The output at a place.
fn pin_at(outputs: &[WholePin], at: usize) -> WholePin
    requires { at < length outputs.now }
    ensures { At outputs.now at result }
{
    outputs[at]
}

/// Whether none of the outputs stands at a net of a part.
fn no_output(part: &Part, outputs: &[WholePin]) -> bool
    ensures { result ≡ true → AreOutside part.now (λ (pin : PinValue). pin.net) outputs.now }
{
    for at in 0..outputs.len() {
        let pin = pin_at(outputs, at);
        if has_net(part, pin.net) {
            return false;
        }
    }
    true
}

/// Whether no output of a whole instance stands at a net of a part.
fn no_pin(circuit: &Circuit, part: &Part) -> bool
    ensures { result ≡ true → AreOutside part.now (λ (pin : PinValue). pin.net) (pins_of circuit.now) }
{
    for whole in circuit.wholes.as_slice() {
        if !no_output(part, whole.outputs.as_slice()) {
            return false;
        }
    }
    true
}

/// The net of a part at a place.
fn net_at(part: &Part, at: usize) -> Net
    requires { at < length part.now.nets }
    ensures { At part.now.nets at result }
{
    part.nets.as_slice()[at]
}

/// Whether no net of a part has a given value.
fn no_given(circuit: &Circuit, part: &Part) -> bool
    ensures { result ≡ true → (n : ℕ) → IsInside part.now n → ¬ IsGiven circuit.now n }
{
    for at in 0..part.nets.len() {
        let net = net_at(part, at);
        if is_given(circuit, net) {
            return false;
        }
    }
    true
}

/// Whether no root stands at a net of a part.
fn is_rootless(circuit: &Circuit, part: &Part) -> bool
    ensures { result ≡ true → IsRootless circuit.now part.now }
{
    if !no_given(circuit, part) {
        return false;
    }
    if !no_hold(circuit, part) {
        return false;
    }
    no_pin(circuit, part)
}

/// The functions that a part reads, where it may be solved over them.
pub fn few_functions(
    store: &Store,
    circuit: &Circuit,
    part: &Part,
    gates: Span,
    roots: Span,
) -> Option<PartFunctions>
    requires circuit { HasRanges circuit.now }
    requires part { IsPart circuit.now part.now }
    requires gates { IsSpan store.now gates × IsFilled store.now gates × (gates.len ≡ length circuit.now.nets) }
    requires roots { IsSpan store.now roots × (length circuit.now.nets ≤ roots.len) }
    ensures { IfSome result (λ functions. IsSmall functions circuit.now part.now gates roots store.now) }
{
    store.sound();
    let count = part.devices.len();
    if part.nets.is_empty() || count < 2 || count > MOST_DEVICES {
        return None;
    }
    let Some(functions) = read_functions(store, circuit, part, gates, roots) else {
        return None;
    };
    if functions.count == 0 || !reads_more(store, functions) {
        return None;
    }
    if !is_rootless(circuit, part) {
        return None;
    }
    Some(functions)
}
