//! The channel-connected parts: the nets that devices join of which it is not known that they do not conduct. The least
//! net of a part stands for it.

ghost use Rattle.std.specs.Prelude.{◌≡◌, ℕ, ◌<◌, true, length, slice_index, vec_len, IfOk};
ghost use Rattle.channel_parts.specs.Labels.{AreBelow, AreOfParts, IsLeastTogether, joins_plain_nets, may_conduct};
ghost use Rattle.channel_parts.specs.Unions.{Respects};
ghost use Rattle.known_nets.specs.KnownTables.{IsKnownTable, known_at};
ghost use Rattle.known_nets.specs.Wired.{IsWired};
ghost use Rattle.vrt_model.specs.Known.{IsPlain};
ghost use Rattle.vrt_model.specs.Lists.{Among};
ghost use Rattle.vrt_model.specs.Reading.{is_in};
ghost use Rattle.vrt_model.specs.declared.circuit.Device.{Device as DeviceValue};
ghost use Rattle.vrt_model.specs.declared.rules.Phase.{Phase as PhaseValue};

use crate::unions::{flatten, join};
use known_nets::{conduction, is_plain};
use std::alloc::Global;
use vrt_model::{Circuit, Device, NoMemory};

/// Whether it is not known that a device does not conduct.
pub(crate) fn may_conduct(conduction: Option<bool>) -> bool
    ensures { result ≡ may_conduct conduction }
{
    match conduction {
        Some(on) => on,
        None => true,
    }
}

/// Whether a device is in the bare or the kept circuit.
pub(crate) fn is_in(bare: bool, device: &Device) -> bool
    ensures { result ≡ is_in bare device.now }
{
    if bare { !device.keeper } else { true }
}

/// Whether a device is in the circuit, may conduct, and joins two plain nets.
fn joins_plain(circuit: &Circuit, known: &[Option<bool>], bare: bool, device: &Device) -> bool
    ensures { result ≡ joins_plain_nets circuit.now known.now bare device.now }
{
    let there = is_in(bare, device);
    let may = may_conduct(conduction(known, device));
    let left = is_plain(circuit, device.left.0 as usize);
    let right = is_plain(circuit, device.right.0 as usize);
    (there && may) && (left && right)
}

/// Joins the nets at the channel of a device, where it joins plain nets.
fn join_ends(
    circuit: &Circuit,
    known: &[Option<bool>],
    bare: bool,
    device: &Device,
    parents: &mut [usize],
)
    requires left { device.now.left.0 < length parents.old }
    requires right { device.now.right.0 < length parents.old }
    requires below { AreBelow parents.old }
    ensures below { AreBelow parents.new }
    ensures same { (f : ℕ → ℕ) → Respects parents.new f → Respects parents.old f }
    ensures joined { joins_plain_nets circuit.now known.now bare device.now ≡ true → (f : ℕ → ℕ) → Respects parents.new f → f device.now.left.0 ≡ f device.now.right.0 }
    ensures sound { (phase : PhaseValue) → IsKnownTable circuit.now phase (known_at known.now) → Among circuit.now.devices device.now → AreOfParts circuit.now phase bare parents.old → AreOfParts circuit.now phase bare parents.new }
{
    if joins_plain(circuit, known, bare, device) {
        join(parents, device.left.0 as usize, device.right.0 as usize);
    }
}

/// Joins the nets over each device.
fn join_all(circuit: &Circuit, known: &[Option<bool>], bare: bool, parents: &mut [usize])
    requires wired { IsWired circuit.now }
    requires len { length parents.old ≡ length circuit.now.nets }
    requires below { AreBelow parents.old }
    ensures below { AreBelow parents.new }
    ensures joined { (d : DeviceValue) → Among circuit.now.devices d → joins_plain_nets circuit.now known.now bare d ≡ true → (f : ℕ → ℕ) → Respects parents.new f → f d.left.0 ≡ f d.right.0 }
    ensures sound { (phase : PhaseValue) → IsKnownTable circuit.now phase (known_at known.now) → AreOfParts circuit.now phase bare parents.old → AreOfParts circuit.now phase bare parents.new }
{
    for device in circuit.devices.as_slice() {
        join_ends(circuit, known, bare, device, parents);
    }
}

/// Gives each plain net the least net of its part, where each net has itself.
fn label_parts(circuit: &Circuit, known: &[Option<bool>], bare: bool, labels: &mut [usize])
    requires wired { IsWired circuit.now }
    requires len { length labels.old ≡ length circuit.now.nets }
    requires own { (n : ℕ) → n < length labels.old → slice_index labels.old n ≡ n }
    ensures below { AreBelow labels.new }
    ensures least { (phase : PhaseValue) → IsKnownTable circuit.now phase (known_at known.now) → (n : ℕ) → IsPlain circuit.now n → IsLeastTogether circuit.now phase bare n (slice_index labels.new n) }
{
    join_all(circuit, known, bare, labels);
    flatten(labels);
}

/// The numbers of the nets, in order.
fn numbers(alloc: Global, count: usize) -> Result<Vec<usize>, NoMemory>
    ensures len { IfOk result (λ t. length t.items ≡ count) }
    ensures own { IfOk result (λ t. (n : ℕ) → n < count → slice_index t.items n ≡ n) }
{
    let mut labels = Vec::new(alloc);
    for net in 0..count {
        let Ok(()) = labels.push(net) else {
            return Err(NoMemory);
        };
    }
    Ok(labels)
}

/// The least net of the part of each plain net, by net, in the bare or the kept circuit. What is known of the nets is as
/// `known_nets` gives it. Nothing but want of memory refuses.
pub fn least_nets(
    alloc: Global,
    circuit: &Circuit,
    known: &[Option<bool>],
    bare: bool,
) -> Result<Vec<usize>, NoMemory>
    requires { IsWired circuit.now }
    ensures len { IfOk result (λ t. vec_len t ≡ length circuit.now.nets) }
    ensures below { IfOk result (λ t. AreBelow t.items) }
    ensures least { IfOk result (λ t. (phase : PhaseValue) → IsKnownTable circuit.now phase (known_at known.now) → (n : ℕ) → IsPlain circuit.now n → IsLeastTogether circuit.now phase bare n (slice_index t.items n)) }
{
    let mut labels = numbers(alloc, circuit.nets.len())?;
    label_parts(circuit, known, bare, &mut labels);
    Ok(labels)
}
