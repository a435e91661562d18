//! Regions: the plain nets that devices known to conduct join to a net. Where all gates at a region are known, it has no
//! hold and no output of a whole instance, and no device joins it to an input, it is shut: what its nets show hangs on
//! nothing that is not known.

ghost use Rattle.std.specs.Prelude.{◌≡◌, ℕ, ◌<◌, false, true, length, IfOk};
ghost use Rattle.known_nets.specs.Conduction.{is_plain_at};
ghost use Rattle.known_nets.specs.Incidence.{IsIncidence};
ghost use Rattle.known_nets.specs.Regions.{GoTogether, IsOpenAt, IsRegion, IsShutAt, KeepsOpen, KeepsShut};
ghost use Rattle.known_nets.specs.Spreads.{AreNone, ArePlain};
ghost use Rattle.vrt_model.specs.Lists.{mark_at, At, Among, has_number};
ghost use Rattle.vrt_model.specs.declared.circuit.Device.{Device as DeviceValue};
ghost use Rattle.vrt_model.specs.declared.rules.Phase.{Phase as PhaseValue};

use crate::amounts::Amounts;
use crate::conducting::{conduction, is_input};
use crate::incidence::{Incidence, other_end};
use crate::lists::copied;
use crate::marks::is_marked;
use crate::spread::{Spread, Spreading, spread_from};
use std::alloc::Global;
use vrt_model::{Circuit, Device, NoMemory};

/// The nets of the region of a plain net. No net has an amount before and after.
pub(crate) fn region(
    alloc: Global,
    circuit: &Circuit,
    by: &Incidence,
    known: &[Option<bool>],
    net: usize,
    inside: &mut Amounts,
) -> Result<Vec<usize>, NoMemory>
    requires by { IsIncidence circuit.now by.now }
    requires plain { is_plain_at circuit.now net ≡ true }
    requires none { AreNone (length circuit.now.nets) inside.old }
    ensures none { IfOk result (λ _. AreNone (length circuit.now.nets) inside.new) }
    ensures region { IfOk result (λ t. IsRegion circuit.now known.now (has_number t.items)) }
    ensures has { IfOk result (λ t. Among t.items net) }
    ensures together { IfOk result (λ t. (phase : PhaseValue) (n : ℕ) → Among t.items n → GoTogether circuit.now phase known.now net n) }
{
    inside.begin_at(net)?;
    let joined = Spreading {
        circuit,
        by,
        known,
        spread: Spread::Joined,
        levels: &[],
    };
    spread_from(joined, inside)?;
    let nets = copied(alloc, inside.met.as_slice())?;
    inside.clear();
    Ok(nets)
}

/// Whether the region of a net may be shut as far as a device goes: this is a keeper, or does not end at the net, or its
/// gate is known and, where it conducts, it does not lead to an input.
fn keeps_shut(circuit: &Circuit, known: &[Option<bool>], device: &Device, net: usize) -> bool
    ensures yes { result ≡ true → KeepsShut circuit.now known.now net device.now }
    ensures no { result ≡ false → KeepsOpen circuit.now known.now net device.now }
{
    if device.keeper {
        return true;
    }
    let Some(other) = other_end(device, net) else {
        return true;
    };
    match conduction(known, device) {
        None => false,
        Some(on) => !(on && is_input(circuit, other)),
    }
}

/// Whether the region of a net may be shut as far as the devices of these numbers go.
fn all_keep_shut(circuit: &Circuit, known: &[Option<bool>], numbers: &[u32], net: usize) -> bool
    ensures yes { result ≡ true → (k : ℕ) (d : DeviceValue) → Among numbers.now k → At circuit.now.devices k d → KeepsShut circuit.now known.now net d }
    ensures no { result ≡ false → (d : DeviceValue) × Among circuit.now.devices d × KeepsOpen circuit.now known.now net d }
{
    let devices = circuit.devices.as_slice();
    for number in numbers {
        if (*number as usize) < devices.len() {
            let shut = keeps_shut(circuit, known, &devices[*number as usize], net);
            if !shut {
                return false;
            }
        }
    }
    true
}

/// Whether the region of a plain net may be shut as far as its hold, the outputs of whole instances and the devices at it go.
fn is_shut_at(circuit: &Circuit, by: &Incidence, known: &[Option<bool>], net: usize) -> bool
    requires by { IsIncidence circuit.now by.now }
    requires net { net < length by.now.ends.items }
    ensures yes { result ≡ true → IsShutAt circuit.now known.now net }
    ensures no { result ≡ false → (phase : PhaseValue) → IsOpenAt circuit.now phase known.now net }
{
    if is_marked(by.rooted.as_slice(), net) {
        false
    } else {
        all_keep_shut(circuit, known, by.ends[net].as_slice(), net)
    }
}

/// Whether a region is shut, which has these nets.
pub(crate) fn is_shut(
    circuit: &Circuit,
    by: &Incidence,
    known: &[Option<bool>],
    nets: &[usize],
) -> bool
    requires by { IsIncidence circuit.now by.now }
    requires plain { ArePlain circuit.now nets.now }
    ensures yes { result ≡ true → (n : ℕ) → Among nets.now n → IsShutAt circuit.now known.now n }
    ensures no { result ≡ false → (phase : PhaseValue) → (n : ℕ) × Among nets.now n × IsOpenAt circuit.now phase known.now n }
{
    for net in nets {
        if *net >= by.ends.len() {
            return false;
        }
        let shut = is_shut_at(circuit, by, known, *net);
        if !shut {
            return false;
        }
    }
    true
}
