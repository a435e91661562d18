//! Nets that are neither known nor in the part of another.

ghost use Rattle.std.specs.Prelude.{◌≡◌, ◌<◌, All, IfOk, length, map};
ghost use Rattle.channel_parts.specs.Labels.{AreBelow};
ghost use Rattle.known_nets.specs.KnownTables.{IsKnownTable, known_at};
ghost use Rattle.known_nets.specs.Wired.{IsWired};
ghost use Rattle.lone_outputs.specs.Lone.{AreLone};
ghost use Rattle.lone_outputs.specs.Owners.{is_lone, is_shared};
ghost use Rattle.vrt_model.specs.declared.ids.Net.{Net as NetValue};
ghost use Rattle.vrt_model.specs.declared.rules.Phase.{Phase as PhaseValue};

use crate::counts::count_nets;
use channel_parts::least_nets;
use known_nets::{is_plain, known_bit};
use std::alloc::Global;
use vrt_model::{Circuit, Net, NoMemory, Seq};

/// Whether a net is plain, and more than one of the counted nets is in its part.
fn is_shared(circuit: &Circuit, least: &[usize], counts: &[usize], net: Net) -> bool
    requires net { net.0 < length least.now }
    requires below { AreBelow least.now }
    requires len { length counts.now ≡ length least.now }
    ensures { result ≡ is_shared circuit.now least.now counts.now net }
{
    if !is_plain(circuit, net.0 as usize) {
        return false;
    }
    counts[least[net.0 as usize]] > 1
}

/// Whether a net is neither known nor shared.
fn is_lone(
    circuit: &Circuit,
    known: &[Option<bool>],
    least: &[usize],
    counts: &[usize],
    net: Net,
) -> bool
    requires net { net.0 < length least.now }
    requires below { AreBelow least.now }
    requires len { length counts.now ≡ length least.now }
    ensures { result ≡ is_lone circuit.now known.now least.now counts.now net }
{
    match known_bit(known, net.0 as usize) {
        Some(_) => false,
        None => !is_shared(circuit, least, counts, net),
    }
}

/// For each of these nets whether it is neither known nor shared.
fn judge_nets(
    alloc: Global,
    circuit: &Circuit,
    known: &[Option<bool>],
    least: &[usize],
    counts: &[usize],
    nets: &[Net],
) -> Result<Seq<bool>, NoMemory>
    requires nets { All (λ (n : NetValue). n.0 < length least.now) nets.now }
    requires below { AreBelow least.now }
    requires len { length counts.now ≡ length least.now }
    ensures { IfOk result (λ lone. lone ≡ map (is_lone circuit.now known.now least.now counts.now) nets.now) }
{
    let mut lone = Seq::new(alloc);
    for net in nets {
        lone.append(is_lone(circuit, known, least, counts, *net))?;
    }
    Ok(lone)
}

/// For each output port of a cell, in port order, whether it is alone in a phase: its net is not known, and the net of no other
/// is in its part of the kept circuit. `known` is what `known_nets` gives in the phase, and `outputs` are the nets of the
/// ports. Supplies, inputs and clock ports are in no part. The time is linear but for the parts, and only want of memory
/// refuses.
pub fn lone_outputs(
    alloc: Global,
    circuit: &Circuit,
    known: &[Option<bool>],
    outputs: &[Net],
) -> Result<Seq<bool>, NoMemory>
    requires wired { IsWired circuit.now }
    requires outputs { All (λ (n : NetValue). n.0 < length circuit.now.nets) outputs.now }
    ensures len { IfOk result (λ lone. length lone ≡ length outputs.now) }
    ensures alone { IfOk result (λ lone. (phase : PhaseValue) → IsKnownTable circuit.now phase (known_at known.now) → AreLone circuit.now phase (map (λ (n : NetValue). n.0) outputs.now) lone) }
{
    let labels = least_nets(alloc, circuit, known, false)?;
    let least = labels.as_slice();
    let counts = count_nets(alloc, circuit, least, outputs)?;
    judge_nets(alloc, circuit, known, least, counts.as_slice(), outputs)
}
