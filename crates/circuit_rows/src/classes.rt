//! Classes of parts.

use crate::asks::phase;
use crate::stop::Stop;
use anyhow::Result;
use channel_parts::{ClassLine, classes};
use plain_paths::is_flat;
use std::alloc::Global;
use vrt_model::{Circuit, Phase, Seq};

// The phases in which the clock has these bits.
fn phases(alloc: Global, bits: &[u32]) -> Result<Seq<Phase>, Stop> {
    let mut phases = Seq::new(alloc);
    for bit in bits {
        phases.append(phase(alloc, *bit != 0)?)?;
    }
    Ok(phases)
}

// The classes of the parts of a circuit.
fn classes_of(alloc: Global, circuit: &Circuit, bits: &[u32]) -> Result<Seq<ClassLine>, Stop> {
    if !is_flat(circuit) {
        return Err(Stop::Unfit);
    }
    let phases = phases(alloc, bits)?;
    Ok(classes(alloc, circuit, &phases)?)
}

/// Tells the class of each part.
pub(crate) fn tell_classes(rt: HostRuntime, circuit: &Circuit, bits: &[u32]) -> Result<()> {
    let lines = classes_of(rt.alloc(), circuit, bits)?;
    for line in lines.as_slice() {
        let (net, class) = (line.net.0, line.class);
        println!(rt; "class: net {net} is {class:?}")?;
    }
    Ok(())
}
