//! A circuit in a phase, and the spans for a look at it.

ghost use Rattle.std.specs.Prelude.{◌≡◌, ◌<◌, Some, length, slice_get};
ghost use Rattle.vrt_model.specs.Comparison.{phase_at};

use crate::steps::CircuitStep;
use channel_parts::{Part, Parts};
use node_pool::Span;
use vrt_model::{Circuit, Design, FlatInstance, Phase, Rules};

/// A circuit of a design in a phase of its rules, and the steps in which it is looked through.
#[derive(Clone, Copy)]
pub struct PhasedCircuit<'a> {
    /// The netlist that the cells of the circuit's instances are of.
    pub design: &'a Design,
    /// The rules.
    pub rules: &'a Rules,
    /// The circuit.
    pub circuit: &'a Circuit,
    /// The phase, by its number.
    pub phase: u32,
    /// The known nets of the phase, and its parts without keepers.
    pub parts: &'a Parts,
    /// The parts and the instances with constraints, in the order in which they are looked at.
    pub steps: &'a [CircuitStep],
    /// For each net, whether it is observed in the phase.
    pub observed: &'a [bool],
}

/// Spans of handles for a look at the bare circuit.
#[derive(Clone, Copy)]
pub struct CircuitSpans {
    /// The bit of the root at each net that is given or has a hold.
    pub roots: Span,
    /// Gets the bit of each observed net.
    pub gates: Span,
    /// The words of the nets of the greatest part.
    pub out: Span,
}

/// A part by its number.
pub(crate) fn part_at(parts: &Parts, number: u32) -> &Part
    requires { number < length parts.now.list }
    ensures { slice_get parts.entry.now.list number ≡ Some result.now }
{
    &parts.list.as_slice()[number as usize]
}

/// An instance by its number.
pub(crate) fn instance_at(circuit: &Circuit, at: u32) -> &FlatInstance
    requires { at < length circuit.now.instances }
    ensures { slice_get circuit.entry.now.instances at ≡ Some result.now }
{
    &circuit.instances.as_slice()[at as usize]
}

/// A phase by its number.
pub(crate) fn phase_at(rules: &Rules, phase: u32) -> &Phase
    requires { phase < length rules.now.phases }
    ensures { result.now ≡ phase_at rules.entry.now phase }
{
    &rules.phases.as_slice()[phase as usize]
}
