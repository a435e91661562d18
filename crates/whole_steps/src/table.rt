//! What is made of the whole instances of a circuit before its nets are looked through.

ghost use Rattle.std.specs.Prelude.{◌≡◌, ◌+◌, ◌<◌, Some, length, slice_get};
ghost use Rattle.whole_steps.specs.Tables.{driver_at, free_at};

use blif_eval::ModelPlan;
use vrt_model::{Circuit, Net, Whole, WholePin};

/// Where an output of a whole instance stands.
#[derive(Clone, Copy)]
pub struct OutputPlace {
    /// The number of the instance, a place in `Circuit.wholes`.
    pub whole: usize,
    /// The place of the pin in `Whole.outputs`.
    pub output: usize,
    /// Its number among the outputs of all whole instances, instance by instance.
    pub number: usize,
    /// Whether it is soft and alone at a net that no channel meets, as far as is known; only such an output is marked.
    pub free: bool,
}

/// The outputs of whole instances by net, and for each whole instance an order of its model. Two empty slices serve a circuit
/// without whole instances.
#[derive(Clone, Copy)]
pub struct WholeTable<'a> {
    /// For each net, by its number, the last output of a whole instance at it, if there is one; and behind the nets for each output the
    /// last before it at its net. Numbers behind the last have none.
    pub drivers: &'a [Option<OutputPlace>],
    /// For each whole instance the order in which the signals of its model take their bits.
    pub plans: &'a [ModelPlan],
}

/// The last output of a whole instance at a net, if there is one.
pub fn driver_of(wholes: WholeTable<'_>, net: Net) -> Option<OutputPlace>
    ensures { result ≡ driver_at wholes.entry.drivers.now net.0 }
{
    match wholes.drivers.get(net.0 as usize) {
        Some(driver) => *driver,
        None => None,
    }
}

/// The last output before one that is at its net, if there is one.
pub fn earlier_of(
    wholes: WholeTable<'_>,
    circuit: &Circuit,
    place: OutputPlace,
) -> Option<OutputPlace>
    requires { length circuit.now.nets + place.number < 18446744073709551616 }
    ensures { result ≡ driver_at wholes.entry.drivers.now (length circuit.entry.now.nets + place.number) }
{
    match wholes.drivers.get(circuit.nets.len() + place.number) {
        Some(driver) => *driver,
        None => None,
    }
}

/// The output at a net that is free, if one is.
pub fn free_driver(wholes: WholeTable<'_>, net: Net) -> Option<OutputPlace>
    ensures { result ≡ free_at wholes.entry.drivers.now net.0 }
{
    match driver_of(wholes, net) {
        Some(place) => { if place.free { Some(place) } else { None } }
        None => None,
    }
}

/// A whole instance by its number.
pub(crate) fn whole_at(circuit: &Circuit, number: usize) -> &Whole
    requires { number < length circuit.now.wholes }
    ensures { slice_get circuit.entry.now.wholes number ≡ Some result.now }
{
    &circuit.wholes.as_slice()[number]
}

/// An output pin by its place.
pub(crate) fn pin_at(whole: &Whole, place: usize) -> WholePin
    requires { place < length whole.now.outputs }
    ensures { slice_get whole.now.outputs place ≡ Some result }
{
    whole.outputs.as_slice()[place]
}

/// The order of the model of a whole instance.
pub(crate) fn plan_at(plans: &[ModelPlan], number: usize) -> &ModelPlan
    requires { number < length plans.now }
    ensures { slice_get plans.entry.now number ≡ Some result.now }
{
    &plans[number]
}
