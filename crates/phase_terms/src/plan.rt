//! The order in which a phase is worked through.

use blif_eval::ModelPlan;
use channel_parts::Parts;
use circuit_faults::CircuitStep;
use phase_wishes::Wish;
use vrt_model::Seq;

/// What is made before a phase is looked through: all that takes memory.
pub struct PhasePlan {
    /// The known nets and the channel-connected parts of the circuit without keepers, in the order in which they are solved.
    pub parts: Parts,
    /// The parts of the circuit with its keepers.
    pub kept: Parts,
    /// The parts without keepers, and between them the instances whose cells have constraints, in their order.
    pub steps: Seq<CircuitStep>,
    /// The signals and elements of the model in the order in which they take their bits.
    pub model: ModelPlan,
    /// For each net, whether it is observed in the phase.
    pub observed: Vec<bool>,
    /// What output ports and holds ought to be given, in the order of places.
    pub wishes: Seq<Wish>,
}

/// By hand, so that letting go of one is a call.
impl Drop for PhasePlan {
    fn drop(self) {
        let PhasePlan {
            parts: _parts,
            kept: _kept,
            steps: _steps,
            model: _model,
            observed: _observed,
            wishes: _wishes,
        } = self;
    }
}
