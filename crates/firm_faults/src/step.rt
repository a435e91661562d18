//! Circuits with one instance more that is left whole.

ghost use Rattle.firm_faults.specs.StepDown.{FirmGroundGoesDown};
ghost use Rattle.firm_faults.specs.StepParts.{ReplacedInstancesStepDown};

/// What is on firm ground with a cell whole is on firm ground with the cell in the circuit, also where its outputs meet more than gates: a net
/// keeps its number, and an instance is the same one.
pub fn firm_ground_goes_down()
    ensures { FirmGroundGoesDown }
{}

/// What that asks of nets, observed nets and instances holds where an instance is left whole over the same nets, with the cell's other
/// instances gone.
pub fn replaced_instances_step_down()
    ensures { ReplacedInstancesStepDown }
{}
