//! The plan of a phase.

ghost use Rattle.std.specs.Prelude.{◌≡◌, ◌<◌, IfOk, length, true};
ghost use Rattle.channel_parts.specs.PartLists.{IsPartList};
ghost use Rattle.phase_plan.specs.Gives.{HasModelPlan, PlanGives};
ghost use Rattle.phase_terms.specs.Plans.{IsPhasePlan};
ghost use Rattle.phase_terms.specs.Ready.{IsReady, comparison_in};
ghost use Rattle.rule_index.specs.Tables.{AreRuleTables};
ghost use Rattle.vrt_model.specs.Comparison.{phase_at};
ghost use Rattle.vrt_model.specs.Unsupported.{CircuitArc, IsAcyclic, ModelArc};

use crate::circuits::bare_parts;
use crate::fault::PlanFault;
use crate::model_order::model_order;
use crate::wishes::wishes_of;
use blif_eval::ModelPlan;
use channel_parts::{Parts, parts_with_keepers};
use circuit_faults::circuit_steps;
use phase_ports::observed_nets;
use phase_terms::{Comparison, PhasePlan};
use rule_index::RuleIndex;
use std::alloc::Global;
use vrt_model::NoMemory;

/// The plan of a phase, where the parts of the bare circuit and the order of the model are there.
fn plan_with(
    alloc: Global,
    index: &RuleIndex,
    compared: Comparison<'_>,
    phase: u32,
    parts: Parts,
    model: ModelPlan,
) -> Result<PhasePlan, NoMemory>
    requires ready { IsReady (comparison_in compared) }
    requires tables { AreRuleTables compared.rules.now index.now }
    requires phase { phase < length compared.rules.now.phases }
    requires parts { IsPartList compared.circuit.now (phase_at compared.rules.now phase) true parts }
    requires model { HasModelPlan (comparison_in compared) phase model }
    ensures { IfOk result (IsPhasePlan (comparison_in compared.entry) phase) }
{
    let steps = circuit_steps(
        alloc,
        compared.design,
        compared.rules,
        compared.circuit,
        phase,
        &parts,
    )?;
    let kept = parts_with_keepers(alloc, compared.circuit, &parts)?;
    let observed = observed_nets(
        alloc,
        index,
        compared.design,
        compared.rules,
        compared.cell,
        compared.circuit,
        compared.pairing,
        phase,
    )?;
    let wishes = wishes_of(alloc, index, compared, phase)?;
    Ok(PhasePlan {
        parts,
        kept,
        steps,
        model,
        observed,
        wishes,
    })
}

/// The plan of a phase by the parts of its circuit without keepers, which were made before, so that the circuit has no cycle. Where there is one,
/// the model has none either; else the first cycle of the model is told.
pub fn plan_by_parts(
    alloc: Global,
    index: &RuleIndex,
    compared: Comparison<'_>,
    phase: u32,
    parts: Parts,
) -> Result<PhasePlan, PlanFault>
    requires ready { IsReady (comparison_in compared) }
    requires tables { AreRuleTables compared.rules.now index.now }
    requires phase { phase < length compared.rules.now.phases }
    requires parts { IsPartList compared.circuit.now (phase_at compared.rules.now phase) true parts }
    ensures gives { PlanGives (comparison_in compared.entry) phase result }
    ensures acyclic { IfOk result (λ _. IsAcyclic (CircuitArc (comparison_in compared.entry) phase) × IsAcyclic (ModelArc (comparison_in compared.entry) phase)) }
{
    let model = model_order(alloc, compared, phase)?;
    match plan_with(alloc, index, compared, phase, parts, model) {
        Ok(plan) => Ok(plan),
        Err(_) => Err(PlanFault::NoMemory),
    }
}

/// The plan of a phase: the parts of the circuit without its keepers and with them, the steps in which it is looked through, the
/// order of the model under the bits of its clocks, the observed nets, and what is wanted of nets. Where there is one, neither
/// the circuit nor the model has a cycle. Else the first cycle is told, that of the circuit before that of the model.
pub fn plan_phase(
    alloc: Global,
    index: &RuleIndex,
    compared: Comparison<'_>,
    phase: u32,
) -> Result<PhasePlan, PlanFault>
    requires ready { IsReady (comparison_in compared) }
    requires tables { AreRuleTables compared.rules.now index.now }
    requires phase { phase < length compared.rules.now.phases }
    ensures gives { PlanGives (comparison_in compared.entry) phase result }
    ensures acyclic { IfOk result (λ _. IsAcyclic (CircuitArc (comparison_in compared.entry) phase) × IsAcyclic (ModelArc (comparison_in compared.entry) phase)) }
{
    let parts = bare_parts(alloc, compared, phase)?;
    plan_by_parts(alloc, index, compared, phase, parts)
}
