//! What is made of the phases of a comparison before they are looked through: their variables, and then the plan of each.

ghost use Rattle.std.specs.Prelude.{◌≡◌, ◌<◌, ◌≤◌, [], length};
ghost use Rattle.cell_room.specs.Works.{AllVarsTell, PlanTells, PlansTell, VarsTell, WorksTell};
ghost use Rattle.phase_terms.specs.Ready.{IsReady, comparison_in};
ghost use Rattle.rule_index.specs.Tables.{AreRuleTables};

use crate::hindrance::Hindrance;
use hold_groups::{VarsFault, variables};
use phase_plan::{PlanFault, plan_phase};
use phase_terms::{Comparison, PhasePlan};
use rule_index::RuleIndex;
use std::alloc::Global;
use vrt_model::{Seq, Vars, Why};

/// The variables of a phase, or how many they are where they are too many.
fn phase_vars(alloc: Global, compared: Comparison<'_>, phase: u32) -> Result<Vars, Hindrance>
    ensures { VarsTell (comparison_in compared.entry) phase result }
{
    match variables(
        alloc,
        compared.circuit,
        compared.model,
        compared.groups,
        phase,
    ) {
        Ok(vars) => Ok(vars),
        Err(VarsFault::TooMany { count }) => Err(Hindrance::Because(Why::TooManyVars { count })),
        Err(VarsFault::NoMemory) => Err(Hindrance::NoMemory),
    }
}

/// The variables of each phase, or the count of the first phase that has too many.
fn add_vars(alloc: Global, compared: Comparison<'_>, vars: &mut Seq<Vars>) -> Result<(), Hindrance>
    requires phases { length compared.rules.now.phases ≤ 16 }
    requires none { vars.old ≡ [] }
    ensures { AllVarsTell (comparison_in compared.entry) vars.new result }
{
    for phase in 0..compared.rules.phases.len() as u32 {
        let one = match phase_vars(alloc, compared, phase) {
            Ok(one) => one,
            Err(stop) => return Err(stop),
        };
        vars.append(one)?;
    }
    Ok(())
}

/// The plan of a phase, or its cycle: that of the circuit, else that of the model.
fn phase_plan(
    alloc: Global,
    index: &RuleIndex,
    compared: Comparison<'_>,
    phase: u32,
) -> Result<PhasePlan, Hindrance>
    requires ready { IsReady (comparison_in compared) }
    requires tables { AreRuleTables compared.rules.now index.now }
    requires phase { phase < length compared.rules.now.phases }
    ensures { PlanTells (comparison_in compared.entry) phase result }
{
    match plan_phase(alloc, index, compared, phase) {
        Ok(plan) => Ok(plan),
        Err(PlanFault::Cycle { nets }) => Err(Hindrance::Because(Why::Cycle { phase, nets })),
        Err(PlanFault::ModelCycle { signals }) => {
            Err(Hindrance::Because(Why::ModelCycle { phase, signals }))
        }
        Err(PlanFault::NoMemory) => Err(Hindrance::NoMemory),
    }
}

/// The plan of each phase, or the first cycle, phase by phase, the circuit's before the model's.
pub(crate) fn add_plans(
    alloc: Global,
    index: &RuleIndex,
    compared: Comparison<'_>,
    plans: &mut Seq<PhasePlan>,
) -> Result<(), Hindrance>
    requires ready { IsReady (comparison_in compared) }
    requires tables { AreRuleTables compared.rules.now index.now }
    requires phases { length compared.rules.now.phases ≤ 16 }
    requires none { plans.old ≡ [] }
    ensures { PlansTell (comparison_in compared.entry) plans.new result }
{
    for phase in 0..compared.rules.phases.len() as u32 {
        let plan = match phase_plan(alloc, index, compared, phase) {
            Ok(plan) => plan,
            Err(stop) => return Err(stop),
        };
        plans.append(plan)?;
    }
    Ok(())
}

/// The variables of each phase, and then the plan of each; or the first cause: too many variables, else a cycle.
pub(crate) fn work_out(
    alloc: Global,
    index: &RuleIndex,
    compared: Comparison<'_>,
    vars: &mut Seq<Vars>,
    plans: &mut Seq<PhasePlan>,
) -> Result<(), Hindrance>
    requires ready { IsReady (comparison_in compared) }
    requires tables { AreRuleTables compared.rules.now index.now }
    requires no_vars { vars.old ≡ [] }
    requires no_plans { plans.old ≡ [] }
    ensures { WorksTell (comparison_in compared.entry) vars.new plans.new result }
{
    match add_vars(alloc, compared, vars) {
        Ok(()) => match add_plans(alloc, index, compared, plans) {
            Ok(()) => Ok(()),
            Err(stop) => Err(stop),
        },
        Err(stop) => Err(stop),
    }
}
