//! Whether the order matters in which ports rise.

ghost use Rattle.std.specs.Prelude.{◌≡◌, ◌<◌, ◌≤◌, length, IfOk};
ghost use Rattle.domino_order.specs.Arrivals.{AreRising, ArrivalTells, arrival_variables};
ghost use Rattle.domino_order.specs.Ports.{PortsGive};
ghost use Rattle.domino_order.specs.Runs.{IsAsked};
ghost use Rattle.phase_terms.specs.Ready.{IsReady, comparison_in};
ghost use Rattle.rule_index.specs.Tables.{AreRuleTables};
ghost use Rattle.vrt_model.specs.Circuits.{IsFlat};
ghost use Rattle.vrt_model.specs.Equal.{IsPhaseEqual};
ghost use Rattle.vrt_model.specs.Held.{sources_of};
ghost use Rattle.vrt_model.specs.declared.blif.Blif.{Blif};

use crate::arrival::Arrival;
use crate::made::{numbers, rising_nets, run_counts, small, sum, variables_of};
use crate::ports::search_ports;
use crate::prepared::Asked;
use crate::step::Rising;
use bdd_core::Store;
use circuit_faults::{CircuitStep, part_steps};
use hold_groups::{VarsFault, variables};
use phase_open::word_count;
use phase_plan::plan_phase;
use phase_terms::{Comparison, PhasePlan, WordCounts};
use rule_index::RuleIndex;
use std::alloc::Global;
use vrt_model::{NoMemory, Seq, Vars};

/// The ports searched in a store that is opened for it.
fn search_opened(
    alloc: Global,
    budget: u32,
    asked: Asked<'_>,
    ports: &[u32],
) -> Result<Arrival, NoMemory>
    requires asked { IsAsked asked }
    requires budget { (65536 ≤ budget) × (budget ≤ 64000000) }
    requires ports { length ports.now ≡ length asked.rising.nets.now }
    ensures gives { IfOk result (PortsGive asked.entry ports.now budget) }
{
    let nets = asked.rising.compared.circuit.nets.len() as u32;
    let words = word_count(asked.counts) + 2 * nets;
    let mut store = Store::with_budget(alloc, budget, words, asked.counts.variables)?;
    search_ports(&mut store, alloc, budget, asked, ports)
}

/// What is asked of nets that rise in a planned phase.
fn asked_of<'a>(
    compared: Comparison<'a>,
    phase: u32,
    plan: &'a PhasePlan,
    steps: &'a [CircuitStep],
    nets: &'a [u32],
    vars: &'a Vars,
    order: &'a [u32],
    arrivals: &'a [u32],
    counts: WordCounts,
) -> Asked<'a>
    ensures compared { result.rising.compared ≡ compared.entry }
    ensures phase { result.rising.phase ≡ phase }
    ensures plan { result.rising.plan.now ≡ plan.entry.now }
    ensures steps { result.rising.steps.now ≡ steps.entry.now }
    ensures nets { result.rising.nets.now ≡ nets.entry.now }
    ensures vars { result.vars.now ≡ vars.entry.now }
    ensures order { result.order.now ≡ order.entry.now }
    ensures arrivals { result.arrivals.now ≡ arrivals.entry.now }
    ensures counts { result.counts ≡ counts }
{
    let rising = Rising {
        compared,
        phase,
        plan,
        steps,
        nets,
    };
    Asked {
        rising,
        vars,
        order,
        arrivals,
        counts,
    }
}

/// What is told where the variables and arrivals are few.
fn monotone_few(
    alloc: Global,
    budget: u32,
    index: &RuleIndex,
    compared: Comparison<'_>,
    phase: u32,
    vars: &Vars,
    first: u32,
    rising: &[u32],
) -> Result<Arrival, NoMemory>
    requires budget { (65536 ≤ budget) × (budget ≤ 64000000) }
    requires ready { IsReady (comparison_in compared) }
    requires flat { IsFlat compared.circuit.now }
    requires tables { AreRuleTables compared.rules.now index.now }
    requires phase { phase < length compared.rules.now.phases }
    requires equal { IsPhaseEqual (comparison_in compared) phase }
    requires rising { AreRising (comparison_in compared) rising.now }
    requires vars { vars.now.sources ≡ sources_of (comparison_in compared) phase }
    requires first { first ≡ length vars.now.sources }
    requires few { arrival_variables (comparison_in compared) phase rising.now ≤ 1000 }
    ensures tells { IfOk result (λ a. (blif : Blif) → ArrivalTells (comparison_in compared.entry) blif budget phase rising.now a) }
{
    let counts = run_counts(compared, first)?;
    let nets = rising_nets(alloc, compared, rising)?;
    let order = numbers(alloc, first)?;
    let arrivals = variables_of(alloc, compared.circuit, nets.as_slice())?;
    let Ok(plan) = plan_phase(alloc, index, compared, phase) else {
        return Err(NoMemory);
    };
    let parts = small(plan.parts.list.len())?;
    let steps = part_steps(alloc, parts)?;
    let asked = asked_of(
        compared,
        phase,
        &plan,
        steps.as_slice(),
        nets.as_slice(),
        vars,
        order.as_slice(),
        arrivals.as_slice(),
        counts,
    );
    search_opened(alloc, budget, asked, rising)
}

/// Whether the order matters in which some input ports of an equal cell rise within a phase, one by one, the circuit settling after each, from the
/// tables of the rules and what was made of the cell: its flat circuit and model, the pairing and the groups. Constraints are asked of the valuation
/// alone, and not of the settings on the way.
///
/// `TooMany` comes exactly where the variables of the phase and the ports are together more than 1,000. `Budget` comes only with more than four of
/// them, where the budget is less than the nodes that the searches may need. Want of memory is the only refusal.
pub fn monotone_with(
    alloc: Global,
    budget: u32,
    index: &RuleIndex,
    compared: Comparison<'_>,
    phase: u32,
    rising: &Seq<u32>,
) -> Result<Arrival, NoMemory>
    requires budget { (65536 ≤ budget) × (budget ≤ 64000000) }
    requires ready { IsReady (comparison_in compared) }
    requires flat { IsFlat compared.circuit.now }
    requires tables { AreRuleTables compared.rules.now index.now }
    requires phase { phase < length compared.rules.now.phases }
    requires equal { IsPhaseEqual (comparison_in compared) phase }
    requires rising { AreRising (comparison_in compared) rising.now }
    ensures tells { IfOk result (λ a. (blif : Blif) → ArrivalTells (comparison_in compared.entry) blif budget phase rising.now a) }
{
    let arrivals = small(rising.len())?;
    let vars = match variables(
        alloc,
        compared.circuit,
        compared.model,
        compared.groups,
        phase,
    ) {
        Ok(vars) => vars,
        Err(VarsFault::TooMany { count }) => {
            let count = sum(count, arrivals)?;
            return Ok(Arrival::TooMany { count });
        }
        Err(VarsFault::NoMemory) => return Err(NoMemory),
    };
    let first = small(vars.sources.len())?;
    let count = sum(first, arrivals)?;
    if count > 1000 {
        return Ok(Arrival::TooMany { count });
    }
    monotone_few(
        alloc,
        budget,
        index,
        compared,
        phase,
        &vars,
        first,
        rising.as_slice(),
    )
}
