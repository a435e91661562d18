//! The checked circuit of a cell: chosen, and what is made of it before its phases are looked through.

ghost use Rattle.std.specs.Prelude.{◌≡◌, ◌&&◌, ◌<◌, ◌≤◌, None, Some, true, length, unwrap_or, IfOk};
ghost use Rattle.std.specs.List.{list_any};
ghost use Rattle.blif_eval.specs.Plans.{ArcOf};
ghost use Rattle.cell_room.specs.Checked.{CheckedGives, over};
ghost use Rattle.cell_room.specs.Made.{IsSearched, most_outputs};
ghost use Rattle.cell_room.specs.Planned.{ArePhases};
ghost use Rattle.cell_room.specs.Works.{ArePlans, IsAcyclicPlan};
ghost use Rattle.channel_parts.specs.PartLists.{IsPartList};
ghost use Rattle.checked_cells.specs.Given.{IsCheckedOf, is_candidate};
ghost use Rattle.phase_terms.specs.Ready.{IsReady, comparison_in};
ghost use Rattle.prepared_tables.specs.Prepared.{ArePrepared};
ghost use Rattle.rule_index.specs.Tables.{AreRuleTables};
ghost use Rattle.substitute.specs.BareParts.{AreBareParts, HasParts, HasPartsIn};
ghost use Rattle.vrt_model.specs.Checked.{has_fact};
ghost use Rattle.vrt_model.specs.Comparison.{phase_at};
ghost use Rattle.vrt_model.specs.Lists.{Among};
ghost use Rattle.vrt_model.specs.Networks.{HasRanges};
ghost use Rattle.vrt_model.specs.Unsupported.{AcyclicBefore, IsAcyclic, ModelArc};
ghost use Rattle.vrt_model.specs.declared.whole.CellFacts.{CellFacts as FactsValue};
ghost use Rattle.vrt_model.specs.declared.whole.Whole.{Whole as WholeValue};
ghost use Rattle.whole_cells.specs.Kept.{AreKept};
ghost use Rattle.whole_cells.specs.Own.{AreItsPlaces};
ghost use Rattle.whole_steps.specs.Logic.{nothing_known};
ghost use Rattle.whole_steps.specs.Tables.{AreOrders, IsWholeTable};

use crate::hindrance::Hindrance;
use crate::planned::Phases;
use crate::sizes::{counts_with, most_outputs, most_variables};
use crate::works::add_plans;
use blif_eval::{ModelPlan, PlanFault};
use channel_parts::Parts;
use net_places::Unrolled;
use phase_plan::{PlanFault as PhaseFault, plan_by_parts};
use phase_terms::{Comparison, PhasePlan, WordCounts};
use prepared_tables::Prepared;
use rule_index::RuleIndex;
use std::alloc::Global;
use substitute::{CheckedCircuit, whole_with};
use vrt_model::{CellFacts, Circuit, NoMemory, Seq};
use whole_cells::KeptCells;
use whole_steps::{OutputPlace, WholeTable, model_orders, output_drivers};

/// Both of two tests.
fn both(one: bool, other: bool) -> bool
    ensures { result ≡ (one && other) }
{
    one && other
}

/// Whether a cell is known as equal and stateless.
fn is_known(facts: &[CellFacts], cell: u32) -> bool
    ensures { result ≡ has_fact (λ (f : FactsValue). f.equal && f.stateless) facts.now cell }
{
    match facts.get(cell as usize) {
        Some(known) => both(known.equal, known.stateless),
        None => false,
    }
}

/// Whether an instance is of a cell that is known as equal and stateless.
fn has_candidate(circuit: &Circuit, facts: &[CellFacts]) -> bool
    ensures { result ≡ list_any (is_candidate facts.now) circuit.now.instances }
{
    let mut rest = circuit.instances.as_slice();
    'instances: while let Some((instance, behind)) = rest.split_first() {
        if is_known(facts, instance.cell) {
            return true;
        }
        rest = behind;
    }
    false
}

/// The checked circuit of a comparison in whose way nothing stands; none where it is the flat one. That is so where no instance is
/// of a cell that is known as equal and stateless, and no more is made then.
fn checked_circuit(
    alloc: Global,
    prepared: &Prepared,
    phases: Phases<'_>,
    unrolled: &Unrolled,
    kept: &mut KeptCells,
) -> Result<Option<CheckedCircuit>, NoMemory>
    requires prepared { ArePrepared phases.compared.design.now phases.blif.now phases.compared.rules.now prepared.now }
    requires phases { ArePhases phases }
    requires places { AreItsPlaces phases.compared.design.now phases.compared.rules.now phases.compared.cell unrolled.now }
    requires kept { AreKept phases.compared.design.now phases.blif.now phases.compared.rules.now phases.facts.now kept.old }
    ensures checked { IfOk result (CheckedGives (comparison_in phases.entry.compared) phases.entry.blif.now phases.entry.facts.now) }
    ensures kept { IfOk result (λ _. AreKept phases.entry.compared.design.now phases.entry.blif.now phases.entry.compared.rules.now phases.entry.facts.now kept.new) }
{
    let compared = phases.compared;
    if !has_candidate(compared.circuit, phases.facts) {
        return Ok(None);
    }
    let whole = whole_with(
        alloc,
        prepared,
        compared.design,
        phases.blif,
        compared.rules,
        compared.cell,
        unrolled,
        compared.circuit,
        phases.facts,
        kept,
    )?;
    Ok(whole)
}

/// The orders of the models of whole instances, none of which has a cycle.
fn orders_of(alloc: Global, circuit: &Circuit) -> Result<Seq<ModelPlan>, NoMemory>
    requires ranges { HasRanges circuit.now }
    requires acyclic { (w : WholeValue) → Among circuit.now.wholes w → IsAcyclic (ArcOf w.model (nothing_known w.model)) }
    ensures { IfOk result (λ orders. AreOrders circuit.now.wholes (length circuit.now.wholes) orders) }
{
    match model_orders(alloc, circuit) {
        Ok(orders) => Ok(orders),
        Err(PlanFault::ModelCycle { signals: _ }) => unreachable!(),
        Err(PlanFault::NoMemory) => Err(NoMemory),
    }
}

/// A comparison with another circuit that has the same groups of holds, and what is made of the whole instances of this circuit.
fn over<'a>(
    compared: Comparison<'a>,
    circuit: &'a Circuit,
    wholes: WholeTable<'a>,
) -> Comparison<'a>
    requires wholes { IsWholeTable circuit.now wholes.drivers.now wholes.plans.now }
    ensures is { comparison_in result ≡ over (comparison_in compared.entry) circuit.now }
    ensures wholes { IsWholeTable result.circuit.now result.wholes.drivers.now result.wholes.plans.now }
{
    Comparison {
        design: compared.design,
        rules: compared.rules,
        cell: compared.cell,
        pairing: compared.pairing,
        circuit,
        wholes,
        model: compared.model,
        groups: compared.groups,
    }
}

/// What is looked through in place of the flat circuit of a cell, and what is made of it before.
#[derive(Drop)]
pub(crate) struct Searched {
    /// The checked circuit; none where it is the flat one.
    pub(crate) checked: Option<Circuit>,
    /// For each net the last of the outputs of whole instances at it.
    pub(crate) drivers: Vec<Option<OutputPlace>>,
    /// The orders of the models of whole instances.
    pub(crate) orders: Seq<ModelPlan>,
    /// The plan of each phase over the checked circuit; none where it is the flat one.
    pub(crate) plans: Option<Seq<PhasePlan>>,
    /// How many words a phase of it takes, by kind.
    pub(crate) counts: WordCounts,
}

/// The plan of each phase of a comparison whose circuit and model have no cycle.
fn plans_of(
    alloc: Global,
    index: &RuleIndex,
    compared: Comparison<'_>,
) -> Result<Seq<PhasePlan>, NoMemory>
    requires ready { IsReady (comparison_in compared) }
    requires tables { AreRuleTables compared.rules.now index.now }
    requires acyclic { AcyclicBefore (comparison_in compared) (length compared.rules.now.phases) }
    ensures { IfOk result (ArePlans (comparison_in compared.entry) (length compared.entry.rules.now.phases)) }
{
    let mut plans = Seq::new(alloc);
    match add_plans(alloc, index, compared, &mut plans) {
        Ok(()) => Ok(plans),
        // a cause would be a cycle, and there is none
        Err(Hindrance::Because(_)) => unreachable!(),
        Err(Hindrance::NoMemory) => Err(NoMemory),
    }
}

/// The plan of a phase of a comparison whose model has no cycle, by the parts of its circuit without keepers.
fn plan_by(
    alloc: Global,
    index: &RuleIndex,
    compared: Comparison<'_>,
    phase: u32,
    parts: Parts,
) -> Result<PhasePlan, NoMemory>
    requires ready { IsReady (comparison_in compared) }
    requires tables { AreRuleTables compared.rules.now index.now }
    requires phase { phase < length compared.rules.now.phases }
    requires parts { IsPartList compared.circuit.now (phase_at compared.rules.now phase) true parts }
    requires acyclic { IsAcyclic (ModelArc (comparison_in compared) phase) }
    ensures { IfOk result (IsAcyclicPlan (comparison_in compared.entry) phase) }
{
    match plan_by_parts(alloc, index, compared, phase, parts) {
        Ok(plan) => Ok(plan),
        // a circuit that has parts has no cycle, and neither has the model
        Err(PhaseFault::Cycle { nets: _ }) => unreachable!(),
        Err(PhaseFault::ModelCycle { signals: _ }) => unreachable!(),
        Err(PhaseFault::NoMemory) => Err(NoMemory),
    }
}

/// The plan of each phase of a comparison whose model has no cycle, by the parts of its circuit without keepers, those of the last phase
/// first.
fn plans_by(
    alloc: Global,
    index: &RuleIndex,
    compared: Comparison<'_>,
    parts: Vec<Parts>,
) -> Result<Seq<PhasePlan>, NoMemory>
    requires ready { IsReady (comparison_in compared) }
    requires tables { AreRuleTables compared.rules.now index.now }
    requires phases { length compared.rules.now.phases ≤ 16 }
    requires parts { AreBareParts compared.circuit.now compared.rules.now.phases parts.items }
    requires acyclic { AcyclicBefore (comparison_in compared) (length compared.rules.now.phases) }
    ensures { IfOk result (ArePlans (comparison_in compared.entry) (length compared.entry.rules.now.phases)) }
{
    let mut left = parts;
    let mut plans = Seq::new(alloc);
    for phase in 0..compared.rules.phases.len() as u32 {
        // there are parts for each phase
        let Some(own) = left.pop() else {
            unreachable!()
        };
        let plan = plan_by(alloc, index, compared, phase, own)?;
        plans.append(plan)?;
    }
    Ok(plans)
}

/// The plan of each phase of a checked circuit: by its parts, where they were made as it was chosen.
fn plans_with(
    alloc: Global,
    index: &RuleIndex,
    compared: Comparison<'_>,
    parts: Option<Vec<Parts>>,
) -> Result<Seq<PhasePlan>, NoMemory>
    requires ready { IsReady (comparison_in compared) }
    requires tables { AreRuleTables compared.rules.now index.now }
    requires parts { HasPartsIn compared.circuit.now compared.rules.now.phases parts }
    requires acyclic { AcyclicBefore (comparison_in compared) (length compared.rules.now.phases) }
    ensures { IfOk result (ArePlans (comparison_in compared.entry) (length compared.entry.rules.now.phases)) }
{
    match parts {
        Some(parts) => plans_by(alloc, index, compared, parts),
        None => plans_of(alloc, index, compared),
    }
}

/// The outputs of whole instances in a checked circuit, the orders of their models, the plans of its phases and the counts of their words. Its
/// arcs have no cycle, as those of the flat circuit.
fn searched_whole(
    alloc: Global,
    index: &RuleIndex,
    phases: Phases<'_>,
    checked: CheckedCircuit,
) -> Result<Searched, NoMemory>
    requires tables { AreRuleTables phases.compared.rules.now index.now }
    requires phases { ArePhases phases }
    requires checked { IsCheckedOf (comparison_in phases.compared) phases.blif.now phases.facts.now checked.circuit }
    requires parts { HasParts phases.compared.rules.now.phases checked }
    ensures searched { IfOk result (IsSearched (comparison_in phases.entry.compared) phases.entry.vars.now) }
    ensures circuit { IfOk result (λ s. s.checked ≡ Some checked.circuit) }
{
    let CheckedCircuit { circuit, parts } = checked;
    let drivers = output_drivers(alloc, &circuit)?;
    let orders = orders_of(alloc, &circuit)?;
    let wholes = WholeTable {
        drivers: drivers.as_slice(),
        plans: orders.as_slice(),
    };
    let compared = over(phases.compared, &circuit, wholes);
    let most = most_outputs(phases.compared.circuit);
    let counts = counts_with(compared, most_variables(phases.vars), most)?;
    let plans = plans_with(alloc, index, compared, parts)?;
    Ok(Searched {
        checked: Some(circuit),
        drivers,
        orders,
        plans: Some(plans),
        counts,
    })
}

/// The flat circuit, where it is the checked one.
fn searched_flat(alloc: Global, phases: Phases<'_>) -> Result<Searched, NoMemory>
    requires phases { ArePhases phases }
    requires checked { IsCheckedOf (comparison_in phases.compared) phases.blif.now phases.facts.now phases.compared.circuit.now }
    ensures searched { IfOk result (IsSearched (comparison_in phases.entry.compared) phases.entry.vars.now) }
    ensures circuit { IfOk result (λ s. s.checked ≡ None) }
{
    let compared = phases.compared;
    let most = most_outputs(compared.circuit);
    let counts = counts_with(compared, most_variables(phases.vars), most)?;
    Ok(Searched {
        checked: None,
        drivers: Vec::new(alloc),
        orders: Seq::new(alloc),
        plans: None,
        counts,
    })
}

/// The circuit in which the phases of a comparison are looked through, with what is made of it before.
pub(crate) fn searched_of(
    alloc: Global,
    prepared: &Prepared,
    phases: Phases<'_>,
    unrolled: &Unrolled,
    kept: &mut KeptCells,
) -> Result<Searched, NoMemory>
    requires prepared { ArePrepared phases.compared.design.now phases.blif.now phases.compared.rules.now prepared.now }
    requires phases { ArePhases phases }
    requires places { AreItsPlaces phases.compared.design.now phases.compared.rules.now phases.compared.cell unrolled.now }
    requires kept { AreKept phases.compared.design.now phases.blif.now phases.compared.rules.now phases.facts.now kept.old }
    ensures searched { IfOk result (IsSearched (comparison_in phases.entry.compared) phases.entry.vars.now) }
    ensures checked { IfOk result (λ s. IsCheckedOf (comparison_in phases.entry.compared) phases.entry.blif.now phases.entry.facts.now (unwrap_or s.checked phases.entry.compared.circuit.now)) }
    ensures kept { IfOk result (λ _. AreKept phases.entry.compared.design.now phases.entry.blif.now phases.entry.compared.rules.now phases.entry.facts.now kept.new) }
{
    match checked_circuit(alloc, prepared, phases, unrolled, kept)? {
        Some(checked) => searched_whole(alloc, &prepared.index, phases, checked),
        None => searched_flat(alloc, phases),
    }
}
