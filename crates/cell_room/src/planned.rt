//! A cell before its phases are looked through: flattened, with the variables and the plan of each phase, or the first cause that stands in the
//! way.

ghost use Rattle.std.specs.Prelude.{◌≡◌, ℕ, length};
ghost use Rattle.cell_room.specs.Checked.{IsCheckable};
ghost use Rattle.cell_room.specs.Compared.{AreInputs};
ghost use Rattle.cell_room.specs.Planned.{ArePhases, PlannedTells};
ghost use Rattle.cell_room.specs.Steps.{IsPlacedCell};
ghost use Rattle.cell_room.specs.Works.{ArePlans, AreVars, IsPlanned};
ghost use Rattle.phase_terms.specs.Ready.{IsReady, comparison_in};
ghost use Rattle.prepared_tables.specs.Prepared.{ArePrepared};
ghost use Rattle.rule_index.specs.Tables.{AreRuleTables};
ghost use Rattle.vrt_model.specs.PairedPorts.{Model, paired_model};
ghost use Rattle.vrt_model.specs.declared.blif.Blif.{Blif as BlifValue};
ghost use Rattle.whole_steps.specs.Tables.{IsWholeTable};

use crate::comparison::flat_comparison;
use crate::flattened::Flattened;
use crate::flattening::{Placed, flatten_cell};
use crate::hindrance::Hindrance;
use crate::works::work_out;
use net_places::Unrolled;
use phase_terms::{Comparison, PhasePlan};
use prepared_tables::Prepared;
use rule_index::RuleIndex;
use std::alloc::Global;
use vrt_model::{Blif, CellFacts, Design, Rules, Seq, Vars, Why};

/// A cell in whose way nothing stands, flattened, with the variables and the plans of its phases.
#[derive(Drop)]
pub struct Planned {
    /// The places of the cell and its instances.
    pub unrolled: Unrolled,
    /// The flat circuit and the flat model, their pairing, and the groups of the holds.
    pub flattened: Flattened,
    /// The variables of each phase.
    pub vars: Seq<Vars>,
    /// The plan of each phase, over the flat circuit.
    pub plans: Seq<PhasePlan>,
}

impl Planned {
    /// The flat circuit and the flat model, of which nothing else is kept.
    pub fn into_flattened(self) -> Flattened
        ensures { result ≡ self.flattened }
    {
        let Planned {
            unrolled: _unrolled,
            flattened,
            vars: _vars,
            plans: _plans,
        } = self;
        flattened
    }
}

/// Why a cell that has a model is not looked through.
#[derive(Drop)]
pub enum NotPlanned {
    /// This stands in the way; with what was flattened where it is a count of variables or a cycle.
    Because(Why, Option<Flattened>),
    /// Memory could not be had.
    NoMemory,
}

/// The phases of a comparison over a flat circuit in whose way nothing stands.
#[derive(Clone, Copy)]
pub(crate) struct Phases<'a> {
    /// What is compared.
    pub(crate) compared: Comparison<'a>,
    /// The models of the file.
    pub(crate) blif: &'a Blif,
    /// What is known of the cells below.
    pub(crate) facts: &'a [CellFacts],
    /// The variables of each phase.
    pub(crate) vars: &'a [Vars],
    /// The plan of each phase.
    pub(crate) plans: &'a [PhasePlan],
}

/// The phases of a comparison with these variables and plans.
pub(crate) fn phases_of<'a>(
    compared: Comparison<'a>,
    blif: &'a Blif,
    facts: &'a [CellFacts],
    vars: &'a [Vars],
    plans: &'a [PhasePlan],
) -> Phases<'a>
    requires ready { IsReady (comparison_in compared) }
    requires wholes { IsWholeTable compared.circuit.now compared.wholes.drivers.now compared.wholes.plans.now }
    requires checkable { IsCheckable (comparison_in compared) blif.now facts.now }
    requires planned { IsPlanned (comparison_in compared) }
    requires vars { AreVars (comparison_in compared) (length compared.rules.now.phases) vars.now }
    requires plans { ArePlans (comparison_in compared) (length compared.rules.now.phases) plans.now }
    ensures phases { ArePhases result }
    ensures compared { result.compared ≡ compared.entry }
    ensures blif { result.blif.now ≡ blif.entry.now }
    ensures facts { result.facts.now ≡ facts.entry.now }
    ensures vars { result.vars.now ≡ vars.entry.now }
{
    Phases {
        compared,
        blif,
        facts,
        vars,
        plans,
    }
}

/// A flattened cell with its variables and plans.
fn planned_of(placed: Placed, vars: Seq<Vars>, plans: Seq<PhasePlan>) -> Planned
    ensures { result ≡ record { unrolled = placed.unrolled; flattened = placed.flattened; vars = vars; plans = plans } }
{
    let Placed {
        unrolled,
        flattened,
    } = placed;
    Planned {
        unrolled,
        flattened,
        vars,
        plans,
    }
}

/// The flat circuit and the flat model of a cell, of which nothing else is kept.
fn flattened_of(placed: Placed) -> Flattened
    ensures { result ≡ placed.flattened }
{
    let Placed {
        unrolled: _unrolled,
        flattened,
    } = placed;
    flattened
}

/// The variables and plans of a flattened cell, or what stands in their way: a count of variables, else a cycle.
fn plan_placed(
    alloc: Global,
    index: &RuleIndex,
    design: &Design,
    rules: &Rules,
    cell: u32,
    placed: Placed,
) -> Result<Planned, NotPlanned>
    requires tables { AreRuleTables rules.now index.now }
    requires placed { (blif : BlifValue) × (m : ℕ) × AreInputs design.now blif rules.now cell × IsPlacedCell design.now blif rules.now cell m placed }
    ensures { (blif : BlifValue) (m : ℕ) → AreInputs design.now blif rules.now cell → IsPlacedCell design.now blif rules.now cell m placed → PlannedTells design.now blif rules.now cell m result }
{
    let mut vars = Seq::new(alloc);
    let mut plans = Seq::new(alloc);
    let compared = flat_comparison(design, rules, cell, &placed.flattened);
    match work_out(alloc, index, compared, &mut vars, &mut plans) {
        Ok(()) => Ok(planned_of(placed, vars, plans)),
        Err(Hindrance::Because(why)) => {
            Err(NotPlanned::Because(why, Some(flattened_of(placed))))
        }
        Err(Hindrance::NoMemory) => Err(NotPlanned::NoMemory),
    }
}

/// A cell that pairs with this model, flattened, with the variables and the plans of its phases; or the first cause that stands in the way: of
/// its circuit or its model, else too many variables in a phase, else a cycle in one.
pub fn plan_cell(
    alloc: Global,
    prepared: &Prepared,
    design: &Design,
    blif: &Blif,
    rules: &Rules,
    cell: u32,
    model: u32,
) -> Result<Planned, NotPlanned>
    requires prepared { ArePrepared design.now blif.now rules.now prepared.now }
    requires inputs { AreInputs design.now blif.now rules.now cell }
    requires paired { paired_model design.now blif.now rules.now cell ≡ Model model }
    ensures { PlannedTells design.now blif.now rules.now cell model result }
{
    match flatten_cell(alloc, prepared, design, blif, rules, cell, model) {
        Ok(placed) => plan_placed(alloc, &prepared.index, design, rules, cell, placed),
        Err(Hindrance::Because(why)) => Err(NotPlanned::Because(why, None)),
        Err(Hindrance::NoMemory) => Err(NotPlanned::NoMemory),
    }
}
