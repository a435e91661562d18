//! Arrival orders of a cell.

ghost use Rattle.std.specs.Prelude.{◌≡◌, ℕ, ◌<◌, ◌≤◌, length, IfOk};
ghost use Rattle.cell_room.specs.Compared.{AreInputs, IsFlattened, comparison};
ghost use Rattle.domino_cells.specs.Cells.{IsEqualIn};
ghost use Rattle.domino_order.specs.Arrivals.{AreRising, ArrivalTells};
ghost use Rattle.phase_terms.specs.Ready.{comparison_in};
ghost use Rattle.rule_index.specs.Tables.{AreRuleTables};
ghost use Rattle.vrt_model.specs.Equal.{IsPhaseEqual};
ghost use Rattle.vrt_model.specs.Hierarchy.{IsOrdered};
ghost use Rattle.vrt_model.specs.Inputs.{AreRules, IsBlif, IsDesign};
ghost use Rattle.vrt_model.specs.Models.{AreModels};
ghost use Rattle.vrt_model.specs.Unsupported.{comparison_of};
ghost use Rattle.vrt_model.specs.declared.blif.Blif.{Blif as BlifValue};

use blif_eval::ModelPlan;
use cell_compare::{EarlyCell, Flattened, early_prepared};
use domino_order::{Arrival, monotone_with};
use phase_terms::Comparison;
use prepared_tables::prepare;
use rule_index::RuleIndex;
use std::alloc::Global;
use vrt_model::{Blif, Design, NoMemory, Rules, Seq};
use whole_steps::{OutputPlace, WholeTable};

/// The comparison of a flattened cell with its model, where no instance is left whole.
fn flat_comparison<'a>(
    design: &'a Design,
    rules: &'a Rules,
    cell: u32,
    flattened: &'a Flattened,
) -> Comparison<'a>
    ensures comparison { comparison_in result ≡ comparison design.entry.now rules.entry.now cell flattened.entry.now }
{
    let drivers: &[Option<OutputPlace>] = &[];
    let plans: &[ModelPlan] = &[];
    Comparison {
        design,
        rules,
        cell,
        pairing: flattened.pairing(),
        circuit: flattened.circuit(),
        wholes: WholeTable { drivers, plans },
        model: flattened.model(),
        groups: flattened.groups(),
    }
}

/// Whether the order matters in which some input ports of an equal cell rise, from the tables of the rules and what was made of the cell.
pub fn monotone_made(
    alloc: Global,
    budget: u32,
    index: &RuleIndex,
    design: &Design,
    rules: &Rules,
    cell: u32,
    flattened: &Flattened,
    phase: u32,
    rising: &Seq<u32>,
) -> Result<Arrival, NoMemory>
    requires budget { (65536 ≤ budget) × (budget ≤ 64000000) }
    requires tables { AreRuleTables rules.now index.now }
    requires made { (blif : BlifValue) × (m : ℕ) × AreInputs design.now blif rules.now cell × IsFlattened design.now blif rules.now cell m flattened.now }
    requires phase { phase < length rules.now.phases }
    requires equal { IsPhaseEqual (comparison design.now rules.now cell flattened.now) phase }
    requires rising { AreRising (comparison design.now rules.now cell flattened.now) rising.now }
    ensures tells { IfOk result (λ a. (blif : BlifValue) → ArrivalTells (comparison design.now rules.now cell flattened.now) blif budget phase rising.now a) }
{
    let compared = flat_comparison(design, rules, cell, flattened);
    monotone_with(alloc, budget, index, compared, phase, rising)
}

/// Whether the order matters in which some input ports of a cell rise within a phase, one by one, the circuit settling after each and each hold
/// keeping what it settled to. The cell is equal to its model, and nothing stands in its way. `rising` lists places of different input ports, at
/// least one.
///
/// `Yes` comes only where every order goes well at every valuation that meets the constraints, and exactly there but for `TooMany` and `Budget`;
/// `No` with the first of the ports at which a single step fails, and the least bits of such a step. Constraints are asked of the valuation alone, and
/// not of the settings on the way; instances are unrolled. Want of memory is the only refusal.
pub fn monotone(
    alloc: Global,
    budget: u32,
    design: &Design,
    blif: &Blif,
    rules: &Rules,
    cell: u32,
    phase: u32,
    rising: &Seq<u32>,
) -> Result<Arrival, NoMemory>
    requires budget { (65536 ≤ budget) × (budget ≤ 64000000) }
    requires design { IsDesign design.now }
    requires blif { IsBlif blif.now }
    requires models { AreModels blif.now }
    requires rules { AreRules rules.now }
    requires cell { cell < length design.now.cells }
    requires ordered { IsOrdered design.now rules.now }
    requires phase { phase < length rules.now.phases }
    requires equal { (m : ℕ) × IsEqualIn design.now blif.now rules.now cell m × AreRising (comparison_of design.now blif.now rules.now cell m) rising.now }
    ensures tells { IfOk result (λ a. (m : ℕ) → IsEqualIn design.now blif.now rules.now cell m → ArrivalTells (comparison_of design.now blif.now rules.now cell m) blif.now budget phase rising.now a) }
{
    let prepared = prepare(alloc, design, blif, rules)?;
    let found = early_prepared(alloc, &prepared, design, blif, rules, cell)?;
    let EarlyCell {
        verdict: _verdict,
        flattened,
    } = found;
    let Some(flattened) = flattened else {
        return Err(NoMemory);
    };
    monotone_made(
        alloc,
        budget,
        &prepared.index,
        design,
        rules,
        cell,
        &flattened,
        phase,
        rising,
    )
}
