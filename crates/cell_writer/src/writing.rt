//! A planned cell that is to be written.

ghost use Rattle.std.specs.Prelude.{◌≡◌, ◌<◌, ℕ, length};
ghost use Rattle.cell_room.specs.Compared.{comparison};
ghost use Rattle.cell_writer.specs.Writing.{IsWriting};
ghost use Rattle.phase_terms.specs.Ready.{comparison_in};
ghost use Rattle.vrt_model.specs.Circuits.{IsFlat};
ghost use Rattle.vrt_model.specs.Lists.{At};
ghost use Rattle.whole_steps.specs.Tables.{IsWholeTable};

use blif_eval::ModelPlan;
use cell_room::Planned;
use phase_terms::{Comparison, WordCounts};
use rule_index::RuleIndex;
use vrt_model::{Blif, BlifModel, Design, Rules, Vars};
use whole_steps::{OutputPlace, WholeTable};

/// A planned cell that is to be written: the files, the cell by its number, its model, and what is made of it before.
#[derive(Clone, Copy)]
pub struct Writing<'a> {
    /// The netlist.
    pub design: &'a Design,
    /// The models.
    pub blif: &'a Blif,
    /// The rules.
    pub rules: &'a Rules,
    /// The cell.
    pub cell: u32,
    /// The tables of the rules.
    pub index: &'a RuleIndex,
    /// The model with which it pairs.
    pub model: &'a BlifModel,
    /// Its flat circuit and flat model, with the variables and plans of its phases.
    pub planned: &'a Planned,
}

/// What is compared: the flat circuit, in which no instance is left whole, with the flat model.
pub(crate) fn compared_of<'a>(w: Writing<'a>) -> Comparison<'a>
    requires flat { IsFlat w.planned.now.flattened.circuit }
    ensures is { comparison_in result ≡ comparison w.entry.design.now w.entry.rules.now w.entry.cell w.entry.planned.now.flattened }
    ensures wholes { IsWholeTable result.circuit.now result.wholes.drivers.now result.wholes.plans.now }
{
    let drivers: &[Option<OutputPlace>] = &[];
    let plans: &[ModelPlan] = &[];
    let flattened = &w.planned.flattened;
    Comparison {
        design: w.design,
        rules: w.rules,
        cell: w.cell,
        pairing: flattened.pairing(),
        circuit: flattened.circuit(),
        wholes: WholeTable { drivers, plans },
        model: flattened.model(),
        groups: flattened.groups(),
    }
}

/// The variables of the first phase.
pub(crate) fn first_vars(vars: &[Vars]) -> &Vars
    requires { 0 < length vars.now }
    ensures { At vars.entry.now 0 result.now }
{
    &vars[0]
}
