//! The models with which cells pair, by tables.

ghost use Rattle.std.specs.Prelude.{◌≡◌, ◌↔◌, List, IsTrue, bytes_eq, find, option_and_then, position};
ghost use Rattle.std.specs.Option.{option_copied};
ghost use Rattle.prepared_tables.specs.ModelNames.{AreModelNames};
ghost use Rattle.prepared_tables.specs.Prepared.{ArePrepared};
ghost use Rattle.rule_index.specs.Lines.{IsIndex};
ghost use Rattle.rule_index.specs.Tables.{AreRuleTables};
ghost use Rattle.vrt_model.specs.Comparison.{cell_at};
ghost use Rattle.vrt_model.specs.PairedPorts.{Skipped, model_of_paired, paired_by, paired_model};
ghost use Rattle.vrt_model.specs.declared.blif.Blif.{Blif as BlifValue};
ghost use Rattle.vrt_model.specs.declared.blif.BlifModel.{BlifModel as ModelValue};
ghost use Rattle.vrt_model.specs.declared.rules.PairRule.{PairRule as RuleValue};

use crate::by_name::ModelNames;
use crate::prepared::Prepared;
use rule_index::{ByCell, RuleIndex};
use vrt_model::{Design, PairRule, Rules, Seq};

/// The `pair` rule of a cell, by the places of the rules of each cell.
fn rule_by<'a>(lines: &ByCell, rules: &'a Seq<PairRule>, cell: &[u8]) -> Option<&'a PairRule>
    requires { IsIndex (λ (r : RuleValue). r.cell) rules.now lines.now }
    ensures { option_copied result ≡ find (λ (r : RuleValue). bytes_eq r.cell cell.now) rules.entry.now }
{
    match lines.places(cell).first() {
        Some(place) => rules.get(*place),
        None => None,
    }
}

/// The name of a cell, empty where there is none.
fn name_of(design: &Design, cell: u32) -> &[u8]
    ensures { result.now ≡ (cell_at design.now cell).name }
{
    match design.cells.get(cell as usize) {
        Some(cell) => cell.name.as_bytes(),
        None => &[],
    }
}

/// The model that a `pair` rule names, if it names one.
fn named_by(names: &ModelNames, rule: &PairRule) -> Option<u32>
    ensures { (models : List ModelValue) → AreModelNames models names.now → result ≡ option_and_then (λ name. position (λ (m : ModelValue). bytes_eq m.name name) models) rule.now.model }
{
    match &rule.model {
        Some(name) => names.named(name.as_bytes()),
        None => None,
    }
}

/// The model with which a cell of a name pairs.
fn model_by(names: &ModelNames, index: &RuleIndex, rules: &Rules, cell: &[u8]) -> Option<u32>
    requires { AreRuleTables rules.now index.now }
    ensures { (blif : BlifValue) → AreModelNames blif.models names.now → result ≡ model_of_paired (paired_by blif cell.now (find (λ (r : RuleValue). bytes_eq r.cell cell.now) rules.now.pairs)) }
{
    match rule_by(&index.lines.pairs, &rules.pairs, cell) {
        Some(rule) => named_by(names, rule),
        None => names.only_like(cell),
    }
}

/// The model with which a cell pairs: the same as `model_of` of `latch_match`, in a time that does not grow with the number
/// of models and rules.
pub fn model_of_with(prepared: &Prepared, design: &Design, rules: &Rules, cell: u32) -> Option<u32>
    requires { AreRuleTables rules.now prepared.now.index }
    ensures { (blif : BlifValue) → AreModelNames blif.models prepared.now.names → result ≡ model_of_paired (paired_model design.now blif rules.now cell) }
{
    model_by(
        &prepared.names,
        &prepared.index,
        rules,
        name_of(design, cell),
    )
}

/// Whether the `pair` rule of a cell of a name names no model.
fn is_left_out(index: &RuleIndex, rules: &Rules, cell: &[u8]) -> bool
    requires { AreRuleTables rules.now index.now }
    ensures { (blif : BlifValue) → IsTrue result ↔ (paired_by blif cell.now (find (λ (r : RuleValue). bytes_eq r.cell cell.now) rules.now.pairs) ≡ Skipped) }
{
    match rule_by(&index.lines.pairs, &rules.pairs, cell) {
        Some(rule) => rule.model.is_none(),
        None => false,
    }
}

/// Whether a cell is skipped on purpose: the same as `is_skipped` of `latch_match`, in a time that does not grow with the
/// number of rules.
pub fn is_skipped_with(prepared: &Prepared, design: &Design, rules: &Rules, cell: u32) -> bool
    requires { AreRuleTables rules.now prepared.now.index }
    ensures { (blif : BlifValue) → IsTrue result ↔ (paired_model design.now blif rules.now cell ≡ Skipped) }
{
    is_left_out(&prepared.index, rules, name_of(design, cell))
}
