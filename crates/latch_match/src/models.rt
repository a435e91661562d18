//! Cells and models.

ghost use Rattle.std.specs.Prelude.{◌≡◌, ◌<◌, ◌==◌, ◌↔◌, IfSome, IsTrue, filter, find, length, option_and_then, position, bytes_eq, cond, None};
ghost use Rattle.std.specs.Option.{option_copied};
ghost use Rattle.vrt_model.specs.Comparison.{cell_at};
ghost use Rattle.vrt_model.specs.Inputs.{IsBlif};
ghost use Rattle.vrt_model.specs.PairedPorts.{has_lower_name, model_of_paired, paired_by, paired_model, Skipped};
ghost use Rattle.vrt_model.specs.declared.blif.Blif.{Blif as BlifValue};
ghost use Rattle.vrt_model.specs.declared.blif.BlifModel.{BlifModel as ModelValue};
ghost use Rattle.vrt_model.specs.declared.rules.PairRule.{PairRule as RuleValue};

use crate::lower_names::is_lowered;
use vrt_model::{Blif, BlifModel, Design, PairRule, Rules};

/// Whether the name of a model in lower case is this one.
fn has_lower_name(name: &[u8], model: &BlifModel) -> bool
    ensures { result ≡ has_lower_name name.now model.now }
{
    is_lowered(model.name.as_bytes(), name)
}

/// The first model whose name in lower case is this one.
fn first_like(models: &[BlifModel], name: &[u8]) -> Option<usize>
    ensures { result ≡ position (has_lower_name name.now) models.now }
{
    models.iter().position(|model| has_lower_name(name, model))
}

/// How many models have a name that in lower case is this one.
fn count_like(models: &[BlifModel], name: &[u8]) -> usize
    ensures { result ≡ length (filter (has_lower_name name.now) models.now) }
{
    models
        .iter()
        .filter(|model| has_lower_name(name, model))
        .count()
}

/// The one model whose name in lower case is this one.
fn only_like(models: &[BlifModel], name: &[u8]) -> Option<usize>
    ensures { result ≡ cond (length (filter (has_lower_name name.now) models.now) == 1) (position (has_lower_name name.now) models.now) None }
{
    if count_like(models, name) == 1 {
        first_like(models, name)
    } else {
        None
    }
}

/// The model of a name.
fn first_named(models: &[BlifModel], name: &[u8]) -> Option<usize>
    ensures { result ≡ position (λ (m : ModelValue). bytes_eq m.name name.now) models.now }
{
    models
        .iter()
        .position(|model| model.name.as_bytes() == name)
}

/// The `pair` rule of a cell.
fn rule_of<'a>(rules: &'a [PairRule], cell: &[u8]) -> Option<&'a PairRule>
    ensures { option_copied result ≡ find (λ (r : RuleValue). bytes_eq r.cell cell.now) rules.entry.now }
{
    rules.iter().find(|rule| rule.cell.as_bytes() == cell)
}

/// The name of a cell, empty where there is none.
fn name_of(design: &Design, cell: u32) -> &[u8]
    ensures { result.now ≡ (cell_at design.now cell).name }
{
    match design.cells.get(cell as usize) {
        Some(cell) => cell.name.as_bytes(),
        None => &[],
    }
}

/// The model that a `pair` rule names, if it names one.
fn named_by(models: &[BlifModel], rule: &PairRule) -> Option<usize>
    ensures { result ≡ option_and_then (λ name. position (λ (m : ModelValue). bytes_eq m.name name) models.now) rule.now.model }
{
    match &rule.model {
        Some(name) => first_named(models, name.as_bytes()),
        None => None,
    }
}

/// The place of the model with which a cell of a name pairs.
fn place_of(blif: &Blif, rules: &Rules, cell: &[u8]) -> Option<usize>
    ensures { result ≡ model_of_paired (paired_by blif.now cell.now (find (λ (r : RuleValue). bytes_eq r.cell cell.now) rules.now.pairs)) }
{
    let models = blif.models.as_slice();
    match rule_of(rules.pairs.as_slice(), cell) {
        Some(rule) => named_by(models, rule),
        None => only_like(models, cell),
    }
}

/// A place as a number of a model.
fn number_of(place: Option<usize>) -> Option<u32>
    requires { IfSome place (λ n. n < 4096) }
    ensures { result ≡ place }
{
    match place {
        Some(place) => Some(place as u32),
        None => None,
    }
}

/// The model with which a cell pairs: the one that its `pair` rule names, else the one model whose name in lower case is
/// the cell's. None exactly where the rule names none, or no such model is there. It takes no memory.
pub fn model_of(design: &Design, blif: &Blif, rules: &Rules, cell: u32) -> Option<u32>
    requires { IsBlif blif.now }
    ensures { result ≡ model_of_paired (paired_model design.now blif.now rules.now cell) }
{
    number_of(place_of(blif, rules, name_of(design, cell)))
}

/// Whether the `pair` rule of a cell of a name names no model.
fn is_left_out(rules: &Rules, cell: &[u8]) -> bool
    ensures { (blif : BlifValue) → IsTrue result ↔ (paired_by blif cell.now (find (λ (r : RuleValue). bytes_eq r.cell cell.now) rules.now.pairs) ≡ Skipped) }
{
    match rule_of(rules.pairs.as_slice(), cell) {
        Some(rule) => rule.model.is_none(),
        None => false,
    }
}

/// Whether a cell is skipped on purpose: its `pair` rule names no model. It does not depend on the models.
pub fn is_skipped(design: &Design, rules: &Rules, cell: u32) -> bool
    ensures { (blif : BlifValue) → IsTrue result ↔ (paired_model design.now blif rules.now cell ≡ Skipped) }
{
    is_left_out(rules, name_of(design, cell))
}
