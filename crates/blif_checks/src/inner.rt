//! The models that stand directly in each.

ghost use Rattle.std.specs.Prelude.{◌≡◌, map, position, unwrap_or, bytes_eq, IfOk};
ghost use Rattle.blif_checks.specs.Depths.{numbers_in};
ghost use Rattle.blif_checks.specs.Nested.{AreInner};
ghost use Rattle.blif_checks.specs.Tables.{AreTables};

use crate::tables::Tables;
use names::Names;
use std::alloc::Global;
use vrt_model::{Blif, BlifModel, NoMemory, Seq};

/// The number of a name, 0 where it has none.
pub fn number_of(names: &Names, name: &[u8]) -> usize
    ensures { result ≡ unwrap_or (position (bytes_eq name.now) names.now) 0 }
{
    match names.place(name) {
        Some(number) => number,
        None => 0,
    }
}

/// The models that stand directly in one.
fn inner_of(alloc: Global, names: &Names, model: &BlifModel) -> Result<Seq<usize>, NoMemory>
    ensures { IfOk result (λ inner. inner ≡ numbers_in names.now model.now) }
{
    let mut inner = Seq::new(alloc);
    for sub in model.subs.as_slice() {
        if inner.push(number_of(names, sub.model.as_bytes())).is_err() {
            return Err(NoMemory);
        }
    }
    Ok(inner)
}

/// The models that stand directly in each.
fn all_inner(
    alloc: Global,
    names: &Names,
    models: &[BlifModel],
) -> Result<Seq<Seq<usize>>, NoMemory>
    ensures { IfOk result (λ all. all ≡ map (numbers_in names.now) models.now) }
{
    let mut all = Seq::new(alloc);
    for model in models {
        let inner = inner_of(alloc, names, model)?;
        if all.push(inner).is_err() {
            return Err(NoMemory);
        }
    }
    Ok(all)
}

/// The models that stand directly in each, by the look-ups of these models.
pub(crate) fn inner_models(
    alloc: Global,
    blif: &Blif,
    tables: &Tables,
) -> Result<Seq<Seq<usize>>, NoMemory>
    requires { AreTables blif.now tables.now }
    ensures { IfOk result (λ all. AreInner blif.now all) }
{
    let all = all_inner(alloc, &tables.names, blif.models.as_slice())?;
    Ok(all)
}
