//! The tables of the models of a file, made once and looked up for each model that is unrolled.

ghost use Rattle.std.specs.Prelude.{◌≡◌, map, IfOk};
ghost use Rattle.blif_checks.specs.Tables.{AreTables};
ghost use Rattle.blif_flat.specs.Counts.{AreModelTables};
ghost use Rattle.vrt_model.specs.FlatBlif.{signals_of};
ghost use Rattle.vrt_model.specs.Inputs.{IsBlif};

use crate::counts::{Sums, all_signals, sums_by};
use blif_checks::{Tables, tables_of};
use std::alloc::Global;
use vrt_model::{Blif, NoMemory, Seq, Text};

/// What is looked up of the models of a file to unroll one: their numbers by name, their interfaces, their signals, and
/// how much stands in each and below it.
pub struct ModelTables {
    pub(crate) tables: Tables,
    pub(crate) signals: Seq<Seq<Text>>,
    pub(crate) sums: Sums,
}

/// By hand, so that letting go of one is a call.
impl Drop for ModelTables {
    fn drop(self) {
        let ModelTables {
            tables: _tables,
            signals: _signals,
            sums: _sums,
        } = self;
    }
}

/// The names and interfaces of models, and the signals of each.
fn all_tables(alloc: Global, blif: &Blif) -> Result<(Tables, Seq<Seq<Text>>), NoMemory>
    requires { IsBlif blif.now }
    ensures tables { IfOk result (λ t. AreTables blif.now t.0) }
    ensures lists { IfOk result (λ t. t.1 ≡ map signals_of blif.now.models) }
{
    let tables = tables_of(alloc, blif)?;
    let signals = all_signals(alloc, blif.models.as_slice())?;
    Ok((tables, signals))
}

/// The tables of the models of a file, in time and memory in proportion to their cards. Want of memory is the only
/// refusal.
pub fn model_tables(alloc: Global, blif: &Blif) -> Result<ModelTables, NoMemory>
    requires { IsBlif blif.now }
    ensures { IfOk result (AreModelTables blif.now) }
{
    let (tables, signals) = all_tables(alloc, blif)?;
    let models = blif.models.as_slice();
    let sums = sums_by(alloc, &tables.names, signals.as_slice(), models)?;
    Ok(ModelTables {
        tables,
        signals,
        sums,
    })
}
