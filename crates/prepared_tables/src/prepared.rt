//! The tables of a netlist, its models and its rules.

ghost use Rattle.std.specs.Prelude.{IfOk};
ghost use Rattle.prepared_tables.specs.Prepared.{ArePrepared};
ghost use Rattle.vrt_model.specs.Inputs.{IsBlif, IsDesign};

use crate::by_name::{ModelNames, model_names};
use blif_flat::{ModelTables, model_tables};
use net_tables::{NetTables, net_tables};
use rule_index::{RuleIndex, index_of};
use std::alloc::Global;
use vrt_model::{Blif, Design, NoMemory, Rules};

/// What is looked up for each cell, made once for all cells of a netlist.
pub struct Prepared {
    /// What the netlist and the rules say, by names.
    pub index: RuleIndex,
    /// The nets of the cells.
    pub nets: NetTables,
    /// What is looked up of the models to unroll one.
    pub models: ModelTables,
    /// The models by their names.
    pub names: ModelNames,
}

/// By hand, so that letting go of one is a call.
impl Drop for Prepared {
    fn drop(self) {
        let Prepared {
            index: _index,
            nets: _nets,
            models: _models,
            names: _names,
        } = self;
    }
}

/// The tables of a netlist, its models and its rules, in time and memory in proportion to them. Want of memory is the only
/// refusal.
pub fn prepare(
    alloc: Global,
    design: &Design,
    blif: &Blif,
    rules: &Rules,
) -> Result<Prepared, NoMemory>
    requires netlist { IsDesign design.now }
    requires models { IsBlif blif.now }
    ensures { IfOk result (ArePrepared design.now blif.now rules.now) }
{
    let names = model_names(alloc, blif)?;
    let models = model_tables(alloc, blif)?;
    let nets = net_tables(alloc, design, rules)?;
    let index = index_of(alloc, design, rules)?;
    Ok(Prepared {
        index,
        nets,
        models,
        names,
    })
}
