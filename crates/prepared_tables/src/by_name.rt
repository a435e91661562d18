//! The models of a file by their names, as they stand and in lower case.

ghost use Rattle.std.specs.Prelude.{◌≡◌, ◌<◌, ◌≤◌, ◌==◌, [], List, IfOk, OnOk, None, bytes_eq, cond, filter, length, position};
ghost use Rattle.name_tables.specs.Tables.{Adds, IsTable};
ghost use Rattle.prepared_tables.specs.ModelNames.{AreModelNames, AreNoted, HasNoModels, low_name, own_name};
ghost use Rattle.vrt_model.specs.Inputs.{IsBlif};
ghost use Rattle.vrt_model.specs.PairedPorts.{has_lower_name};
ghost use Rattle.vrt_model.specs.declared.blif.BlifModel.{BlifModel as ModelValue};

use name_tables::NameTable;
use rule_index::lowered_name;
use std::alloc::Global;
use vrt_model::{Blif, BlifModel, NoMemory};

/// The numbers of the models of a file, places in `Blif.models`, by their names: made once, in time and memory in
/// proportion to the names, and looked up for each cell.
pub struct ModelNames {
    /// By the names as they stand.
    exact: NameTable<u32>,
    /// By the names in lower case.
    lowered: NameTable<u32>,
}

/// By hand, so that letting go of one is a call.
impl Drop for ModelNames {
    fn drop(self) {
        let ModelNames {
            exact: _exact,
            lowered: _lowered,
        } = self;
    }
}

/// A place as a number of a model.
fn number_at(place: usize) -> u32
    requires { place < 4096 }
    ensures { result ≡ place }
{
    place as u32
}

/// Adds models by their names.
fn add_all(table: &mut NameTable<u32>, models: &[BlifModel]) -> Result<(), NoMemory>
    requires empty { IsTable [] table.old }
    requires few { length models.now ≤ 4096 }
    ensures { OnOk result (AreNoted own_name models.now table.new) }
{
    for (place, model) in models.iter().enumerate() {
        table.add(model.name.as_bytes(), number_at(place))?;
    }
    Ok(())
}

/// Adds a model by its name in lower case.
fn add_lowered(
    alloc: Global,
    table: &mut NameTable<u32>,
    model: &BlifModel,
    number: u32,
) -> Result<(), NoMemory>
    ensures { OnOk result (Adds (low_name model.now) number table.old table.new) }
{
    let low = lowered_name(alloc, model.name.as_bytes())?;
    table.add(low.as_bytes(), number)?;
    Ok(())
}

/// Adds models by their names in lower case.
fn add_all_lowered(
    alloc: Global,
    table: &mut NameTable<u32>,
    models: &[BlifModel],
) -> Result<(), NoMemory>
    requires empty { IsTable [] table.old }
    requires few { length models.now ≤ 4096 }
    ensures { OnOk result (AreNoted low_name models.now table.new) }
{
    for (place, model) in models.iter().enumerate() {
        add_lowered(alloc, table, model, number_at(place))?;
    }
    Ok(())
}

impl ModelNames {
    /// With no models. It takes no memory.
    fn new(alloc: Global) -> Self
        ensures { HasNoModels result }
    {
        ModelNames {
            exact: NameTable::new(alloc),
            lowered: NameTable::new(alloc),
        }
    }

    /// Adds models, where there is none yet.
    fn fill(&mut self, alloc: Global, models: &[BlifModel]) -> Result<(), NoMemory>
        requires none { HasNoModels self.old }
        requires few { length models.now ≤ 4096 }
        ensures { OnOk result (AreModelNames models.now self.new) }
    {
        add_all(&mut self.exact, models)?;
        add_all_lowered(alloc, &mut self.lowered, models)?;
        Ok(())
    }

    /// The model of a name.
    pub fn named(&self, name: &[u8]) -> Option<u32>
        ensures { (models : List ModelValue) → AreModelNames models self.now → result ≡ position (λ (m : ModelValue). bytes_eq m.name name.now) models }
    {
        self.exact.first(name)
    }

    /// The one model whose name in lower case is this one.
    pub fn only_like(&self, name: &[u8]) -> Option<u32>
        ensures { (models : List ModelValue) → AreModelNames models self.now → result ≡ cond (length (filter (has_lower_name name.now) models) == 1) (position (has_lower_name name.now) models) None }
    {
        if self.lowered.has_second(name) {
            None
        } else {
            self.lowered.first(name)
        }
    }
}

/// The names of the models of a file. Want of memory is the only refusal.
pub fn model_names(alloc: Global, blif: &Blif) -> Result<ModelNames, NoMemory>
    requires { IsBlif blif.now }
    ensures { IfOk result (AreModelNames blif.now.models) }
{
    let mut names = ModelNames::new(alloc);
    names.fill(alloc, blif.models.as_slice())?;
    Ok(names)
}
