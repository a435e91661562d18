//! Whether models stand in one another as they may: none contains itself, and none is too deep.

ghost use Rattle.std.specs.Prelude.{◌≡◌, ◌⊎◌, ◌<◌, ℕ, Some, true, false, length, IfOk};
ghost use Rattle.nesting.specs.First.{IsFirstFault};
ghost use Rattle.vrt_model.specs.FlatBlif.{model_at};
ghost use Rattle.vrt_model.specs.Inputs.{IsBlif};
ghost use Rattle.vrt_model.specs.Models.{models_within};
ghost use Rattle.blif_checks.specs.Depths.{AreShallow, depth_after};
ghost use Rattle.blif_checks.specs.Nested.{IsNestingFault, NestingGives};
ghost use Rattle.blif_checks.specs.Tables.{AreTables};

use crate::ModelFault;
use crate::inner::inner_models;
use crate::tables::Tables;
use nesting::{NestingFault, first_fault};
use std::alloc::Global;
use vrt_model::{Blif, NoMemory, Text};

/// Whether no model contains itself and none is deeper than 32, where a model without sub-models has depth 1. It takes
/// time in proportion to the `.subckt` cards.
pub fn are_shallow(alloc: Global, blif: &Blif, tables: &Tables) -> Result<bool, NoMemory>
    requires { AreTables blif.now tables.now }
    // Where it says yes, that is so.
    ensures yes { IfOk result (λ b. b ≡ true → AreShallow blif.now) }
    // Where it says no, more than 32 models stand in one another.
    ensures no { IfOk result (λ b. b ≡ false → (n : ℕ) × (n < length blif.now.models) × (32 < depth_after blif.now 32 n)) }
{
    let inner = inner_models(alloc, blif, tables)?;
    let shallow = nesting::are_shallow(alloc, inner.as_slice(), 32)?;
    Ok(shallow)
}

/// The fault of a model that contains itself.
fn recursion_of(alloc: Global, blif: &Blif, number: usize) -> ModelFault
    requires { number < length blif.now.models }
    ensures { (result ≡ ModelFault.NoMemory) ⊎ (result ≡ ModelFault.Recursion (model_at blif.now number).line (model_at blif.now number).name) }
{
    let Some(model) = blif.models.get(number) else {
        return ModelFault::NoMemory;
    };
    match Text::from_bytes(alloc, model.name.as_bytes()) {
        Ok(name) => ModelFault::Recursion {
            line: model.line,
            name,
        },
        Err(_) => ModelFault::NoMemory,
    }
}

/// The line of a model.
fn line_of(blif: &Blif, number: usize) -> u32
    ensures { result ≡ (model_at blif.now number).line }
{
    match blif.models.get(number) {
        Some(model) => model.line,
        None => 0,
    }
}

/// A fault of nesting as it is told of models.
fn fault_of(alloc: Global, blif: &Blif, fault: NestingFault) -> ModelFault
    requires { IsFirstFault (models_within blif.now) (length blif.now.models) 32 (Some fault) }
    ensures { (result ≡ ModelFault.NoMemory) ⊎ IsNestingFault blif.now result }
{
    match fault {
        NestingFault::Recursion { number } => recursion_of(alloc, blif, number),
        NestingFault::Depth { number, depth } => ModelFault::Depth {
            line: line_of(blif, number),
            depth,
        },
    }
}

/// Refuses the first model that contains itself, or else the first deeper than 32, where a model without sub-models has
/// depth 1. It takes time in proportion to the `.subckt` cards where it refuses none.
pub fn check_nesting(alloc: Global, blif: &Blif, tables: &Tables) -> Result<(), ModelFault>
    requires tables { AreTables blif.now tables.now }
    requires blif { IsBlif blif.now }
    ensures { NestingGives blif.now result }
{
    let Ok(inner) = inner_models(alloc, blif, tables) else {
        return Err(ModelFault::NoMemory);
    };
    match first_fault(alloc, inner.as_slice(), 32) {
        Ok(Some(fault)) => Err(fault_of(alloc, blif, fault)),
        Ok(None) => Ok(()),
        Err(_) => Err(ModelFault::NoMemory),
    }
}
