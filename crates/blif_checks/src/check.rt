//! Whether models can be unrolled.

ghost use Rattle.vrt_model.specs.Inputs.{IsBlif};
ghost use Rattle.blif_checks.specs.Checked.{ModelsGive};

use crate::ModelFault;
use crate::judge::check_drivers;
use crate::nested::check_nesting;
use crate::subs::check_subs;
use crate::tables::tables_of;
use std::alloc::Global;
use vrt_model::Blif;

/// Takes models that can be unrolled: each sub-model is there and is tied as its interface asks, none contains itself,
/// none is deeper than 32, and each signal that is used has one driver, those of don't-care networks too. Else it refuses
/// them with the first fault in this order. It takes time in proportion to the cards where models are no deeper than 32.
pub fn check_models(alloc: Global, blif: &Blif) -> Result<(), ModelFault>
    requires { IsBlif blif.now }
    ensures { ModelsGive blif.now result }
{
    let Ok(tables) = tables_of(alloc, blif) else {
        return Err(ModelFault::NoMemory);
    };
    check_subs(alloc, blif, &tables)?;
    check_nesting(alloc, blif, &tables)?;
    check_drivers(alloc, blif, &tables)
}
