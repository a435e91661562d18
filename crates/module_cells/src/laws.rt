//! The law.

ghost use Rattle.std.specs.Prelude.{◌≡◌, List};
ghost use Rattle.formed_cells.specs.Formed.{AreRead};
ghost use Rattle.module_cells.specs.ModuleCells.{AreExact, EqualCellsDo};
ghost use Rattle.verilog_models.specs.Models.{blif_of};
ghost use Rattle.verilog_source.specs.Modules.{Module};
ghost use Rattle.vrt_model.specs.declared.blif.Blif.{Blif};
ghost use Rattle.vrt_model.specs.declared.design.Design.{Design};
ghost use Rattle.vrt_model.specs.declared.rules.Rules.{Rules};

/// Where the models of modules can be unrolled, and their flat models say what the modules mean, each cell that is equal to its model does
/// as the module says of which the model is made.
pub fn equal_cells_do_as_said()
    ensures { (design : Design) (blif : Blif) (rules : Rules) (modules : List Module) → blif ≡ blif_of modules → AreRead blif rules → AreExact modules → EqualCellsDo design blif rules modules }
{}
