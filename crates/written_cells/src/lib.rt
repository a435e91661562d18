//! A cell without state, with a written model in the place of its own: what its outputs are functions of, and that it is equal to any model whose
//! outputs show these. Laws alone, each the contract of a function that does nothing.
#![tactic(auto)]

ghost use Rattle.written_cells.specs.Arcs.{WrittenModelsAreAcyclic};
ghost use Rattle.written_cells.specs.Causes.{NoCauseIsAdded};
ghost use Rattle.written_cells.specs.Exchanged.{ModelsAreExchanged};
ghost use Rattle.written_cells.specs.Limits.{WrittenModelsAreSmall};
ghost use Rattle.written_cells.specs.Outputs.{FunctionsAreShown, OutputsAreShown};
ghost use Rattle.written_cells.specs.Pairs.{WrittenModelsPair};
ghost use Rattle.written_cells.specs.Supported.{WrittenCellsAreSupported};
ghost use Rattle.written_cells.specs.Written.{ComparisonsAreExchanged, WrittenCellsAreEqual};

/// In each phase that observes an output the solution has the bit of the output's function.
pub fn functions_are_shown()
    ensures { FunctionsAreShown }
{}

/// A cell is equal to another model, where this has its bits at the outputs.
pub fn models_are_exchanged()
    ensures { ModelsAreExchanged }
{}

/// The outputs of a written model have the bits of the solution.
pub fn outputs_are_shown()
    ensures { OutputsAreShown }
{}

/// The arcs of a written model have no cycle.
pub fn written_models_are_acyclic()
    ensures { WrittenModelsAreAcyclic }
{}

/// The comparison with a written model alone is that with the old models, with the models exchanged.
pub fn comparisons_are_exchanged()
    ensures { ComparisonsAreExchanged }
{}

/// With a written model in the place of all models the cell is equal.
pub fn written_cells_are_equal()
    ensures { WrittenCellsAreEqual }
{}

/// Where nothing stands against a cell without state, nothing stands against it with another model without latches.
pub fn no_cause_is_added()
    ensures { NoCauseIsAdded }
{}

/// With a written model in the place of all models the cell is supported.
pub fn written_cells_are_supported()
    ensures { WrittenCellsAreSupported }
{}

/// A written model of few signals and outputs passes no limit.
pub fn written_models_are_small()
    ensures { WrittenModelsAreSmall }
{}

/// A cell that pairs with a model pairs with the written one of its name.
pub fn written_models_pair()
    ensures { WrittenModelsPair }
{}
