//! Models that are made of covers alone: their texts, which are read back as they were meant, and their flat form. Laws alone, each the
//! contract of a function that does nothing.
#![tactic(auto)]

ghost use Rattle.plain_models.specs.Flat.{DrivenModelsAreFlat, DrivenModelsAreGood};
ghost use Rattle.plain_models.specs.Interfaces.{InterfacesAreKept, PairingsAreKept};
ghost use Rattle.plain_models.specs.Lines.{LinesAreRead};
ghost use Rattle.plain_models.specs.Texts.{PlainTextsAreClean, PlainTextsAreRead};

/// The cards of a text of lines with good words are those of the lines.
pub fn lines_are_read()
    ensures { LinesAreRead }
{}

/// No card of the text of a model has a fault.
pub fn plain_texts_are_clean()
    ensures { PlainTextsAreClean }
{}

/// What is read of the text of a model is the model alone.
pub fn plain_texts_are_read()
    ensures { PlainTextsAreRead }
{}

/// A model each signal of which has one driver can be unrolled.
pub fn driven_models_are_good()
    ensures { DrivenModelsAreGood }
{}

/// The flat form of such a model.
pub fn driven_models_are_flat()
    ensures { DrivenModelsAreFlat }
{}

/// A model of a file and one of covers alone with its interface have it at the same numbers.
pub fn interfaces_are_kept()
    ensures { InterfacesAreKept }
{}

/// How a cell pairs with a model, and what is in the way, depends on the interface alone.
pub fn pairings_are_kept()
    ensures { PairingsAreKept }
{}
