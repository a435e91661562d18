//! What is written of a cell without state as a model, and that its text, read back, stands for the model of the cell. A law alone, the contract of
//! a function that does nothing.
#![tactic(auto)]

ghost use Rattle.written_logic.specs.Standing.{WrittenTextsStand};

/// The text that is written of an equal cell is read, and with it in the place of all models the cell is supported and equal.
pub fn written_texts_stand()
    ensures { WrittenTextsStand }
{}
