//! Cells without state as models: which subfunctions of the outputs are nodes, their numbers, the covers and the text; and what is read of the
//! text. Laws alone, each the contract of a function that does nothing.
#![tactic(auto)]

ghost use Rattle.written_models.specs.NodeLaws.{NodesAreOrdered, NumbersAreWithin, NumbersShow};
ghost use Rattle.written_models.specs.WrittenLaws.{WrittenModelsAreUnrolled, WrittenOutputsShow, WrittenSignalsAre, WrittenTextsAreRead};

/// The nodes of functions stand behind those of their subfunctions, and each of the functions is there.
pub fn nodes_are_ordered()
    ensures { NodesAreOrdered }
{}

/// The number of a function that is there is that of a constant or of a node.
pub fn numbers_are_within()
    ensures { NumbersAreWithin }
{}

/// Where the constants and the nodes have their bits, the number of each function has its bit.
pub fn numbers_show()
    ensures { NumbersShow }
{}

/// No card of a written text has a fault, and what is read of it is the written model alone.
pub fn written_texts_are_read()
    ensures { WrittenTextsAreRead }
{}

/// A written model can be unrolled, and has this flat form.
pub fn written_models_are_unrolled()
    ensures { WrittenModelsAreUnrolled }
{}

/// Its signals are those of the interface, each once, and then the constants and the nodes.
pub fn written_signals_are()
    ensures { WrittenSignalsAre }
{}

/// In each assignment that obeys its covers each output has the bit of its function at the bits of the variables.
pub fn written_outputs_show()
    ensures { WrittenOutputsShow }
{}
