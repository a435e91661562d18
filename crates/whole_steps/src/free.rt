//! Whole instances whose outputs meet gates alone.

ghost use Rattle.whole_steps.specs.FreeOutputs.{FreeOutputsShow};

/// A net at which a soft output of a whole instance stands, and no other, shows the bit that the model gives it, in each state of
/// the bare circuit and of the kept one. It does nothing.
pub fn free_outputs_show()
    ensures { FreeOutputsShow }
{}
