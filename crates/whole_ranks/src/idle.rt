//! Inputs that nothing looks at.

ghost use Rattle.whole_ranks.specs.Idle.{IdleInputsChangeNothing};

/// The solutions of a circuit without holds and whole instances do not depend on inputs that are not observed and that no channel
/// meets.
pub fn idle_inputs_change_nothing()
    ensures { IdleInputsChangeNothing }
{}
