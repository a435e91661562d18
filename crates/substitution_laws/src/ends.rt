//! Ends of holds.

ghost use Rattle.substitution_laws.specs.Ends.{ChosenEndsAreShown};

/// No end of a hold names an instance inside a whole one, since a whole one has no hold inside.
pub fn chosen_ends_are_shown()
    ensures { ChosenEndsAreShown }
{}
