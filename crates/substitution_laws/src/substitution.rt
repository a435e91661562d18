//! The whole.

ghost use Rattle.substitution_laws.specs.Substitution.{SubstitutionHolds};

/// Nothing is wrong in the flat circuit exactly where nothing is wrong in the checked one, and the first fault of this stands in that.
pub fn substitution_holds()
    ensures { SubstitutionHolds }
{}
