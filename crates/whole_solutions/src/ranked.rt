//! Circuits whose nets have ranks.

ghost use Rattle.whole_solutions.specs.Ranked.{RankedSolutionsHaveBits, RanksGiveRegions};

/// The plain nets of at most a rank are a region, which the observed nets of lower rank and the known ones settle, whatever the
/// state is elsewhere; these regions stand one upon the other.
pub fn ranks_give_regions()
    ensures { RanksGiveRegions }
{}

/// Where neither a fight nor a float stands at an observed net below a rank, each observed net below it has a bit in the
/// solution.
pub fn ranked_solutions_have_bits()
    ensures { RankedSolutionsHaveBits }
{}
