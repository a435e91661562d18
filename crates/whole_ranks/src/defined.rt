//! Solutions that have a bit at each observed net.

ghost use Rattle.whole_ranks.specs.Defined.{SettledNetsRespond, SolutionsAreDefined};

/// A plain net always responds in one way, by a bit, a fight or a float, where a solution has a bit at each observed net of lower
/// rank.
pub fn settled_nets_respond()
    ensures { SettledNetsRespond }
{}

/// A solution has a bit at each observed net, where no plain net always fights and no observed net always floats.
pub fn solutions_are_defined()
    ensures { SolutionsAreDefined }
{}
