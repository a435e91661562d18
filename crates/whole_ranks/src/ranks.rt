//! Ranks of nets, and cycles of arcs.

ghost use Rattle.whole_ranks.specs.Ranks.{AcyclicNetsHaveRanks, PartsHaveOneRank, RankedNetsAreAcyclic};

/// Where the arcs have no cycle, the nets have ranks: a plain net has the rank above all nets from which arcs that count lead to
/// it.
pub fn acyclic_nets_have_ranks()
    ensures { AcyclicNetsHaveRanks }
{}

/// Where the nets have ranks, the arcs have no cycle: none leads to a known net, so that each on a cycle counts for ranks.
pub fn ranked_nets_are_acyclic()
    ensures { RankedNetsAreAcyclic }
{}

/// The nets of a part have one rank, since the same arcs lead to them.
pub fn parts_have_one_rank()
    ensures { PartsHaveOneRank }
{}
