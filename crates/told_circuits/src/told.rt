//! Known nets, parts and arcs.

ghost use Rattle.told_circuits.specs.Told.{KnownNetsHaveTable, KnownNetsHaveTest, PartsHaveTest, RankArcsHaveTest};

/// A table has exactly the nets that are known in a phase, with their bits.
pub fn known_nets_have_table()
    ensures { KnownNetsHaveTable }
{}

/// So a test says which nets are known.
pub fn known_nets_have_test()
    ensures { KnownNetsHaveTest }
{}

/// One says which nets are in one part, since the devices that can conduct are those whose gate is not known to keep them from it.
pub fn parts_have_test()
    ensures { PartsHaveTest }
{}

/// And one along which arcs the ranks of nets rise: from gates, and over the links of whole instances.
pub fn rank_arcs_have_test()
    ensures { RankArcsHaveTest }
{}
