//! Regions of a circuit: sets of plain nets whose responses the bits of some observed nets settle.

ghost use Rattle.cell_inside.specs.Regions.{RegionIsLocal, RegionsAreSolved};

/// The nets of a region respond alike in two states in which its base has the same bits, whatever else the states say.
pub fn region_is_local()
    ensures { RegionIsLocal }
{}

/// Where a state shows its own bits at the bases of regions that stand one upon the other, each solution that agrees with it on
/// what is fixed from outside, as known nets are, has these bits, and each net of a region always responds as in that state, be
/// it by a bit, a fight or a float.
pub fn regions_are_solved()
    ensures { RegionsAreSolved }
{}
