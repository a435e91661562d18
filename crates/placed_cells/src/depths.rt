//! How deep the instances of a cell stand.

ghost use Rattle.placed_cells.specs.Depths.{OrderedIsWithinDepth};

/// Where the cells of a netlist can be ordered, the instances of each stand no deeper than places are unrolled, so that
/// unrolling leaves none out.
pub fn ordered_is_within_depth()
    ensures { OrderedIsWithinDepth }
{}
