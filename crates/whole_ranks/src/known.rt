//! Nets that are known before anything is solved.

ghost use Rattle.whole_ranks.specs.KnownNets.{KnownNetsAreSolved, KnownNetsShow, NoArcsToKnownNets};
ghost use Rattle.whole_ranks.specs.Solved.{KnownNetsStand};

/// A known net shows its bit in each state that has the bits of the known nets at the gates of the bare circuit, whatever the
/// holds and the output pins of whole instances are. It asks that those pins are at plain nets.
pub fn known_nets_show()
    ensures { KnownNetsShow }
{}

/// Each solution gives an observed known net its bit, where all gates of the bare circuit are observed.
pub fn known_nets_are_solved()
    ensures { KnownNetsAreSolved }
{}

/// So known nets stand, as the law of one solution asks.
pub fn known_nets_stand()
    ensures { KnownNetsStand }
{}

/// No arc leads to a known net: the gates at its part are known, and no output of a whole instance is there.
pub fn no_arcs_to_known_nets()
    ensures { NoArcsToKnownNets }
{}
