//! Small circuits whose strengths and responses are worked out by hand. Each clause gives the strength of each net, and
//! at which nets 0 and 1 arrive by clear paths.

ghost use Rattle.std.specs.Prelude.{true, false, [], ◌∷◌};
ghost use Rattle.model_laws.specs.FloatingGate.{gate};
ghost use Rattle.model_laws.specs.HeldInput.{held_input};
ghost use Rattle.model_laws.specs.SmallCircuits.{load_at, bridge_at, opposed, least, charge_at, shared, through_input, ring, dynamic_as, whole_output};
ghost use Rattle.vrt_model.specs.Response.{Fight, Float, IsResponse, Shows};
ghost use Rattle.vrt_model.specs.Signals.{AreSignals};
ghost use Rattle.vrt_model.specs.declared.whole.Drive.TheVariants.{Soft, Level};

/// A weak load is blocked. At a = 1 net m has strength 6 from supply 0, y has strength 4, and 0 alone reaches both; at
/// a = 0 the load's path has the strength of m, and 1 reaches both.
pub fn blocked_load()
    ensures high { AreSignals (load_at true) (8 ∷ 8 ∷ 8 ∷ 4 ∷ 6 ∷ []) (true ∷ false ∷ false ∷ true ∷ true ∷ []) (false ∷ true ∷ true ∷ false ∷ false ∷ []) }
    ensures low_at_y { IsResponse (load_at true) 3 (Shows false) }
    ensures low { AreSignals (load_at false) (8 ∷ 8 ∷ 8 ∷ 4 ∷ 4 ∷ []) (true ∷ false ∷ true ∷ false ∷ false ∷ []) (false ∷ true ∷ false ∷ true ∷ true ∷ []) }
    ensures high_at_y { IsResponse (load_at false) 3 (Shows true) }
{}

/// A bridge passes signals in both directions, from l to r and from r to l; with the device between them shut neither
/// way is open, and y floats.
pub fn bridge_of_five()
    ensures to_r { AreSignals (bridge_at true false true false true) (8 ∷ 8 ∷ 8 ∷ 8 ∷ 8 ∷ 8 ∷ 8 ∷ 6 ∷ 6 ∷ 6 ∷ []) (true ∷ false ∷ false ∷ true ∷ false ∷ true ∷ false ∷ false ∷ false ∷ false ∷ []) (false ∷ true ∷ true ∷ false ∷ true ∷ false ∷ true ∷ true ∷ true ∷ true ∷ []) }
    ensures to_l { AreSignals (bridge_at false true true true false) (8 ∷ 8 ∷ 8 ∷ 8 ∷ 8 ∷ 8 ∷ 8 ∷ 6 ∷ 6 ∷ 6 ∷ []) (true ∷ false ∷ true ∷ false ∷ false ∷ false ∷ true ∷ false ∷ false ∷ false ∷ []) (false ∷ true ∷ false ∷ true ∷ true ∷ true ∷ false ∷ true ∷ true ∷ true ∷ []) }
    ensures shut { AreSignals (bridge_at true false false false true) (8 ∷ 8 ∷ 8 ∷ 8 ∷ 8 ∷ 8 ∷ 8 ∷ 0 ∷ 6 ∷ 0 ∷ []) (true ∷ false ∷ false ∷ true ∷ true ∷ true ∷ false ∷ []) (false ∷ true ∷ true ∷ false ∷ false ∷ false ∷ true ∷ false ∷ true ∷ []) }
    ensures floats { IsResponse (bridge_at true false false false true) 7 Float }
{}

/// Two devices of one level fight, and the stronger of two wins. The level of a path is the least on it: past a weak
/// device the far drive loses, also at the net behind it.
pub fn opposed_devices()
    ensures equal { AreSignals (opposed 6 6) (8 ∷ 8 ∷ 6 ∷ []) (true ∷ false ∷ true ∷ []) (false ∷ true ∷ true ∷ []) }
    ensures fight { IsResponse (opposed 6 6) 2 Fight }
    ensures up { AreSignals (opposed 6 5) (8 ∷ 8 ∷ 6 ∷ []) (true ∷ false ∷ false ∷ []) (false ∷ true ∷ true ∷ []) }
    ensures down { AreSignals (opposed 4 7) (8 ∷ 8 ∷ 7 ∷ []) (true ∷ false ∷ true ∷ []) (false ∷ true ∷ false ∷ []) }
    ensures least { AreSignals least (8 ∷ 8 ∷ 5 ∷ 5 ∷ []) (true ∷ false ∷ true ∷ true ∷ []) (false ∷ true ∷ false ∷ false ∷ []) }
{}

/// A drive wins over a charge, and a charge is shown where nothing drives. Shared charges of one size fight at both nets,
/// and of two sizes the larger wins at both.
pub fn charges()
    ensures driven { AreSignals (charge_at true) (8 ∷ 8 ∷ 8 ∷ 4 ∷ []) (true ∷ false ∷ false ∷ true ∷ []) (false ∷ true ∷ true ∷ false ∷ []) }
    ensures shown { AreSignals (charge_at false) (8 ∷ 8 ∷ 8 ∷ 2 ∷ []) (true ∷ false ∷ true ∷ false ∷ []) (false ∷ true ∷ false ∷ true ∷ []) }
    ensures equal { AreSignals (shared 2 2) (8 ∷ 8 ∷ 2 ∷ 2 ∷ []) (true ∷ false ∷ true ∷ true ∷ []) (false ∷ true ∷ true ∷ true ∷ []) }
    ensures larger { AreSignals (shared 3 1) (8 ∷ 8 ∷ 3 ∷ 3 ∷ []) (true ∷ false ∷ false ∷ false ∷ []) (false ∷ true ∷ true ∷ true ∷ []) }
{}

/// An input shows its bit whatever drives it, and blocks what would pass through it. A ring of three nets that is driven
/// from both supplies at one level fights at each net.
pub fn input_and_ring()
    ensures blocked { AreSignals through_input (8 ∷ 8 ∷ 8 ∷ 6 ∷ []) (true ∷ false ∷ true ∷ true ∷ []) (false ∷ true ∷ false ∷ false ∷ []) }
    ensures ring { AreSignals ring (8 ∷ 8 ∷ 6 ∷ 6 ∷ 6 ∷ []) (true ∷ false ∷ true ∷ true ∷ true ∷ []) (false ∷ true ∷ true ∷ true ∷ true ∷ []) }
{}

/// A keeper is in the kept circuit alone: the bare circuit shows the charge, the kept one what the keeper pulls to.
pub fn keepers()
    ensures bare { AreSignals (dynamic_as true) (8 ∷ 8 ∷ 1 ∷ []) (true ∷ false ∷ false ∷ []) (false ∷ true ∷ true ∷ []) }
    ensures kept { AreSignals (dynamic_as false) (8 ∷ 8 ∷ 4 ∷ []) (true ∷ false ∷ true ∷ []) (false ∷ true ∷ false ∷ []) }
{}

/// An output of a whole instance has the source level where it is soft, and else its own, at which it may fight.
pub fn whole_outputs()
    ensures soft { AreSignals (whole_output Soft) (8 ∷ 8 ∷ 8 ∷ []) (true ∷ false ∷ false ∷ []) (false ∷ true ∷ true ∷ []) }
    ensures level { AreSignals (whole_output (Level 6)) (8 ∷ 8 ∷ 6 ∷ []) (true ∷ false ∷ true ∷ []) (false ∷ true ∷ true ∷ []) }
{}

/// The output of a gate of two inputs without one of its p-devices floats where no path leads to it. An input with a hold
/// shows its bit, whatever the hold keeps.
#[tactic(auto, using(crate::proofs::Floating::y_floats, crate::proofs::HeldInput::input_shows))]
pub fn missing_device_and_held_input()
    ensures floats { IsResponse gate 4 Float }
    ensures shows { IsResponse held_input 0 (Shows false) }
{}
