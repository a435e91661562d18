//! Circuits in which some of the instances are whole, those before a place.

ghost use Rattle.trial_cycles.specs.TrialCycles.{AnyAllowedAreChosen, AnyStepKeepsAcyclic, AnyTrialsAreAcyclic, AnyTriedMayBeWhole, CarriedClocksAreKnown};

/// A clock port at a net that carries the same clock is known in each phase.
pub fn carried_clocks_are_known()
    ensures { CarriedClocksAreKnown }
{}

/// Whatever outputs of instances meet: where the arcs have no cycle with the instances up to one whole, they have none with those before it whole.
pub fn any_step_keeps_acyclic()
    ensures { AnyStepKeepsAcyclic }
{}

/// Where they have none with all of them whole, they have none with those before any of them whole, nor has the flat circuit.
pub fn any_trials_are_acyclic()
    ensures { AnyTrialsAreAcyclic }
{}

/// So each of them may be left whole besides those before it.
pub fn any_tried_may_be_whole()
    ensures { AnyTriedMayBeWhole }
{}

/// And where all are chosen that the other tests allow, they are chosen as the definition asks.
pub fn any_allowed_are_chosen()
    ensures { AnyAllowedAreChosen }
{}
