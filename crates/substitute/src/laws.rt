//! Laws of instances that are chosen one after the other, each the contract of a function that does nothing.

ghost use Rattle.substitute.specs.Right.{AcyclicIsChosen, ClosedIsLeftOut, InsideIsLeftOut, OpenIsChosen, RefusedIsLeftOut};
ghost use Rattle.substitute.specs.Taken.{TakenGrow};
ghost use Rattle.substitute.specs.Sound.{OpenAreAllowed};
ghost use Rattle.substitute.specs.Chosen.{MarkedIsWithOne, FrontIsAll, OneMoreBringsItsOwn, OneMoreIsDecided, OutputsStandApart};

/// Where no instance is chosen from a place on, those before it are all.
pub fn front_is_all()
    ensures { FrontIsAll }
{}

/// Then none of their outputs is of the instance there.
pub fn outputs_stand_apart()
    ensures { OutputsStandApart }
{}

/// And where that instance is whole too, its outputs come behind theirs.
pub fn one_more_brings_its_own()
    ensures { OneMoreBringsItsOwn }
{}

/// Where the instances before one are rightly chosen or not by their marks, and so is this one, all up to it are.
pub fn one_more_is_decided()
    ensures { OneMoreIsDecided }
{}

/// An instance that passes all tests but that of cycles, and those before it that are chosen, are allowed, each besides those before it.
pub fn open_are_allowed()
    ensures { OpenAreAllowed }
{}

/// The marks at the outputs of some instances grow by those of the pins of one more.
pub fn taken_grow()
    ensures { TakenGrow }
{}

/// An instance is rightly left out where it is inside a whole one, where its cell is not allowed, and where its outputs are not open.
pub fn others_are_left_out()
    ensures inside { InsideIsLeftOut }
    ensures refused { RefusedIsLeftOut }
    ensures closed { ClosedIsLeftOut }
{}

/// Any other is rightly chosen where cycles are not asked for, and else exactly where the circuit with it has no cycle.
pub fn acyclic_is_chosen()
    ensures opened { OpenIsChosen }
    ensures acyclic { AcyclicIsChosen }
{}

/// With its mark an instance is whole besides the others.
pub fn marked_is_with_one()
    ensures { MarkedIsWithOne }
{}
