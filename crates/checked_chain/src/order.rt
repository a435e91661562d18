//! Which instances are whole, and which are inside.

ghost use Rattle.checked_chain.specs.Order.{ChosenAreApart, NothingIsLeftOutInside, NothingIsWholeInside, OuterComesFirst};

/// A place stands before those inside it, where devices and instances of a cell have different names.
pub fn outer_comes_first()
    ensures { OuterComesFirst }
{}

/// No chosen instance is inside a chosen one.
pub fn chosen_are_apart()
    ensures { ChosenAreApart }
{}

/// Nothing inside an instance is whole, as long as only instances before that one are.
pub fn nothing_is_whole_inside()
    ensures { NothingIsWholeInside }
{}

/// An instance that is not inside a whole one has nothing left out before its turn, neither itself nor what is inside.
pub fn nothing_is_left_out_inside()
    ensures { NothingIsLeftOutInside }
{}
