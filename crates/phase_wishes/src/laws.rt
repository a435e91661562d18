//! What lists of wishes say, by the definition of the faults.

ghost use Rattle.std.specs.Prelude.{◌≡◌, ℕ, ◌↔◌, ◌∷◌, ◌++◌, Bool, true, List, [], Option, map};
ghost use Rattle.fault_places.specs.Searches.{Spot};
ghost use Rattle.phase_wishes.specs.Held.{held_kinds};
ghost use Rattle.phase_wishes.specs.Wishes.{AreFreeBits, AreOnce, AreOutputWishes, AreWishes, AreWishesOf, IsMissed, is_asked, spot_of, wanted_bit};
ghost use Rattle.phase_wishes.specs.declared.wishes.Wish.{Wish as WishValue};
ghost use Rattle.vrt_model.specs.Assignment.{Assignment};
ghost use Rattle.vrt_model.specs.Comparison.{Comparison};
ghost use Rattle.vrt_model.specs.Faults.{IsPrintedWith, Misses, Stands};
ghost use Rattle.vrt_model.specs.Lists.{Among};
ghost use Rattle.vrt_model.specs.Reading.{Partial};
ghost use Rattle.vrt_model.specs.State.{Setting};
ghost use Rattle.vrt_model.specs.declared.verdict.FaultKind.TheVariants.{Differs};

/// Of all that nets ought to be given, a wish of a place is missed exactly where the solution does not give what it ought to
/// there, which is the fault of this place. No two wishes have the same place. A fault is printed with the bit of the net and the
/// bit that this ought to have.
pub fn missed_wishes()
    ensures missed { (k : Comparison) (phase : ℕ) (wishes : List WishValue) → AreWishes k phase wishes → (x : Spot) (a : Partial) (g : Assignment) → IsMissed wishes x a g ↔ Misses k phase a g x.kind x.at }
    ensures stands { (k : Comparison) (phase : ℕ) (wishes : List WishValue) → AreWishes k phase wishes → (setting : Setting) (a : Partial) (g : Assignment) (x : Spot) → Among (map spot_of wishes) x → IsMissed wishes x a g ↔ Stands k phase setting a g x.kind x.at }
    ensures printed { (k : Comparison) (phase : ℕ) (wishes : List WishValue) → AreWishes k phase wishes → (setting : Setting) (a : Partial) (g : Assignment) (wish : WishValue) (circuit wanted : Option Bool) → Among wishes wish → is_asked wish g ≡ true → a wish.net.0 ≡ circuit → wanted_bit wish.wanted a g ≡ wanted → IsPrintedWith k phase setting a g wish.kind wish.place circuit wanted }
    ensures once { (k : Comparison) (phase : ℕ) (wishes : List WishValue) → AreWishes k phase wishes → AreOnce wishes }
{}

/// A wish for each observed output port, asked for where the port's signal is not free, is what the outputs ought to be given; with what the holds ought to be behind it, it is all.
pub fn all_wishes()
    ensures outputs { (k : Comparison) (phase : ℕ) (outputs : List WishValue) → AreOutputWishes k phase outputs → AreFreeBits k outputs → AreWishesOf (Differs ∷ []) k phase outputs }
    ensures all { (k : Comparison) (phase : ℕ) (outputs holds : List WishValue) → AreWishesOf (Differs ∷ []) k phase outputs → AreWishesOf held_kinds k phase holds → AreWishes k phase (outputs ++ holds) }
{}
