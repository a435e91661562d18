//! Laws of the grammar.

ghost use Rattle.std.specs.Prelude.{◌≡◌, ◌++◌, ◌∷◌, [], List, Option, Some, None};
ghost use Rattle.verilog_expression.specs.Grammar.{Begins, Formula, IsExpression};
ghost use Rattle.verilog_tokens.specs.Signs.{Part};
ghost use Rattle.verilog_expression.specs.Readings.{formula_of, reached, start};

/// Tokens spell at most one expression, and it is the one that is read token by token.
#[tactic(auto, using(crate::proofs::Complete::at_most_one, crate::proofs::Complete::found, crate::proofs::Sound::sound))]
pub fn one_expression()
    ensures one { (ts : List Part) (f g : Formula) → IsExpression ts f → IsExpression ts g → f ≡ g }
    ensures found { (ts : List Part) (f : Formula) → IsExpression ts f → formula_of ts ≡ Some f }
    ensures spelled { (ts : List Part) (f : Formula) → formula_of ts ≡ Some f → IsExpression ts f }
{}

/// A token is refused exactly where no expression begins with it and those before it.
#[tactic(auto, using(crate::proofs::Begun::goes_on, crate::proofs::Begun::begun))]
pub fn good_beginnings()
    ensures refused { (ts : List Part) → reached (Some start) ts ≡ None → Begins ts → ⊥ }
    ensures taken { (ts : List Part) → (reached (Some start) ts ≡ None → ⊥) → Begins ts }
{}
