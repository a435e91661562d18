//! A law of the grammar.

ghost use Rattle.std.specs.Prelude.{◌≡◌, List, Some};
ghost use Rattle.rules_expression.specs.Grammar.{Formula, IsExpression};
ghost use Rattle.rules_expression.specs.Readings.{formula_of};
ghost use Rattle.rules_expression.specs.declared.tokens.Token.{Token};

/// Tokens spell at most one expression, and it is the one that is read token by token.
#[tactic(auto, using(crate::proofs::Complete::at_most_one, crate::proofs::Complete::found, crate::proofs::Sound::sound))]
pub fn one_expression()
    ensures one { (ts : List Token) (f g : Formula) → IsExpression ts f → IsExpression ts g → f ≡ g }
    ensures found { (ts : List Token) (f : Formula) → IsExpression ts f → formula_of ts ≡ Some f }
    ensures spelled { (ts : List Token) (f : Formula) → formula_of ts ≡ Some f → IsExpression ts f }
{}
