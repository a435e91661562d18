//! Laws of the grammar.

ghost use Rattle.std.specs.Prelude.{◌≡◌, ◌++◌, ◌∷◌, [], List, None, Some, false, true};
ghost use Rattle.verilog_source.specs.Grammar.{Begins, IsSource};
ghost use Rattle.verilog_source.specs.Known.{known_by};
ghost use Rattle.verilog_source.specs.Modules.{Module};
ghost use Rattle.verilog_source.specs.Places.{Event, Tells, events_from, events_of, reached};
ghost use Rattle.verilog_source.specs.Places.Place.{Outside};
ghost use Rattle.verilog_source.specs.Refused.{is_end, is_refused};
ghost use Rattle.verilog_tokens.specs.Signs.{Token};

/// Tokens are a text of one list of modules at most, and reading them token by token tells what is in these.
#[tactic(auto, using(crate::proofs::Complete::one, crate::proofs::Complete::source_run, crate::proofs::Sound::found))]
pub fn one_source()
    ensures one { (ts : List Token) (ms ns : List Module) → IsSource ts ms → IsSource ts ns → ms ≡ ns }
    ensures read { (ts : List Token) (ms : List Module) → IsSource ts ms → events_from ts Outside ≡ Some (events_of ms) }
    ensures told { (ts : List Token) (es : List Event) → events_from ts Outside ≡ Some es → Tells ts es }
{}

/// A token is refused exactly where no text of modules begins with it and those before it.
#[tactic(auto, using(crate::proofs::Begun::begun, crate::proofs::Begun::refused))]
pub fn good_beginnings()
    ensures refused { (ts : List Token) → reached (Some Outside) ts ≡ None → Begins ts → ⊥ }
    ensures taken { (ts : List Token) → (reached (Some Outside) ts ≡ None → ⊥) → Begins ts }
{}

/// The fault of a statement that does not fit comes exactly at the first token with which no text of modules begins, as
/// the tokens before it do.
#[tactic(auto, using(crate::proofs::KnownLaws::goes_on_more, crate::proofs::KnownLaws::refused_more))]
pub fn first_refused()
    ensures refused { (ts : List Token) (t : Token) → Begins ts → is_refused (known_by ts) t ≡ true → Begins (ts ++ t ∷ []) → ⊥ }
    ensures taken { (ts : List Token) (t : Token) → Begins ts → is_end t.sign ≡ false → is_refused (known_by ts) t ≡ false → Begins (ts ++ t ∷ []) }
{}
