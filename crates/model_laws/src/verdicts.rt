//! Laws of verdicts.

ghost use Rattle.std.specs.Prelude.{◌≡◌, ℕ, ◌<◌, Bool, List, [], Some, codes, false, length, true};
ghost use Rattle.model_laws.specs.FirstFinding.{IsCovered};
ghost use Rattle.model_laws.specs.ZeroCell.{blif, design, the_fault};
ghost use Rattle.vrt_model.proofs.Cells.{base};
ghost use Rattle.vrt_model.proofs.FirstFinding.{IsOpen, found};
ghost use Rattle.vrt_model.specs.Comparison.{Comparison};
ghost use Rattle.vrt_model.specs.Equal.{IsEqual, IsVacuous};
ghost use Rattle.vrt_model.specs.Expressions.{value_by, value_of};
ghost use Rattle.vrt_model.specs.Places.{Finding, IsFinding, IsFirstInPhase, IsOrder, comes_before, standing};
ghost use Rattle.vrt_model.specs.Variables.{is_less};
ghost use Rattle.vrt_model.specs.Verdicts.{IsVerdict, answer_line};
ghost use Rattle.vrt_model.specs.declared.rules.Expr.{Expr};
ghost use Rattle.vrt_model.specs.declared.verdict.FaultKind.{FaultKind};
ghost use Rattle.vrt_model.specs.declared.verdict.Verdict.TheVariants.{Fault};

/// A cell that is equal has no fault and no vacuous phase, and a vacuous phase has no fault. Without a phase each
/// comparison would be equal, which is why rules have one.
#[tactic(auto, using(crate::proofs::VerdictLaws::equal_no_fault, crate::proofs::VerdictLaws::vacuous_no_fault, crate::proofs::NoPhase::no_phase))]
pub fn verdicts_apart()
    ensures faultless { (k : Comparison) (f : Finding) → IsEqual k → IsFinding k f → ⊥ }
    ensures met { (k : Comparison) (phase : ℕ) → IsEqual k → phase < length k.rules.phases → IsVacuous k phase → ⊥ }
    ensures vacuous { (k : Comparison) (f : Finding) → IsVacuous k f.phase → IsFinding k f → ⊥ }
    ensures phases { (k : Comparison) → IsEqual (record k { rules = record (k.rules) { phases = [] } }) }
{}

/// A finding is the first of its phase where each other one is of a kind that can stand first and stands no earlier, or
/// comes with a fight or a float of the bare circuit at the same net and valuation.
pub fn first_in_phase()
    ensures { (k : Comparison) (phase : ℕ) (kind : FaultKind) (at : ℕ) (bits : List Bool) (rank least : ℕ → ℕ) → IsOpen kind → ((other : FaultKind) (there : ℕ) (more : List Bool) → IsOpen other → IsFinding k (found phase other there more) → comes_before (standing k phase rank least other there) (standing k phase rank least kind at) ≡ true → ⊥) → ((more : List Bool) → IsFinding k (found phase kind at more) → is_less more bits ≡ false) → IsOrder k phase rank least → IsFinding k (found phase kind at bits) → ((other : FaultKind) (there : ℕ) (more : List Bool) → IsFinding k (found phase other there more) → IsCovered k phase other there more) → IsFirstInPhase k (found phase kind at bits) }
{}

/// The first place, worked out from the netlist to the line: of a cell whose one output is pulled to 0, where the model
/// says 1, the verdict is that the output differs.
#[tactic(auto, using(crate::proofs::FirstPlace::the_verdict, crate::proofs::FirstPlace::the_line))]
pub fn first_place()
    ensures verdict { IsVerdict design blif base 65536 0 (Fault the_fault) }
    ensures line { answer_line design blif base (record { cell = 0; verdict = Fault the_fault }) ≡ codes "cell zero differs y phase all circuit 0 model 1 at -" }
{}

/// Where each port has a bit, the value by bits that may be missing is the value.
#[tactic(auto, using(crate::proofs::VerdictLaws::value_total))]
pub fn expressions()
    ensures { (bits : List ℕ → Bool) (e : Expr) → value_by (λ name. Some (bits name)) e ≡ Some (value_of bits e) }
{}
