//! Sets of numbers that are joined two by two. Each number has a parent in its set, itself or a lesser number, so that the
//! least number of a set is the one that is its own parent (R. E. Tarjan, J. van Leeuwen, Worst-case analysis of set union
//! algorithms, Journal of the ACM 31, 1984).

ghost use Rattle.std.specs.Prelude.{◌≡◌, ℕ, ◌<◌, ◌≤◌, Bool, length, slice_index};
ghost use Rattle.channel_parts.specs.Labels.{AreBelow, AreOfParts};
ghost use Rattle.channel_parts.specs.Unions.{IsWritten, Respects};
ghost use Rattle.vrt_model.specs.Known.{IsPlain, IsTogether};
ghost use Rattle.vrt_model.specs.declared.circuit.Circuit.{Circuit as CircuitValue};
ghost use Rattle.vrt_model.specs.declared.rules.Phase.{Phase as PhaseValue};

/// Gives a number a parent.
fn put(parents: &mut [usize], number: usize, parent: usize)
    requires { number < length parents.old }
    ensures { IsWritten number parent parents.old parents.new }
{
    parents[number] = parent;
}

/// Gives a number the parent of its parent.
fn shorten(parents: &mut [usize], number: usize)
    requires number { number < length parents.old }
    requires below { AreBelow parents.old }
    ensures { IsWritten number (slice_index parents.old (slice_index parents.old number)) parents.old parents.new }
{
    let parent = parents[number];
    let above = parents[parent];
    put(parents, number, above);
}

/// The least number of the set of a number. The way to it becomes shorter.
#[tactic(auto, using(crate::proofs::UnionLaws::shorter_smaller))]
fn least_of(parents: &mut [usize], number: usize) -> usize
    requires number { number < length parents.old }
    requires below { AreBelow parents.old }
    ensures below { AreBelow parents.new }
    ensures within { result ≤ number }
    ensures own { slice_index parents.new result ≡ result }
    ensures stay { (n : ℕ) → slice_index parents.old n ≡ n → slice_index parents.new n ≡ n }
    ensures same { (f : ℕ → ℕ) → Respects parents.new f → Respects parents.old f × (f result ≡ f number) }
    ensures sound { (c : CircuitValue) (phase : PhaseValue) (bare : Bool) → AreOfParts c phase bare parents.old → AreOfParts c phase bare parents.new × (IsPlain c number → IsTogether c phase bare number result) }
{
    let mut at = number;
    'up: while parents[at] != at {
        shorten(parents, at);
        at = parents[at];
    }
    at
}

/// Joins two sets, of which these are the least numbers.
fn link(parents: &mut [usize], low: usize, high: usize)
    requires high { high < length parents.old }
    requires order { low ≤ high }
    requires own { slice_index parents.old high ≡ high }
    requires below { AreBelow parents.old }
    ensures below { AreBelow parents.new }
    ensures same { (f : ℕ → ℕ) → Respects parents.new f → Respects parents.old f × (f low ≡ f high) }
    ensures sound { (c : CircuitValue) (phase : PhaseValue) (bare : Bool) → IsTogether c phase bare high low → AreOfParts c phase bare parents.old → AreOfParts c phase bare parents.new }
{
    put(parents, high, low);
}

/// Joins the sets of two numbers.
pub(crate) fn join(parents: &mut [usize], left: usize, right: usize)
    requires left { left < length parents.old }
    requires right { right < length parents.old }
    requires below { AreBelow parents.old }
    ensures below { AreBelow parents.new }
    ensures same { (f : ℕ → ℕ) → Respects parents.new f → Respects parents.old f × (f left ≡ f right) }
    ensures sound { (c : CircuitValue) (phase : PhaseValue) (bare : Bool) → IsTogether c phase bare left right → AreOfParts c phase bare parents.old → AreOfParts c phase bare parents.new }
{
    let one = least_of(parents, left);
    let other = least_of(parents, right);
    if one <= other {
        link(parents, one, other);
    } else {
        link(parents, other, one);
    }
}

/// Gives each number the least of its set as its parent.
pub(crate) fn flatten(parents: &mut [usize])
    requires { AreBelow parents.old }
    ensures below { AreBelow parents.new }
    ensures own { (n : ℕ) → n < length parents.new → slice_index parents.new (slice_index parents.new n) ≡ slice_index parents.new n }
    ensures same { (f : ℕ → ℕ) → Respects parents.new f → Respects parents.old f }
    ensures sound { (c : CircuitValue) (phase : PhaseValue) (bare : Bool) → AreOfParts c phase bare parents.old → AreOfParts c phase bare parents.new }
{
    for number in 0..parents.len() {
        shorten(parents, number);
    }
}
