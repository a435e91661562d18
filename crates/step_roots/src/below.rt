//! The valuations at which some variables have given bits, and those at which they come before them.

ghost use Rattle.std.specs.Prelude.{◌≡◌, ℕ, ◌*◌, ◌<◌, All, Bool, cond, false, length, not, true};
ghost use Rattle.bdd_core.specs.Store.{Gives, IsLive, function_of};
ghost use Rattle.bdd_ops.specs.Counting.{Counts};
ghost use Rattle.step_roots.specs.Bits.{compares};

use bdd_core::{H, ONE, Spent, Store, ZERO};
use vrt_model::Var;

/// A bit as a constant.
fn constant(bit: bool) -> H
    ensures { result ≡ record { 0 = cond bit 1 0 } }
{
    if bit { ONE } else { ZERO }
}

/// Where a variable has a bit, those of the rest; and, where lesser ones are asked for, those with a lesser bit.
fn compared_bit(
    store: &mut Store,
    lesser: bool,
    variable: u32,
    bit: bool,
    rest: H,
) -> Result<H, Spent>
    requires variable { variable < store.old.vars }
    requires rest { IsLive store.old rest }
    ensures gives { Gives store.old store.new (λ v. cond (v variable) (cond bit (function_of store.old rest v) false) (cond bit lesser (function_of store.old rest v))) result }
    ensures counts { Counts store.old.vars 2 store.old store.new result }
{
    store.sound();
    let test = match store.bit(Var(variable)) {
        Ok(test) => test,
        Err(spent) => return Err(spent),
    };
    if bit {
        store.ite(test, rest, constant(lesser))
    } else {
        store.ite(test, ZERO, rest)
    }
}

/// The valuations at which these variables have these bits; or, where lesser ones are asked for, come before them.
fn compared(store: &mut Store, lesser: bool, variables: &[u32], bits: &[bool]) -> Result<H, Spent>
    requires variables { All (λ (x : ℕ). x < store.old.vars) variables.now }
    requires bits { length bits.now ≡ length variables.now }
    ensures gives { Gives store.old store.new (compares lesser variables.now bits.now) result }
    ensures counts { Counts store.old.vars (2 * length variables.now) store.old store.new result }
{
    store.sound();
    let mut rest = constant(!lesser);
    let mut left = variables.len();
    'left: while left > 0 {
        left -= 1;
        rest = match compared_bit(store, lesser, variables[left], bits[left], rest) {
            Ok(next) => next,
            Err(spent) => return Err(spent),
        };
    }
    Ok(rest)
}

/// The valuations at which the bits of these variables come before these: of two lists the lesser has 0 where they first differ.
pub fn before(store: &mut Store, variables: &[u32], bits: &[bool]) -> Result<H, Spent>
    requires variables { All (λ (x : ℕ). x < store.old.vars) variables.now }
    requires bits { length bits.now ≡ length variables.now }
    ensures gives { Gives store.old store.new (compares true variables.now bits.now) result }
    ensures counts { Counts store.old.vars (2 * length variables.now) store.old store.new result }
{
    compared(store, true, variables, bits)
}

/// The valuations at which these variables have these bits.
pub fn same_bits(store: &mut Store, variables: &[u32], bits: &[bool]) -> Result<H, Spent>
    requires variables { All (λ (x : ℕ). x < store.old.vars) variables.now }
    requires bits { length bits.now ≡ length variables.now }
    ensures gives { Gives store.old store.new (compares false variables.now bits.now) result }
    ensures counts { Counts store.old.vars (2 * length variables.now) store.old store.new result }
{
    compared(store, false, variables, bits)
}
