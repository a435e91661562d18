//! The bit of a group, and the held value of a hold, as functions of the variables.

ghost use Rattle.std.specs.Prelude.{◌≡◌, ℕ, ◌≤◌, ◌<◌, IfSome, cond, length, position};
ghost use Rattle.bdd_core.specs.Diagram.{IsWithin};
ghost use Rattle.bdd_core.specs.Store.{IsLive, function_of, Gives};
ghost use Rattle.bdd_ops.specs.Counting.{Counts};
ghost use Rattle.vrt_model.specs.Held.{group_bit_at, is_element, is_group};
ghost use Rattle.vrt_model.specs.Lists.{differ};
ghost use Rattle.hold_keep.specs.Rooted.{bit_by, bits_at};

use bdd_core::{H, ONE, Spent, Store, ZERO};
use bdd_ops::not;
use vrt_model::{Source, Var};

/// Whether a variable is that of a latch element.
fn is_element(source: Source, element: u32) -> bool
    ensures { result ≡ is_element element source }
{
    match source {
        Source::Input(_) => false,
        Source::Element(other) => other == element,
        Source::Group(_) => false,
    }
}

/// Whether a variable is that of a group.
fn is_group(source: Source, number: usize) -> bool
    ensures { result ≡ is_group number source }
{
    match source {
        Source::Input(_) => false,
        Source::Element(_) => false,
        Source::Group(other) => other as usize == number,
    }
}

/// The place of the variable of a latch element.
fn element_place(sources: &[Source], element: u32) -> Option<usize>
    ensures { result ≡ position (is_element element) sources.now }
{
    sources
        .iter()
        .position(|source| is_element(*source, element))
}

/// The place of the variable of a group.
fn group_place(sources: &[Source], number: usize) -> Option<usize>
    ensures { result ≡ position (is_group number) sources.now }
{
    sources.iter().position(|source| is_group(*source, number))
}

/// The bit of the variable at a place, and 0 where there is none.
fn bit_by(store: &mut Store, place: Option<usize>) -> Result<H, Spent>
    requires { IfSome place (λ at. at < store.old.vars) }
    ensures gives { Gives store.old store.new (bit_by place) result }
    ensures counts { (u : ℕ) → IfSome place (λ at. at < u) → Counts u 1 store.old store.new result }
{
    store.sound();
    let _vars = store.vars();
    match place {
        Some(at) => store.bit(Var(at as u32)),
        None => Ok(ZERO),
    }
}

/// The constant of a bit.
fn constant(bit: bool) -> H
    ensures { result.0 ≡ cond bit 1 0 }
{
    if bit { ONE } else { ZERO }
}

/// The bit of the group of a number as a function of the variables: that of its latch element, where it reaches one; else the
/// bit with which it enters the phase, where there is one; else its variable.
pub fn group_bit(
    store: &mut Store,
    sources: &[Source],
    number: usize,
    element: Option<u32>,
    entered: Option<bool>,
) -> Result<H, Spent>
    requires { length sources.now ≤ store.old.vars }
    ensures gives { Gives store.old store.new (λ v. group_bit_at sources.now (bits_at sources.now v) number element entered) result }
    ensures counts { (u : ℕ) → length sources.now ≤ u → Counts u 1 store.old store.new result }
{
    store.sound();
    match element {
        Some(element) => bit_by(store, element_place(sources, element)),
        None => match entered {
            Some(bit) => Ok(constant(bit)),
            None => bit_by(store, group_place(sources, number)),
        },
    }
}

/// The held value of a hold as a function: the bit of its group with its polarity.
pub fn held_bit(store: &mut Store, bit: H, inverted: bool) -> Result<H, Spent>
    requires { IsLive store.old bit }
    ensures gives { Gives store.old store.new (λ v. differ inverted (function_of store.old bit v)) result }
    ensures counts { (u : ℕ) → IsWithin u (function_of store.old bit) → Counts u 1 store.old store.new result }
{
    store.sound();
    if inverted { not(store, bit) } else { Ok(bit) }
}
