//! One form for what `ite` is asked in several ways, so that the memo has one entry for them (K. S. Brace, R. L. Rudell,
//! R. E. Bryant, Efficient implementation of a BDD package, Design Automation Conference 1990).

ghost use Rattle.std.specs.Prelude.{ℕ, ◌<◌, ◌≤◌, List};
ghost use Rattle.node_pool.specs.declared.region.Node.{Node};
ghost use Rattle.bdd_core.specs.Diagram.{IsSame, choice, meaning};
ghost use Rattle.bdd_core.specs.Form.{IsForm};

use crate::{H, ONE, ZERO};

/// What `ite` of `f`, `g` and `h` comes to.
#[derive(Clone, Copy)]
pub enum Form {
    /// It is this function.
    Known(H),
    /// It is `ite` of `f`, which is no constant, and of these two, neither of which is `f`.
    Asks(H, H),
}

/// The disjunction of `f` and `h`, `ite` of `f`, `f` and `h`.
fn disjunction(f: H, h: H) -> Form
    requires { 2 ≤ f.0 }
    ensures { IsForm f f h result }
{
    if h.0 == 0 {
        return Form::Known(f);
    }
    if h.0 == 1 {
        return Form::Known(ONE);
    }
    Form::Asks(ONE, h)
}

/// The conjunction of `f` and `g`, `ite` of `f`, `g` and `f`.
fn conjunction(f: H, g: H) -> Form
    requires { 2 ≤ f.0 }
    ensures { IsForm f g f result }
{
    if g.0 == 0 {
        return Form::Known(ZERO);
    }
    if g.0 == 1 {
        return Form::Known(f);
    }
    Form::Asks(g, ZERO)
}

/// The form of `ite` of `f`, `g` and `h`, with a constant in the place of one that is `f`.
pub fn form_of(f: H, g: H, h: H) -> Form
    ensures { IsForm f g h result }
{
    if f.0 < 2 {
        if f.0 == 1 {
            return Form::Known(g);
        }
        return Form::Known(h);
    }
    if g.0 == h.0 {
        return Form::Known(g);
    }
    if f.0 == g.0 {
        return disjunction(f, h);
    }
    if f.0 == h.0 {
        return conjunction(f, g);
    }
    if g.0 == 1 && h.0 == 0 {
        return Form::Known(f);
    }
    Form::Asks(g, h)
}

/// What `ite` is asked, with the older operand of a conjunction and of a disjunction first.
pub fn in_order(f: H, g: H, h: H) -> (H, H, H)
    ensures same { (nodes : List Node) → IsSame (choice (meaning nodes result.0.0) (meaning nodes result.1.0) (meaning nodes result.2.0)) (choice (meaning nodes f.0) (meaning nodes g.0) (meaning nodes h.0)) }
    ensures within { (n : ℕ) → 2 ≤ n → f.0 < n → g.0 < n → h.0 < n → (result.0.0 < n) × (result.1.0 < n) × (result.2.0 < n) }
{
    if h.0 == 0 && g.0 >= 2 && g.0 < f.0 {
        return (g, f, ZERO);
    }
    if g.0 == 1 && h.0 >= 2 && h.0 < f.0 {
        return (h, ONE, f);
    }
    (f, g, h)
}
