//! The store.

ghost use Rattle.std.specs.Prelude.{◌≡◌, ℕ, ◌+◌, ◌-◌, ◌<◌, ◌≤◌, ◌≢◌, ◌↔◌, ◌⊎◌, true, false, List, [], ◌∷◌, ◌++◌, length, take, replicate, slice_index, slice_set, IfOk, IfSome, IsNone, IsSome};
ghost use Rattle.std.specs.List.{Contains};
ghost use Rattle.bdd_core.specs.Diagram.{IsSame, IsReduced, IsProper, choice, bit_of, fixed, meaning, top, node_at, with_bit};
ghost use Rattle.bdd_core.specs.Memo.{fixed_mark};

use crate::memo::{Entry, Memo};
use crate::standard::{Form, form_of, in_order};
use crate::{H, ONE, Spent, ZERO};
use node_pool::{Mark, Node, Pool, Span};
use std::alloc::Global;
use std::marker::Model;
use vrt_model::{NoMemory, Var};

/// Ordered decision diagrams over so many variables, within a budget of nodes, and words beside them.
pub struct Store {
    pool: Pool,
    memo: Memo,
    budget: u32,
    vars: u32,
}

/// By hand, so that letting go of one is a call.
impl Drop for Store {
    fn drop(self) {
        let Store {
            pool: _pool,
            memo: _memo,
            budget: _budget,
            vars: _vars,
        } = self;
    }
}

impl Model for Store {
    ghost use Rattle.bdd_core.specs.Store.{Diagrams};

    ghost Value = { Diagrams };

    ghost use Rattle.bdd_core.specs.Inside.{diagrams_of, IsSound};

    ghost view = { diagrams_of };

    ghost invariant = { IsSound };
}

/// Adds a node that is not there and has room.
fn add_end(pool: &mut Pool, end: Node)
    requires new { ¬ Contains pool.old.nodes end }
    requires room { length pool.old.nodes < pool.old.node_room }
    ensures { pool.new ≡ record pool.old { nodes = pool.old.nodes ++ end ∷ [] } }
{
    let _place = pool.add_node(end);
}

/// In the place of the third number of a memo's entry, the mark of an answer of `restrict`. No node has this place.
fn mark_of(value: bool) -> u32
    ensures { result ≡ fixed_mark value }
{
    if value { 0xffff_ffff } else { 0xffff_fffe }
}

impl Store {
    ghost use Rattle.bdd_core.specs.Store.{IsLive, IsSpan, IsCanonical, IsOpened, Means, Makes, IsExact, function_of};

    /// With the two constants, so with the count 2, a budget of so many nodes with these, so many words left, and so
    /// many variables. No other call of a store takes memory.
    ///
    /// At opening 20 KB are written, whatever the budget is: the first heads of the pool's chains and the first entries
    /// of the memo. Both grow by 4 as the count of nodes reaches theirs, the memo only where it is used so much. The most
    /// that it has is as many entries as the budget has nodes or up to 4 times as many, so that its size does not depend
    /// on the budget.
    pub fn with_budget(alloc: Global, budget: u32, words: u32, vars: u32) -> Result<Store, NoMemory>
        requires budget { (2 ≤ budget) × (budget ≤ 64000000) }
        requires vars { vars ≤ 1000 }
        ensures opened { IfOk result (IsOpened budget words vars) }
        ensures sound { IfOk result (λ s. IsReduced s.vars s.nodes) }
    {
        let Ok(mut pool) = Pool::with_room(alloc, budget, words) else {
            return Err(NoMemory);
        };
        let zero = Node {
            var: vars,
            lo: 0,
            hi: 0,
        };
        let one = Node {
            var: vars,
            lo: 1,
            hi: 1,
        };
        add_end(&mut pool, zero);
        add_end(&mut pool, one);
        let Ok(memo) = Memo::open(alloc, budget / 2) else {
            return Err(NoMemory);
        };
        Ok(Store {
            pool,
            memo,
            budget,
            vars,
        })
    }

    /// How many nodes there are, with the two constants. At any time two live handles are equal exactly where their
    /// functions are.
    pub fn node_count(&self) -> u32
        ensures count { result ≡ length self.now.nodes }
        ensures sound { IsReduced self.now.vars self.now.nodes }
        ensures canonical { IsCanonical self.now }
        ensures within { length self.now.nodes ≤ self.now.budget }
    {
        self.sound();
        self.pool.node_count()
    }

    /// Does nothing. It says what is true of a store at any time, for the proofs of callers, who see its nodes alone: the
    /// diagrams are reduced, two live handles are equal exactly where their functions are, and the nodes are within the
    /// budget.
    pub fn sound(&self)
        ensures sound { IsReduced self.now.vars self.now.nodes }
        ensures canonical { IsCanonical self.now }
        ensures within { length self.now.nodes ≤ self.now.budget }
    {
        let _known = &self.pool;
    }

    /// How many variables there are.
    pub fn vars(&self) -> u32
        ensures { result ≡ self.now.vars }
    {
        self.vars
    }

    /// How many words the store took for itself at opening. A mark that `leave` takes is not below them.
    pub fn own_words(&self) -> u32
        ensures { result ≡ self.now.own }
    {
        let _known = &self.pool;
        0
    }

    /// The variable that a live handle tests, and the numbers of its branches where that variable is 0 and where it is
    /// 1. None exactly for the two constants.
    #[tactic(auto, unfolding(crate::specs::Diagram::top))]
    pub fn node(&self, f: H) -> Option<Node>
        requires { IsLive self.now f }
        ensures end { IsNone result ↔ (f.0 < 2) }
        ensures node { IfSome result (λ n. n ≡ node_at self.now.nodes f.0) }
        ensures tests { IfSome result (λ n. n.var ≡ top self.now.nodes f.0) }
        ensures proper { IfSome result (λ n. IsProper self.now.vars self.now.nodes n f.0) }
    {
        if f.0 < 2 {
            return None;
        }
        Some(self.pool.node(f.0))
    }

    /// The variable that a place tests. The constants have the number of variables.
    fn top_of(&self, f: H) -> u32
        requires { IsLive self.now f }
        ensures { result ≡ top self.now.nodes f.0 }
    {
        self.pool.node(f.0).var
    }

    /// The least variable that one of three tests.
    fn least_top(&self, f: H, g: H, h: H) -> u32
        requires { IsLive self.now f × IsLive self.now g × IsLive self.now h }
        ensures least { (result ≤ top self.now.nodes f.0) × (result ≤ top self.now.nodes g.0) × (result ≤ top self.now.nodes h.0) }
        ensures one { (result ≡ top self.now.nodes f.0) ⊎ (result ≡ top self.now.nodes g.0) ⊎ (result ≡ top self.now.nodes h.0) }
    {
        let x = self.top_of(f);
        let y = self.top_of(g);
        let z = self.top_of(h);
        x.min(y).min(z)
    }

    /// The parts of f where a variable is 0 and where it is 1.
    fn branches(&self, f: H, var: u32) -> (H, H)
        requires live { IsLive self.now f }
        requires first { var ≤ top self.now.nodes f.0 }
        requires within { var < self.now.vars }
        ensures live { IsLive self.now result.0 × IsLive self.now result.1 }
        ensures below { (result.0.0 ≤ f.0) × (result.1.0 ≤ f.0) }
        ensures smaller { var ≡ top self.now.nodes f.0 → (result.0.0 < f.0) × (result.1.0 < f.0) }
        ensures lo { IsSame (function_of self.now result.0) (λ v. function_of self.now f (with_bit v var false)) }
        ensures hi { IsSame (function_of self.now result.1) (λ v. function_of self.now f (with_bit v var true)) }
    {
        let n = self.pool.node(f.0);
        if n.var == var {
            (H(n.lo), H(n.hi))
        } else {
            (f, f)
        }
    }

    /// The function that is `hi` where a variable is 1 and `lo` where it is 0.
    fn join(&mut self, var: u32, lo: H, hi: H) -> Result<H, Spent>
        requires var { var < self.old.vars }
        requires lo { IsLive self.old lo }
        requires hi { IsLive self.old hi }
        requires lo_later { var < top self.old.nodes lo.0 }
        requires hi_later { var < top self.old.nodes hi.0 }
        ensures { Makes self.old self.new (choice (bit_of var) (function_of self.old hi) (function_of self.old lo)) result }
    {
        let _known = &self.pool;
        if lo == hi {
            return Ok(lo);
        }
        let Some(at) = self.pool.add_node(Node {
            var,
            lo: lo.0,
            hi: hi.0,
        })
        else {
            return Err(Spent { nodes: self.budget });
        };
        Ok(H(at))
    }

    /// The function that is `hi` where a variable is 1 and `lo` where it is 0. Both are live and test only later
    /// variables. Where they are equal it is that handle.
    pub fn mk(&mut self, var: Var, lo: H, hi: H) -> Result<H, Spent>
        requires var { var.0 < self.old.vars }
        requires lo { IsLive self.old lo }
        requires hi { IsLive self.old hi }
        requires lo_later { var.0 < top self.old.nodes lo.0 }
        requires hi_later { var.0 < top self.old.nodes hi.0 }
        ensures makes { Makes self.old self.new (choice (bit_of var.0) (function_of self.old hi) (function_of self.old lo)) result }
        ensures exact { IsExact self.old self.new (choice (bit_of var.0) (function_of self.old hi) (function_of self.old lo)) result }
    {
        self.sound();
        self.join(var.0, lo, hi)
    }

    /// The function that is the bit of a variable of the store.
    pub fn bit(&mut self, var: Var) -> Result<H, Spent>
        requires { var.0 < self.old.vars }
        ensures makes { Makes self.old self.new (bit_of var.0) result }
        ensures exact { IsExact self.old self.new (bit_of var.0) result }
    {
        self.sound();
        self.join(var.0, ZERO, ONE)
    }

    /// An answer of `choose` that the memo has.
    fn recalled(&self, f: H, g: H, h: H) -> Option<H>
        requires first { 2 ≤ f.0 }
        requires live { IsLive self.now f × IsLive self.now g × IsLive self.now h }
        ensures { IfSome result (λ r. Means self.now r (choice (function_of self.now f) (function_of self.now g) (function_of self.now h))) }
    {
        let _known = &self.pool;
        let Some(r) = self.memo.recall(f.0, g.0, h.0) else {
            return None;
        };
        Some(H(r))
    }

    /// Keeps an answer of `choose`.
    fn remember(&mut self, f: H, g: H, h: H, r: H)
        requires live { IsLive self.old f × IsLive self.old g × IsLive self.old h }
        requires is { Means self.old r (choice (function_of self.old f) (function_of self.old g) (function_of self.old h)) }
        ensures { self.new ≡ self.old }
    {
        let count = self.pool.node_count();
        let entry = Entry {
            f: f.0,
            g: g.0,
            h: h.0,
            r: r.0,
        };
        self.memo.keep(entry, count);
    }

    /// `ite`, by its form, by the memo, or part by part. It goes as deep as there are variables. It stands in `part` itself, so that only what is
    /// not known takes a call.
    #[cycle(choose)]
    #[inline(always)]
    fn choose(&mut self, f: H, g: H, h: H) -> Result<H, Spent>
        requires { IsLive self.old f × IsLive self.old g × IsLive self.old h }
        ensures { Makes self.old self.new (choice (function_of self.old f) (function_of self.old g) (function_of self.old h)) result }
    {
        let _known = &self.pool;
        let (high, low) = match form_of(f, g, h) {
            Form::Known(r) => return Ok(r),
            Form::Asks(high, low) => (high, low),
        };
        if let Some(r) = self.recalled(f, high, low) {
            return Ok(r);
        }
        let r = match self.part(f, high, low) {
            Ok(r) => r,
            Err(_spent) => return Err(Spent { nodes: self.budget }),
        };
        Ok(r)
    }

    /// `ite` part by part, where `f` is no constant. It is a call of its own, so that what is known at once costs little.
    #[cycle(choose)]
    #[inline(never)]
    fn part(&mut self, f: H, g: H, h: H) -> Result<H, Spent>
        requires { (2 ≤ f.0) × IsLive self.old f × IsLive self.old g × IsLive self.old h }
        ensures { Makes self.old self.new (choice (function_of self.old f) (function_of self.old g) (function_of self.old h)) result }
    {
        let _known = &self.pool;
        let var = self.least_top(f, g, h);
        let (f0, f1) = self.branches(f, var);
        let (g0, g1) = self.branches(g, var);
        let (h0, h1) = self.branches(h, var);
        let lo = match self.choose(f0, g0, h0) {
            Ok(lo) => lo,
            Err(spent) => return Err(spent),
        };
        let hi = match self.choose(f1, g1, h1) {
            Ok(hi) => hi,
            Err(spent) => return Err(spent),
        };
        let r = match self.join(var, lo, hi) {
            Ok(r) => r,
            Err(spent) => return Err(spent),
        };
        self.remember(f, g, h, r);
        Ok(r)
    }

    /// The function that is `g` where `f` is 1 and `h` where `f` is 0, of live handles.
    pub fn ite(&mut self, f: H, g: H, h: H) -> Result<H, Spent>
        requires { IsLive self.old f × IsLive self.old g × IsLive self.old h }
        ensures makes { Makes self.old self.new (choice (function_of self.old f) (function_of self.old g) (function_of self.old h)) result }
        ensures exact { IsExact self.old self.new (choice (function_of self.old f) (function_of self.old g) (function_of self.old h)) result }
    {
        self.sound();
        let (test, high, low) = in_order(f, g, h);
        self.choose(test, high, low)
    }

    /// An answer of `fix` that the memo has.
    fn known_fixed(&self, f: H, var: u32, value: bool) -> Option<H>
        requires { (2 ≤ f.0) × IsLive self.now f }
        ensures { IfSome result (λ r. Means self.now r (fixed (function_of self.now f) var value)) }
    {
        let _known = &self.pool;
        let Some(r) = self.memo.recall(f.0, var, mark_of(value)) else {
            return None;
        };
        Some(H(r))
    }

    /// Keeps an answer of `fix`.
    fn remember_fixed(&mut self, f: H, var: u32, value: bool, r: H)
        requires live { IsLive self.old f }
        requires is { Means self.old r (fixed (function_of self.old f) var value) }
        ensures { self.new ≡ self.old }
    {
        let count = self.pool.node_count();
        let entry = Entry {
            f: f.0,
            g: var,
            h: mark_of(value),
            r: r.0,
        };
        self.memo.keep(entry, count);
    }

    /// `restrict`, part by part. It goes as deep as there are variables.
    fn fix(&mut self, f: H, var: u32, value: bool) -> Result<H, Spent>
        requires { IsLive self.old f }
        ensures { Makes self.old self.new (fixed (function_of self.old f) var value) result }
    {
        self.sound();
        let Some(n) = self.node(f) else {
            return Ok(f);
        };
        if n.var > var {
            return Ok(f);
        }
        if n.var == var {
            if value {
                return Ok(H(n.hi));
            }
            return Ok(H(n.lo));
        }
        if let Some(r) = self.known_fixed(f, var, value) {
            return Ok(r);
        }
        let lo = match self.fix(H(n.lo), var, value) {
            Ok(lo) => lo,
            Err(spent) => return Err(spent),
        };
        let hi = match self.fix(H(n.hi), var, value) {
            Ok(hi) => hi,
            Err(spent) => return Err(spent),
        };
        let r = match self.join(n.var, lo, hi) {
            Ok(r) => r,
            Err(spent) => return Err(spent),
        };
        self.remember_fixed(f, var, value, r);
        Ok(r)
    }

    /// The function `f` with a variable fixed at a value. It takes steps in the number of nodes of the diagram of `f`,
    /// as long as the memo keeps their answers.
    pub fn restrict(&mut self, f: H, var: Var, value: bool) -> Result<H, Spent>
        requires { IsLive self.old f }
        ensures makes { Makes self.old self.new (fixed (function_of self.old f) var.0 value) result }
        ensures exact { IsExact self.old self.new (fixed (function_of self.old f) var.0 value) result }
    {
        self.sound();
        self.fix(f, var.0, value)
    }

    /// How many nodes and words there are, for [`Store::leave`].
    pub fn mark(&self) -> Mark
        ensures nodes { result.nodes ≡ length self.now.nodes }
        ensures words { result.words ≡ length self.now.words }
    {
        self.pool.mark()
    }

    /// Cuts nodes and words back to a mark that is not above them, nor below the one at opening. A handle of a constant
    /// or of a node below the mark keeps its function. The memo is empty afterwards. It takes steps in the number of
    /// nodes that go.
    pub fn leave(&mut self, mark: Mark)
        requires opening { (2 ≤ mark.nodes) × (self.old.own ≤ mark.words) }
        requires below { (mark.nodes ≤ length self.old.nodes) × (mark.words ≤ length self.old.words) }
        ensures left { self.new ≡ record self.old { nodes = take mark.nodes self.old.nodes; words = take mark.words self.old.words } }
        ensures sound { IsReduced self.new.vars self.new.nodes }
        ensures kept { (i : ℕ) → i < mark.nodes → IsSame (meaning self.new.nodes i) (meaning self.old.nodes i) }
    {
        self.pool.leave(mark);
        self.memo.forget();
    }

    /// How many words can still be taken.
    pub fn words_left(&self) -> u32
        ensures { result ≡ self.now.word_room - length self.now.words }
    {
        self.pool.words_left()
    }

    /// A span of zeros, apart from every span that is live. None exactly where fewer words are left; then nothing
    /// changed.
    pub fn take_span(&mut self, len: u32) -> Option<Span>
        ensures taken { IfSome result (λ span. (span ≡ record { start = length self.old.words; len = len }) × (self.new ≡ record self.old { words = self.old.words ++ replicate len 0 })) }
        ensures live { IfSome result (IsSpan self.new) }
        ensures full { IsNone result ↔ (self.old.word_room < length self.old.words + len) }
        ensures kept { IsNone result → self.new ≡ self.old }
    {
        self.pool.take_span(len)
    }

    /// The word at a place below the length of a live span.
    pub fn read(&self, span: Span, at: u32) -> u32
        requires live { IsSpan self.now span }
        requires within { at < span.len }
        ensures { result ≡ slice_index self.now.words (span.start + at) }
    {
        self.pool.read(span, at)
    }

    /// Sets the word at a place below the length of a live span. No other word changes.
    pub fn write(&mut self, span: Span, at: u32, word: u32)
        requires live { IsSpan self.old span }
        requires within { at < span.len }
        ensures { self.new ≡ record self.old { words = slice_set self.old.words (span.start + at) word } }
    {
        self.pool.write(span, at, word);
    }
}
