//! The bits of nets with given values, as functions of the variables.

ghost use Rattle.std.specs.Prelude.{◌≡◌, ◌≢◌, ℕ, ◌<◌, ◌≤◌, cond, length, IfOk};
ghost use Rattle.bdd_core.specs.Diagram.{Valuation};
ghost use Rattle.bdd_core.specs.Store.{AddsNodes, IsLive, IsSpan, Means, function_of};
ghost use Rattle.bdd_core.specs.Words.{IsFilled, Writes, shows, word_at};
ghost use Rattle.bdd_ops.specs.Counting.{Counts};
ghost use Rattle.phase_open.specs.Given.{AreGiven, input_count, root_by};
ghost use Rattle.vrt_model.specs.Reading.{clock_bit};
ghost use Rattle.vrt_model.specs.Variables.{is_input};
ghost use Rattle.vrt_model.specs.declared.circuit.NetKind.TheVariants.{Input};

use bdd_core::{H, ONE, Spent, Store, ZERO};
use node_pool::Span;
use vrt_model::{Circuit, ClockRef, NetKind, Phase, Var};

/// The bit of a carried clock in a phase.
pub(crate) fn bit_of_clock(phase: &Phase, clock: ClockRef) -> bool
    ensures { result ≡ clock_bit phase.now clock }
{
    let bit = match phase.bits.get(clock.clock as usize) {
        Some(bit) => *bit,
        None => false,
    };
    if clock.inverted { !bit } else { bit }
}

/// The constant of a bit.
pub(crate) fn constant(bit: bool) -> H
    ensures { result.0 ≡ cond bit 1 0 }
{
    if bit { ONE } else { ZERO }
}

/// One for an input net, and none for another.
fn count_of(kind: NetKind) -> u32
    ensures { result ≡ cond (is_input kind) 1 0 }
{
    match kind {
        NetKind::Supply(_) => 0,
        NetKind::Clock(_) => 0,
        NetKind::Input => 1,
        NetKind::Plain => 0,
    }
}

/// The bit of a net as a function: that of an input net is a variable, and a plain net keeps what it had.
fn root_of(
    store: &mut Store,
    phase: &Phase,
    kind: NetKind,
    variable: u32,
    had: H,
) -> Result<H, Spent>
    requires variable { kind ≡ Input → variable < store.old.vars }
    requires had { IsLive store.old had }
    ensures adds { AddsNodes store.old store.new }
    ensures is { IfOk result (λ h. Means store.new h (root_by phase.now kind variable (function_of store.old had))) }
    ensures counts { (u : ℕ) → (kind ≡ Input → variable < u) → Counts u 1 store.old store.new result }
{
    store.sound();
    match kind {
        NetKind::Supply(value) => Ok(constant(value)),
        NetKind::Clock(clock) => Ok(constant(bit_of_clock(phase, clock))),
        NetKind::Input => store.bit(Var(variable)),
        NetKind::Plain => Ok(had),
    }
}

/// Writes the bit of a net.
fn open_root(
    store: &mut Store,
    phase: &Phase,
    kind: NetKind,
    variable: u32,
    roots: Span,
    at: u32,
) -> Result<(), Spent>
    requires variable { kind ≡ Input → variable < store.old.vars }
    requires roots { IsSpan store.old roots × IsFilled store.old roots }
    requires at { at < roots.len }
    ensures writes { Writes roots store.old store.new }
    ensures apart { (k : ℕ) → k ≢ at → word_at store.new roots k ≡ word_at store.old roots k }
    ensures is { IfOk result (λ _. (v : Valuation) → shows store.new roots at v ≡ root_by phase.now kind variable (λ w. shows store.old roots at w) v) }
    ensures counts { (u : ℕ) → (kind ≡ Input → variable < u) → Counts u 1 store.old store.new result }
{
    store.sound();
    let had = store.read(roots, at);
    let root = match root_of(store, phase, kind, variable, H(had)) {
        Ok(root) => root,
        Err(spent) => return Err(spent),
    };
    store.write(roots, at, root.0);
    Ok(())
}

/// Writes the bits of the nets with given values over what stands there: constants for supplies and clock ports, and a
/// variable for each input net, in the order of the nets. Answers how many input nets there are.
pub(crate) fn open_given(
    store: &mut Store,
    circuit: &Circuit,
    phase: &Phase,
    roots: Span,
) -> Result<u32, Spent>
    requires vars { input_count circuit.now ≤ store.old.vars }
    requires roots { IsSpan store.old roots × IsFilled store.old roots }
    requires len { length circuit.now.nets ≤ roots.len }
    ensures writes { Writes roots store.old store.new }
    ensures given { IfOk result (λ _. AreGiven circuit.now phase.now roots store.old store.new) }
    ensures count { IfOk result (λ count. count ≡ input_count circuit.now) }
    ensures counts { (u : ℕ) → input_count circuit.now ≤ u → Counts u (length circuit.now.nets) store.old store.new result }
{
    store.sound();
    let _vars = store.vars();
    let mut variable = 0;
    let nets = circuit.nets.as_slice();
    for n in 0..nets.len() {
        let kind = nets[n].kind;
        match open_root(store, phase, kind, variable, roots, n as u32) {
            Ok(()) => {}
            Err(spent) => return Err(spent),
        }
        variable += count_of(kind);
    }
    Ok(variable)
}
