//! The inputs of the model: the bits of clocks, and the roots of the nets of input ports.

ghost use Rattle.std.specs.Prelude.{◌≡◌, ◌≢◌, ℕ, ◌+◌, ◌<◌, ◌≤◌, cond, false, length, Some, unwrap_or};
ghost use Rattle.bdd_core.specs.Store.{IsSpan};
ghost use Rattle.bdd_core.specs.Words.{IsApart, IsFilled, Writes, word_at};
ghost use Rattle.phase_open.specs.Given.{AreTiesWithin, HasModelInputs, HasOneNet, IsTie};
ghost use Rattle.phase_ports.specs.Ports.{net_by, next_by, ports_by, supply_bit};
ghost use Rattle.phase_ports.specs.declared.port_list.Port.{Port as PortValue};
ghost use Rattle.phase_terms.specs.Opened.{AreRootsOpen};
ghost use Rattle.phase_terms.specs.Ready.{IsReady, comparison_in};
ghost use Rattle.vrt_model.specs.Comparison.{default_clock_bit, input_signal, phase_at};
ghost use Rattle.vrt_model.specs.Lists.{Among};
ghost use Rattle.vrt_model.specs.Reading.{clock_bit};
ghost use Rattle.vrt_model.specs.declared.pairing.ClockedSignal.{ClockedSignal as ClockedValue};

use crate::roots::{bit_of_clock, constant};
use bdd_core::Store;
use node_pool::Span;
use phase_ports::input_signal;
use phase_terms::Comparison;
use vrt_model::{ClockedSignal, Phase, PortRole, Rules};

/// A phase by its number.
pub(crate) fn phase_of(rules: &Rules, phase: u32) -> &Phase
    requires { phase < length rules.now.phases }
    ensures { result.now ≡ phase_at rules.entry.now phase }
{
    &rules.phases.as_slice()[phase as usize]
}

/// Writes the bit of the clock that a signal carries, as a constant.
fn open_clock(store: &mut Store, phase: &Phase, one: ClockedSignal, inputs: Span)
    requires inputs { IsSpan store.old inputs × IsFilled store.old inputs }
    requires within { one.signal < inputs.len }
    ensures writes { Writes inputs store.old store.new }
    ensures rest { store.new ≡ record store.old { words = store.new.words } }
    ensures opened { word_at store.new inputs one.signal ≡ cond (clock_bit phase.now one.clock) 1 0 }
    ensures others { (s : ℕ) → s ≢ one.signal → word_at store.new inputs s ≡ word_at store.old inputs s }
{
    store.sound();
    let bit = constant(bit_of_clock(phase, one.clock));
    store.write(inputs, one.signal, bit.0);
}

/// Writes the bits of the clocks that signals carry.
fn open_clocks(store: &mut Store, phase: &Phase, clocked: &[ClockedSignal], inputs: Span)
    requires inputs { IsSpan store.old inputs × IsFilled store.old inputs }
    requires within { (c : ClockedValue) → Among clocked.now c → c.signal < inputs.len }
    requires one { (c d : ClockedValue) → Among clocked.now c → Among clocked.now d → c.signal ≡ d.signal → c.clock ≡ d.clock }
    ensures writes { Writes inputs store.old store.new }
    ensures rest { store.new ≡ record store.old { words = store.new.words } }
    ensures opened { (c : ClockedValue) → Among clocked.now c → word_at store.new inputs c.signal ≡ cond (clock_bit phase.now c.clock) 1 0 }
{
    store.sound();
    for one in clocked {
        open_clock(store, phase, *one, inputs);
    }
}

/// The net of a port, where the next port that is no supply has this number.
fn net_of(role: PortRole, next: u32) -> u32
    ensures { result ≡ net_by (supply_bit role) next }
{
    match role {
        PortRole::Supply(value) => u32::from(value),
        PortRole::Clock(_) => next,
        PortRole::Input(_) => next,
        PortRole::Output(_) => next,
    }
}

/// The number for the ports behind one.
fn next_of(role: PortRole, next: u32) -> u32
    requires { net_by (supply_bit role) next < 4294967295 }
    ensures { result ≡ next_by (supply_bit role) next }
{
    match role {
        PortRole::Supply(_) => next,
        PortRole::Clock(_) => next + 1,
        PortRole::Input(_) => next + 1,
        PortRole::Output(_) => next + 1,
    }
}

/// Writes the root of a port's net as the bit of its signal, if it is an input port.
fn open_tie(store: &mut Store, role: PortRole, net: u32, roots: Span, inputs: Span)
    requires roots { IsSpan store.old roots × IsFilled store.old roots }
    requires inputs { IsSpan store.old inputs × IsFilled store.old inputs }
    requires within { (s : ℕ) → input_signal role ≡ Some s → (net < roots.len) × (s < inputs.len) }
    ensures writes { Writes inputs store.old store.new }
    ensures rest { store.new ≡ record store.old { words = store.new.words } }
    ensures tied { (s : ℕ) → input_signal role ≡ Some s → word_at store.new inputs s ≡ word_at store.old roots net }
    ensures others { (s : ℕ) → input_signal role ≢ Some s → word_at store.new inputs s ≡ word_at store.old inputs s }
{
    store.sound();
    if let Some(signal) = input_signal(role) {
        let root = store.read(roots, net);
        store.write(inputs, signal, root);
    }
}

/// Writes the roots of the nets of the input ports as the bits of their signals, where the ports have these roles.
fn open_ties(store: &mut Store, roles: &[PortRole], roots: Span, inputs: Span)
    requires roots { IsSpan store.old roots × IsFilled store.old roots }
    requires inputs { IsSpan store.old inputs × IsFilled store.old inputs }
    requires apart { IsApart roots inputs }
    requires nets { (p : PortValue) → Among (ports_by 0 2 roles.now) p → p.net < roots.len }
    requires within { AreTiesWithin (ports_by 0 2 roles.now) roots.len inputs.len }
    requires one { HasOneNet (ports_by 0 2 roles.now) }
    ensures writes { Writes inputs store.old store.new }
    ensures rest { store.new ≡ record store.old { words = store.new.words } }
    ensures tied { (p : PortValue) (s : ℕ) → IsTie (ports_by 0 2 roles.now) p s → word_at store.new inputs s ≡ word_at store.old roots p.net }
    ensures others { (s : ℕ) → ((p : PortValue) → ¬ IsTie (ports_by 0 2 roles.now) p s) → word_at store.new inputs s ≡ word_at store.old inputs s }
{
    store.sound();
    let mut next = 2;
    let mut left = roles;
    'roles: while let Some((role, behind)) = left.split_first() {
        open_tie(store, *role, net_of(*role, next), roots, inputs);
        next = next_of(*role, next);
        left = behind;
    }
}

/// The bit of the default clock in a phase, and 0 where there is none.
fn default_bit(rules: &Rules, phase: &Phase) -> bool
    ensures { result ≡ unwrap_or (default_clock_bit rules.now phase.now) false }
{
    let Some(rule) = rules.defaultclocks.get(0) else {
        return false;
    };
    match phase.bits.get(rule.clock as usize) {
        Some(bit) => *bit,
        None => false,
    }
}

/// Writes a constant into a word.
fn open_bit(store: &mut Store, bit: bool, inputs: Span, at: u32)
    requires inputs { IsSpan store.old inputs × IsFilled store.old inputs }
    requires within { at < inputs.len }
    ensures writes { Writes inputs store.old store.new }
    ensures rest { store.new ≡ record store.old { words = store.new.words } }
    ensures opened { word_at store.new inputs at ≡ cond bit 1 0 }
    ensures others { (s : ℕ) → s ≢ at → word_at store.new inputs s ≡ word_at store.old inputs s }
{
    store.sound();
    store.write(inputs, at, constant(bit).0);
}

/// Writes the bits of the model's inputs and clocks, as functions: constants for those that carry clocks, the roots of their nets
/// for the others, and behind the signals the bit of the default clock. No node is made.
pub(crate) fn open_inputs(
    store: &mut Store,
    compared: Comparison<'_>,
    phase: u32,
    roots: Span,
    inputs: Span,
)
    requires ready { IsReady (comparison_in compared) }
    requires phase { phase < length compared.rules.now.phases }
    requires roots { IsSpan store.old roots × (length compared.circuit.now.nets ≤ roots.len) }
    requires bits { AreRootsOpen (comparison_in compared) phase roots store.old }
    requires inputs { IsSpan store.old inputs × IsFilled store.old inputs × (inputs.len ≡ length compared.model.now.signals + 1) × IsApart roots inputs }
    ensures writes { Writes inputs store.old store.new }
    ensures rest { store.new ≡ record store.old { words = store.new.words } }
    ensures given { HasModelInputs (comparison_in compared.entry) phase inputs store.new }
{
    store.sound();
    let phase = phase_of(compared.rules, phase);
    open_clocks(store, phase, compared.pairing.clocked.as_slice(), inputs);
    open_ties(store, compared.pairing.ports.as_slice(), roots, inputs);
    let bit = default_bit(compared.rules, phase);
    open_bit(store, bit, inputs, inputs.len - 1);
}
