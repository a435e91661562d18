//! What stands in the store of a phase when it is opened.

ghost use Rattle.std.specs.Prelude.{◌≡◌, ◌+◌, ◌*◌, ◌<◌, ◌≤◌, length, IfOk};
ghost use Rattle.bdd_core.specs.Diagram.{TestsWithin};
ghost use Rattle.bdd_core.specs.Words.{IsFilled, WritesTwo};
ghost use Rattle.bdd_ops.specs.Counting.{Counts};
ghost use Rattle.constraints.specs.Cared.{HasInputs};
ghost use Rattle.phase_open.specs.Given.{WritesOpened, input_count};
ghost use Rattle.phase_terms.specs.Opened.{AreRootsOpen, IsModelOpen, IsOpen, opened_operations};
ghost use Rattle.phase_terms.specs.Ready.{IsReady, comparison_in};
ghost use Rattle.phase_terms.specs.Stores.{HasPhaseWords, counts_of};
ghost use Rattle.vrt_model.specs.Held.{sources_of};

use crate::elements::open_elements;
use crate::inputs::{open_inputs, phase_of};
use crate::roots::open_given;
use bdd_core::{H, Spent, Store};
use constraints::care;
use hold_keep::held_roots;
use node_pool::Span;
use phase_terms::{Comparison, PhaseWords};
use vrt_model::{Circuit, Vars};

/// The words of the nets among those of the roots.
fn net_roots(circuit: &Circuit, roots: Span) -> Span
    requires { length circuit.now.nets ≤ roots.len }
    ensures { result ≡ record { start = roots.start; len = length circuit.now.nets } }
{
    Span {
        start: roots.start,
        len: circuit.nets.len() as u32,
    }
}

/// Writes the held values of holds, and over them the bits of nets with given values. Answers how many input nets there are.
fn open_roots(
    store: &mut Store,
    compared: Comparison<'_>,
    phase: u32,
    vars: &Vars,
    words: PhaseWords,
) -> Result<u32, Spent>
    requires ready { IsReady (comparison_in compared) }
    requires phase { phase < length compared.rules.now.phases }
    requires vars { vars.now.sources ≡ sources_of (comparison_in compared) phase }
    requires few { length (sources_of (comparison_in compared) phase) ≤ store.old.vars }
    requires words { HasPhaseWords (counts_of (comparison_in compared) store.old.vars) words store.old }
    requires roots { IsFilled store.old words.roots }
    ensures writes { WritesTwo words.roots words.roots store.old store.new }
    ensures roots { IfOk result (λ _. AreRootsOpen (comparison_in compared.entry) phase words.roots store.new) }
    ensures inputs { IfOk result (λ _. HasInputs compared.entry.circuit.now vars.now.sources store.new words.roots) }
    ensures count { IfOk result (λ count. count ≡ input_count compared.entry.circuit.now) }
    ensures counts { Counts (length (sources_of (comparison_in compared.entry) phase)) (2 * length compared.entry.circuit.now.holds + length compared.entry.circuit.now.nets) store.old store.new result }
{
    store.sound();
    match held_roots(
        store,
        compared.circuit,
        compared.groups,
        vars,
        phase,
        net_roots(compared.circuit, words.roots),
    ) {
        Ok(()) => {}
        Err(spent) => return Err(spent),
    }
    open_given(
        store,
        compared.circuit,
        phase_of(compared.rules, phase),
        words.roots,
    )
}

/// Writes the old bits of the model's elements, of which the first has this variable, and then the bits of the model's inputs.
fn open_model(
    store: &mut Store,
    compared: Comparison<'_>,
    phase: u32,
    first: u32,
    words: PhaseWords,
) -> Result<(), Spent>
    requires ready { IsReady (comparison_in compared) }
    requires phase { phase < length compared.rules.now.phases }
    requires few { length (sources_of (comparison_in compared) phase) ≤ store.old.vars }
    requires words { HasPhaseWords (counts_of (comparison_in compared) store.old.vars) words store.old }
    requires first { first ≡ input_count compared.circuit.now }
    requires roots { AreRootsOpen (comparison_in compared) phase words.roots store.old }
    requires inputs { IsFilled store.old words.inputs }
    requires held { IsFilled store.old words.held }
    ensures writes { WritesTwo words.inputs words.held store.old store.new }
    ensures model { IfOk result (λ _. IsModelOpen (comparison_in compared.entry) phase words.inputs words.held store.new) }
    ensures counts { Counts (length (sources_of (comparison_in compared.entry) phase)) words.held.len store.old store.new result }
{
    store.sound();
    match open_elements(store, first, words.held) {
        Ok(()) => {}
        Err(spent) => return Err(spent),
    }
    open_inputs(store, compared, phase, words.roots, words.inputs);
    Ok(())
}

/// Opens a phase in a store whose words for it are 0, and whose nodes test the variables of the phase: writes the held values of holds,
/// over them the bits of supplies, clock ports and inputs, and then the bits of the model's inputs and the old bits of its elements, all
/// as functions of the variables. Answers the care set, the valuations that meet the constraints of the phase.
///
/// Nodes are added, and no words but those of roots, inputs and held bits change, also after `Spent`.
pub fn open_phase(
    store: &mut Store,
    compared: Comparison<'_>,
    phase: u32,
    vars: &Vars,
    words: PhaseWords,
) -> Result<H, Spent>
    requires ready { IsReady (comparison_in compared) }
    requires phase { phase < length compared.rules.now.phases }
    requires vars { vars.now.sources ≡ sources_of (comparison_in compared) phase }
    requires words { HasPhaseWords (counts_of (comparison_in compared) store.old.vars) words store.old }
    requires variables { length (sources_of (comparison_in compared) phase) ≤ store.old.vars }
    requires tests { TestsWithin (length (sources_of (comparison_in compared) phase)) store.old.nodes }
    requires roots { IsFilled store.old words.roots }
    requires inputs { IsFilled store.old words.inputs }
    requires held { IsFilled store.old words.held }
    ensures open { IfOk result (λ care. IsOpen (comparison_in compared.entry) phase care words store.new) }
    ensures writes { WritesOpened words store.old store.new }
    ensures counts { Counts (length (sources_of (comparison_in compared.entry) phase)) (opened_operations (comparison_in compared.entry) phase) store.old store.new result }
{
    store.sound();
    let first = match open_roots(store, compared, phase, vars, words) {
        Ok(first) => first,
        Err(spent) => return Err(spent),
    };
    let care = match care(
        store,
        compared.design,
        compared.rules,
        compared.cell,
        compared.circuit,
        compared.groups,
        vars,
        phase,
        net_roots(compared.circuit, words.roots),
    ) {
        Ok(care) => care,
        Err(spent) => return Err(spent),
    };
    match open_model(store, compared, phase, first, words) {
        Ok(()) => Ok(care),
        Err(spent) => Err(spent),
    }
}
