//! The first fault of a circuit in a phase: of the bare circuit, and where that has none, of the kept one.

ghost use Rattle.std.specs.Prelude.{◌≡◌, false, true};
ghost use Rattle.channel_parts.specs.PartLists.{IsPartList};
ghost use Rattle.phase_rows.specs.Observing.{IsSearched};
ghost use Rattle.vrt_model.specs.Comparison.{phase_at};
ghost use Rattle.vrt_model.specs.Hierarchy.{IsOrdered};
ghost use Rattle.vrt_model.specs.Inputs.{AreRules, IsDesign};

use crate::board::{Board, word};
use crate::drawing::number;
use crate::expressions::{diagram, first_cell};
use crate::observed::{is_observing, observed_nets};
use crate::spans::{MOST_NETS, spans_in, word_count};
use crate::stop::Stop;
use crate::texts::Given;
use crate::values::{add_bits, add_net};
use bdd_core::{H, ONE, Store};
use channel_parts::{Parts, parts};
use circuit_faults::{
    CircuitFault, CircuitSpans, KeptFault, PhasedCircuit, circuit_fault, circuit_steps, kept_fault,
};
use known_nets::is_marked;
use node_pool::Span;
use plain_paths::is_flat;
use row_script::{Page, word_and_rest};
use std::alloc::Global;
use vrt_model::{Circuit, FaultKind, Phase};

/// The most ports of a cell, each a variable.
const MOST_PORTS: usize = 8;

/// Where the faults of a circuit are looked for.
#[derive(Clone, Copy)]
struct Search<'a> {
    /// The netlist, the rules and the circuit.
    given: Given<'a>,
    /// The phase.
    phase: &'a Phase,
    /// Its number.
    number: u32,
    /// Whether each net is observed.
    observed: &'a [bool],
    /// At which valuations there is care.
    care: H,
    /// The words of all handles: those of the roots come first, and then those of the gates.
    words: Span,
}

/// A store with the bits of the given nets of a circuit and of its holds in a phase; and a span in it, behind the words of the
/// nets, with the variable of each of so many ports.
fn board_of(
    alloc: Global,
    circuit: &Circuit,
    phase: &Phase,
    ports: usize,
) -> Result<(Board, Span), Stop> {
    let nets = circuit.nets.len();
    if nets > MOST_NETS || ports > MOST_PORTS {
        return Err(Stop::Unfit);
    }
    let words = word_count(circuit);
    let mut board = Board::open(alloc, words as usize + ports, ports)?;
    let variables = Span {
        start: board.values.start.saturating_add(words),
        len: ports as u32,
    };
    board.put_given(circuit, phase)?;
    board.put_holds(circuit)?;
    board.put_all(variables)?;
    Ok((board, variables))
}

/// Tells a fault of the bare circuit: its kind, its net or the number of its instance, and where it stands.
fn tell_bare(
    page: &mut Page,
    store: &Store,
    circuit: &Circuit,
    fault: CircuitFault,
) -> Result<(), Stop> {
    page.debug(&fault.kind);
    page.word(" ");
    if fault.kind != FaultKind::Constraint {
        return add_net(page, store, circuit, fault.place, ONE, fault.at);
    }
    page.word("instance");
    page.behind_blank(fault.place);
    page.word(" ");
    add_bits(page, store, ONE, fault.at)
}

/// Tells a fault of the kept circuit, and of an unsettled net also which bit it has there.
fn tell_kept(
    page: &mut Page,
    store: &Store,
    circuit: &Circuit,
    fault: KeptFault,
) -> Result<(), Stop> {
    page.debug(&fault.kind);
    page.word(" ");
    add_net(page, store, circuit, fault.net.0, ONE, fault.at)?;
    if fault.kind != FaultKind::Unsettled {
        return Ok(());
    }
    page.word(", kept ");
    add_bits(page, store, fault.at, fault.value)
}

/// Tells that there is no fault, and the bits of the observed nets where there is care.
fn tell_clear(page: &mut Page, store: &Store, search: Search<'_>) -> Result<(), Stop> {
    page.word("none");
    let circuit = search.given.circuit;
    let nets = circuit.nets.len().min(MOST_NETS) as u32;
    for net in 0..nets {
        if is_marked(search.observed, net as usize) {
            let bit = word(store, search.words, nets + net);
            page.word(", ");
            add_net(page, store, circuit, net, search.care, bit)?;
        }
    }
    Ok(())
}

/// Tells the first fault of the kept circuit, where the bare one has none.
#[tactic(auto, using(known_nets::proofs::WiredLaws::flat_wired))]
fn look_at_kept(page: &mut Page, store: &mut Store, search: Search<'_>) -> Result<(), Stop>
    requires { IsSearched search.given.design.now search.given.rules.now search.given.circuit.now search.phase.now search.number search.observed.now }
{
    let (circuit, observed, care) = (search.given.circuit, search.observed, search.care);
    let Ok(parts) = parts(page.alloc(), circuit, search.phase, false) else {
        return Err(Stop::Unfit);
    };
    let spans = spans_in(store, circuit, &parts, search.words)?;
    if care.0 >= store.node_count() {
        return Err(Stop::Unfit);
    }
    let found = kept_fault(store, circuit, &parts, observed, care, spans)?;
    match found {
        Some(fault) => tell_kept(page, store, circuit, fault),
        None => tell_clear(page, store, search),
    }
}

/// The first fault of the bare circuit, whose parts are these.
#[tactic(auto, using(vrt_model::proofs::Networks::flat_ranges))]
fn bare_found(
    alloc: Global,
    store: &mut Store,
    search: Search<'_>,
    parts: &Parts,
) -> Result<Option<CircuitFault>, Stop>
    requires searched { IsSearched search.given.design.now search.given.rules.now search.given.circuit.now search.phase.now search.number search.observed.now }
    requires parts { IsPartList search.given.circuit.now search.phase.now true parts.now }
{
    let spans = spans_in(store, search.given.circuit, parts, search.words)?;
    if search.care.0 >= store.node_count() {
        return Err(Stop::Unfit);
    }
    let (design, rules, circuit) = (
        search.given.design,
        search.given.rules,
        search.given.circuit,
    );
    let list = circuit_steps(alloc, design, rules, circuit, search.number, parts)?;
    let steps = list.as_slice();
    let phased = PhasedCircuit {
        design,
        rules,
        circuit,
        phase: search.number,
        parts,
        steps,
        observed: search.observed,
    };
    let spans = CircuitSpans {
        roots: spans.roots,
        gates: spans.gates,
        out: spans.out,
    };
    Ok(circuit_fault(store, phased, search.care, spans)?)
}

/// Tells the first fault of the bare circuit, and where it has none, that of the kept one.
#[tactic(auto, using(known_nets::proofs::WiredLaws::flat_wired))]
fn look(page: &mut Page, store: &mut Store, search: Search<'_>) -> Result<(), Stop>
    requires { IsSearched search.given.design.now search.given.rules.now search.given.circuit.now search.phase.now search.number search.observed.now }
{
    let circuit = search.given.circuit;
    let Ok(parts) = parts(page.alloc(), circuit, search.phase, true) else {
        return Err(Stop::Unfit);
    };
    let found = bare_found(page.alloc(), store, search, &parts)?;
    match found {
        Some(fault) => tell_bare(page, store, circuit, fault),
        None => look_at_kept(page, store, search),
    }
}

/// Looks for the first fault where the `assume` line of a number holds and these nets are observed.
fn search_with(
    page: &mut Page,
    given: Given<'_>,
    phase: &Phase,
    number: u32,
    line: u32,
    observed: &[bool],
) -> Result<(), Stop>
    requires netlist { IsDesign given.design.now }
    requires ruled { AreRules given.rules.now }
    requires ordered { IsOrdered given.design.now given.rules.now }
    requires phase { phase.now ≡ phase_at given.rules.now number }
{
    let (circuit, cell) = (given.circuit, first_cell(given.design)?);
    if !is_flat(circuit) || !is_observing(given.design, circuit, observed) {
        return Err(Stop::Unfit);
    }
    let (mut board, variables) = board_of(page.alloc(), circuit, phase, cell.ports.len())?;
    let store = &mut board.store;
    let care = diagram(store, variables, cell, given.rules, line as usize)?;
    let search = Search {
        given,
        phase,
        number,
        observed,
        care,
        words: board.values,
    };
    look(page, &mut board.store, search)
}

/// Tells the first fault, by the number of the phase, that of the `assume` line, and the names of nets.
pub(crate) fn tell(page: &mut Page, given: Given<'_>, rest: &str) -> Result<(), Stop>
    requires netlist { IsDesign given.design.now }
    requires ruled { AreRules given.rules.now }
    requires ordered { IsOrdered given.design.now given.rules.now }
{
    let (word, rest) = word_and_rest(rest);
    let (line, names) = word_and_rest(rest);
    let (at, line) = (number(word)?, number(line)?);
    let Some(phase) = given.rules.phases.get(at as usize) else {
        return Err(Stop::NotRead);
    };
    let observed = observed_nets(page.alloc(), given.circuit, names)?;
    search_with(page, given, phase, at, line, observed.as_slice())
}
