//! The workspace of a cell, and what its phases are answered.

ghost use Rattle.std.specs.Prelude.{◌<◌, length};
ghost use Rattle.checked_cells.specs.Given.{AreTrueFacts};
ghost use Rattle.whole_cells.specs.Own.{AreFiles};

use crate::row::Row;
use crate::wholes::{Inputs, NoCircuit, check, inputs_of, known};
use cell_compare::{PhaseVerdict, RoomFault, Site, Workspace, with_room};
use row_script::{Page, number, word_and_rest};
use std::alloc::Global;
use vrt_model::{CellFacts, FaultKind, Seq, Why};

/// What is asked of a workspace.
#[derive(Clone, Copy)]
struct Questions<'a> {
    /// The number of the cell.
    cell: u32,
    /// The budget of nodes.
    budget: u32,
    /// Of how many variables the bits of a fault are told.
    bits: u32,
    /// How often each phase is asked for, one time behind the other; the last answer is told.
    times: u32,
    /// The numbers of the phases in the order in which they are asked for, with a space between two.
    phases: &'a str,
}

/// A kind of faults as a word.
fn word_of(kind: FaultKind) -> &'static str {
    match kind {
        FaultKind::Fight => "fight",
        FaultKind::FightKept => "fightkept",
        FaultKind::Float => "float",
        FaultKind::Unsettled => "unsettled",
        FaultKind::Constraint => "constraint",
        FaultKind::Differs => "differs",
        FaultKind::Next => "next",
        FaultKind::Apart => "apart",
        FaultKind::Enter => "enter",
    }
}

/// The digit of a bit.
fn digit(bit: bool) -> &'static str {
    if bit { "1" } else { "0" }
}

/// Tells a bit, or that there is none.
fn tell_bit(page: &mut Page, bit: Option<bool>) {
    match bit {
        Some(bit) => page.word(digit(bit)),
        None => page.word("-"),
    }
}

/// Tells the bits of the first so many variables in the valuation of the last fault.
fn tell_bits(page: &mut Page, workspace: &Workspace<'_>, count: u32) {
    for var in 0..count {
        page.word(digit(workspace.valuation_bit(var)));
    }
}

/// Tells where a fault stands.
fn tell_site(page: &mut Page, site: Site) {
    page.word(word_of(site.kind));
    page.behind_blank(site.at);
    page.word(" circuit ");
    tell_bit(page, site.circuit);
    page.word(" wanted ");
    tell_bit(page, site.wanted);
    page.word(" at ");
}

/// Asks for a phase so often and once more, and gives the last answer.
fn asked(workspace: &mut Workspace<'_>, phase: u32, more: u32) -> PhaseVerdict
    requires { phase < length workspace.old.rules.phases }
{
    for _again in 0..more {
        let _answer = workspace.check_phase(phase);
    }
    workspace.check_phase(phase)
}

/// Asks for a phase, and tells the answer and how many nodes were made.
fn ask(page: &mut Page, workspace: &mut Workspace<'_>, phase: u32, questions: Questions<'_>) {
    page.word("  phase");
    page.behind_blank(phase);
    page.word(": ");
    if phase >= workspace.phase_count() {
        page.word("none\n");
        return;
    }
    match asked(workspace, phase, questions.times.saturating_sub(1)) {
        PhaseVerdict::Clear => page.word("clear"),
        PhaseVerdict::Vacuous => page.word("vacuous"),
        PhaseVerdict::Fault(site) => {
            tell_site(page, site);
            tell_bits(page, workspace, questions.bits);
        }
        PhaseVerdict::Budget { nodes } => {
            page.word("budget");
            page.behind_blank(nodes);
        }
    }
    page.word(", nodes");
    page.behind_blank(workspace.node_count());
    page.word("\n");
}

/// Asks for phases in this order.
fn ask_all(page: &mut Page, workspace: &mut Workspace<'_>, questions: Questions<'_>) {
    for phase in questions.phases.split(' ') {
        ask(page, workspace, number(phase), questions);
    }
}

/// The line of a cell that cannot be checked.
fn unsupported_line(why: &Why) -> &'static str {
    match why {
        Why::NoModel => "  unsupported: no model\n",
        Why::TooManyVars { .. } => "  unsupported: variables\n",
        Why::Cycle { .. } => "  unsupported: cycle\n",
        _ => "  unsupported\n",
    }
}

/// Opens the workspace of a cell and asks for its phases, or tells why there is none.
fn open(
    page: &mut Page,
    alloc: Global,
    inputs: &Inputs,
    facts: &Seq<CellFacts>,
    questions: Questions<'_>,
) -> Result<(), NoCircuit>
    requires files { AreFiles inputs.now.design inputs.now.blif inputs.now.rules }
    requires facts { AreTrueFacts inputs.now.design inputs.now.blif inputs.now.rules facts.now }
    requires there { questions.cell < length inputs.now.design.cells }
{
    if questions.budget < 65_536 {
        return Err(NoCircuit);
    }
    if questions.budget > 64_000_000 {
        return Err(NoCircuit);
    }
    match with_room(
        alloc,
        questions.budget,
        &inputs.design,
        &inputs.blif,
        &inputs.rules,
        questions.cell,
        facts,
    ) {
        Ok(mut workspace) => ask_all(page, &mut workspace, questions),
        Err(RoomFault::Skipped) => page.word("  skipped\n"),
        Err(RoomFault::Unsupported(why)) => page.word(unsupported_line(&why)),
        Err(RoomFault::NoMemory) => return Err(NoCircuit),
    }
    Ok(())
}

/// The answers for the first cell, or for the second by what is known of the first.
fn answers(page: &mut Page, row: Row<'_>, questions: Questions<'_>) -> Result<(), NoCircuit> {
    let alloc = page.alloc();
    let inputs = inputs_of(alloc, row)?;
    check(alloc, &inputs)?;
    if questions.cell as usize >= inputs.design.cells.len() {
        return Err(NoCircuit);
    }
    if questions.cell == 0 {
        return open(page, alloc, &inputs, &Seq::new(alloc), questions);
    }
    let facts = known(alloc, &inputs)?;
    open(page, alloc, &inputs, &facts, questions)
}

/// Tells what the workspace of a cell answers: the line has a name, the number of the cell, the budget, how many bits of a fault are told, how
/// often each phase is asked for, and the phases in their order.
pub(crate) fn tell(page: &mut Page, line: &str, row: Row<'_>) {
    let (name, line) = word_and_rest(line);
    let (cell, line) = word_and_rest(line);
    let (budget, line) = word_and_rest(line);
    let (bits, line) = word_and_rest(line);
    let (times, phases) = word_and_rest(line);
    page.word(name);
    page.word(":\n");
    let questions = Questions {
        cell: number(cell),
        budget: number(budget),
        bits: number(bits),
        times: number(times),
        phases,
    };
    if answers(page, row, questions).is_err() {
        page.word("  no workspace\n");
    }
}
