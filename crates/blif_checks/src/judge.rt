//! The first signal of a model with two drivers or none.

ghost use Rattle.std.specs.Prelude.{◌≡◌, ◌⊎◌, [], Some, cond, find, get_or, map, option_map, IfOk};
ghost use Rattle.std.specs.List.{list_all};
ghost use Rattle.vrt_model.specs.Inputs.{IsBlif, IsModel};
ghost use Rattle.vrt_model.specs.Models.{driver_fault, driver_fault_in, network_of, own_fault};
ghost use Rattle.blif_checks.specs.Drivers.{AreClocks};
ghost use Rattle.blif_checks.specs.Judged.{Judges};
ghost use Rattle.blif_checks.specs.Least.{AreNotesOf, IsLeastLine, MentionsGive, earlier_line, is_bad, of_driver, passes_on};
ghost use Rattle.blif_checks.specs.Mentions.{mentions_in, numbered};
ghost use Rattle.blif_checks.specs.Notes.{is_first_use, is_good, is_line, is_second};
ghost use Rattle.blif_checks.specs.Parts.{earlier_told, is_line_before, part_of};
ghost use Rattle.blif_checks.specs.Shown.{line_of};
ghost use Rattle.blif_checks.specs.Tables.{AreTables};

use crate::ModelFault;
use crate::drivers::drivers_of;
use crate::mentions::{Mention, mentions_of};
use crate::notes::{Note, notes_of};
use crate::part::Part;
use crate::roles::all_clocks;
use crate::signals::beside_of;
use crate::tables::Tables;
use crate::uses::uses_of;
use names::Names;
use std::alloc::Global;
use vrt_model::{Blif, BlifModel, NoMemory, Seq, Text};

/// Whether a line is there and is this one.
fn is_line(line: Option<u32>, at: u32) -> bool
    ensures { result ≡ is_line line at }
{
    match line {
        Some(line) => line == at,
        None => false,
    }
}

/// Whether a mention is the second driver of its signal.
fn is_second(notes: &[Note], mention: Mention) -> bool
    ensures { result ≡ is_second notes.now mention }
{
    match notes.get(mention.signal) {
        Some(note) => is_line(note.second, mention.line),
        None => false,
    }
}

/// Whether a mention is the first use of a signal without a driver.
fn is_first_use(notes: &[Note], mention: Mention) -> bool
    ensures { result ≡ is_first_use notes.now mention }
{
    match notes.get(mention.signal) {
        Some(note) => note.first.is_none() && is_line(note.used, mention.line),
        None => false,
    }
}

/// Whether a mention is one or the other.
fn is_bad(notes: &[Note], mention: Mention) -> bool
    ensures { result ≡ is_bad notes.now mention }
{
    is_second(notes, mention) || is_first_use(notes, mention)
}

/// The earlier of a line and another, if there is one.
fn earlier(least: Option<u32>, line: u32) -> Option<u32>
    ensures { result ≡ earlier_line least line }
{
    match least {
        Some(least) => {
            if least <= line {
                Some(least)
            } else {
                Some(line)
            }
        }
        None => Some(line),
    }
}

/// The least line of those so far and of a mention, if that is bad.
fn with_mention(notes: &[Note], least: Option<u32>, mention: Mention) -> Option<u32>
    ensures { result ≡ cond (is_bad notes.now mention) (earlier_line least mention.line) least }
{
    if is_bad(notes, mention) {
        earlier(least, mention.line)
    } else {
        least
    }
}

/// The least line with a bad mention.
fn least_line(notes: &[Note], mentions: &[Mention]) -> Option<u32>
    ensures { IsLeastLine (is_bad notes.now) mentions.now result }
{
    let mut least = None;
    for mention in mentions {
        least = with_mention(notes, least, *mention);
    }
    least
}

/// The first second driver on a line.
fn second_on(notes: &[Note], mentions: &[Mention], line: u32) -> Option<Mention>
    ensures { result ≡ find (passes_on (is_second notes.now) line) mentions.now }
{
    for mention in mentions {
        if mention.line == line && is_second(notes, *mention) {
            return Some(*mention);
        }
    }
    None
}

/// The first use on a line of a signal without a driver.
fn first_use_on(notes: &[Note], mentions: &[Mention], line: u32) -> Option<Mention>
    ensures { result ≡ find (passes_on (is_first_use notes.now) line) mentions.now }
{
    for mention in mentions {
        if mention.line == line && is_first_use(notes, *mention) {
            return Some(*mention);
        }
    }
    None
}

/// The name of a number, empty where there is none.
fn bytes_at(names: &[Text], number: usize) -> &[u8]
    ensures { result.now ≡ get_or names.now number [] }
{
    if number < names.len() {
        names[number].as_bytes()
    } else {
        &[]
    }
}

/// A copy of the name of a number, empty where there is none.
fn name_at(alloc: Global, names: &Names, number: usize) -> Result<Text, NoMemory>
    ensures { IfOk result (λ name. name ≡ get_or names.now number []) }
{
    let names = names.to_texts(alloc)?;
    let name = Text::from_bytes(alloc, bytes_at(names.as_slice(), number))?;
    Ok(name)
}

/// The fault of a second driver.
fn twice(alloc: Global, names: &Names, line: u32, mention: Mention) -> ModelFault
    ensures { (result ≡ ModelFault.NoMemory) ⊎ (result ≡ ModelFault.DrivenTwice line (get_or names.now mention.signal [])) }
{
    match name_at(alloc, names, mention.signal) {
        Ok(name) => ModelFault::DrivenTwice { line, name },
        Err(_) => ModelFault::NoMemory,
    }
}

/// The fault of a use without a driver.
fn never(alloc: Global, names: &Names, line: u32, mention: Mention) -> ModelFault
    ensures { (result ≡ ModelFault.NoMemory) ⊎ (result ≡ ModelFault.Undriven line (get_or names.now mention.signal [])) }
{
    match name_at(alloc, names, mention.signal) {
        Ok(name) => ModelFault::Undriven { line, name },
        Err(_) => ModelFault::NoMemory,
    }
}

/// Refuses the first bad mention on a line: a second driver, or else a use without a driver.
fn judge_line(
    alloc: Global,
    notes: &[Note],
    names: &Names,
    mentions: &[Mention],
    line: u32,
) -> Result<(), ModelFault>
    requires { IsLeastLine (is_bad notes.now) mentions.now (Some line) }
    ensures { MentionsGive notes.now names.now mentions.now result }
{
    match second_on(notes, mentions, line) {
        Some(mention) => Err(twice(alloc, names, line, mention)),
        None => match first_use_on(notes, mentions, line) {
            Some(mention) => Err(never(alloc, names, line, mention)),
            None => Ok(()),
        },
    }
}

/// Refuses the first bad mention on the least line that has one.
fn judge_mentions(
    alloc: Global,
    notes: &[Note],
    names: &Names,
    mentions: &[Mention],
) -> Result<(), ModelFault>
    ensures { MentionsGive notes.now names.now mentions.now result }
{
    match least_line(notes, mentions) {
        Some(line) => judge_line(alloc, notes, names, mentions, line),
        None => Ok(()),
    }
}

/// Whether a signal has one driver, or is neither driven nor used.
fn is_good(note: Note) -> bool
    ensures { result ≡ is_good note }
{
    note.second.is_none() && (note.first.is_some() || note.used.is_none())
}

/// Whether that is so of all signals.
fn are_good(notes: &[Note]) -> bool
    ensures { result ≡ list_all is_good notes.now }
{
    for note in notes {
        if !is_good(*note) {
            return false;
        }
    }
    true
}

/// The names of a model's signals, and what is noted of them.
pub(crate) struct Noted {
    pub(crate) names: Names,
    pub(crate) notes: Vec<Note>,
}

/// By hand, so that letting go of one is a call.
impl Drop for Noted {
    fn drop(self) {
        let Noted {
            names: _names,
            notes: _notes,
        } = self;
    }
}

/// What is noted of a model or its network.
fn noted_of(
    alloc: Global,
    blif: &Blif,
    tables: &Tables,
    clocks: &[Names],
    part: Part,
    model: &BlifModel,
) -> Result<Noted, NoMemory>
    requires tables { AreTables blif.now tables.now }
    requires clocks { AreClocks blif.now clocks.now }
    requires model { IsModel model.now }
    ensures { IfOk result (λ noted. AreNotesOf blif.now (part_of part model.now) noted.notes.items noted.names) }
{
    let names = beside_of(alloc, part, model)?;
    let drivers = drivers_of(alloc, &names, blif, tables, clocks, part, model)?;
    let uses = uses_of(alloc, &names, blif, tables, clocks, part, model)?;
    let notes = notes_of(alloc, names.len(), drivers.as_slice(), uses.as_slice())?;
    Ok(Noted { names, notes })
}

/// Refuses the first bad mention in a model or its network. No list of mentions is made where no note is bad.
#[tactic(auto, using(crate::proofs::GoodLaws::none_bad))]
fn judge_noted(
    alloc: Global,
    noted: &Noted,
    part: Part,
    model: &BlifModel,
) -> Result<(), ModelFault>
    ensures { MentionsGive noted.now.notes.items noted.now.names (map (numbered noted.now.names) (mentions_in (part_of part model.now))) result }
{
    if are_good(noted.notes.as_slice()) {
        return Ok(());
    }
    let Ok(mentions) = mentions_of(alloc, &noted.names, part, model) else {
        return Err(ModelFault::NoMemory);
    };
    judge_mentions(
        alloc,
        noted.notes.as_slice(),
        &noted.names,
        mentions.as_slice(),
    )
}

/// Refuses the first signal of a model, or of its network, with two drivers or none.
fn judge_part(
    alloc: Global,
    blif: &Blif,
    tables: &Tables,
    clocks: &[Names],
    part: Part,
    model: &BlifModel,
) -> Result<(), ModelFault>
    requires tables { AreTables blif.now tables.now }
    requires clocks { AreClocks blif.now clocks.now }
    requires model { IsModel model.now }
    ensures { Judges result (option_map of_driver (own_fault blif.now (part_of part model.now))) }
{
    let Ok(noted) = noted_of(alloc, blif, tables, clocks, part, model) else {
        return Err(ModelFault::NoMemory);
    };
    judge_noted(alloc, &noted, part, model)
}

/// Refuses the first signal of a model's network with two drivers or none. Where there is no network nothing is asked: the inputs
/// and clocks are driven once each, and nothing uses a signal.
#[tactic(auto, using(crate::proofs::GoodLaws::no_network))]
fn judge_network(
    alloc: Global,
    blif: &Blif,
    tables: &Tables,
    clocks: &[Names],
    model: &BlifModel,
) -> Result<(), ModelFault>
    requires tables { AreTables blif.now tables.now }
    requires clocks { AreClocks blif.now clocks.now }
    requires model { IsModel model.now }
    ensures { Judges result (option_map of_driver (own_fault blif.now (network_of model.now))) }
{
    if model.exdc.is_empty() {
        return Ok(());
    }
    judge_part(alloc, blif, tables, clocks, Part::Network, model)
}

/// Whether a line is less than another; none comes before all.
fn is_line_before(line: Option<u32>, other: Option<u32>) -> bool
    ensures { result ≡ is_line_before line other }
{
    match (line, other) {
        (None, _) => true,
        (Some(_), None) => false,
        (Some(line), Some(other)) => line < other,
    }
}

/// The fault of the lesser line, a first one where both have one line. Want of memory comes before all.
fn earlier_of(fault: ModelFault, judged: Result<(), ModelFault>) -> ModelFault
    ensures { result ≡ earlier_told fault judged }
{
    match judged {
        Ok(()) => fault,
        Err(other) => {
            if is_line_before(other.line(), fault.line()) {
                other
            } else {
                fault
            }
        }
    }
}

/// Refuses the first signal of a model with two drivers or none; the network is a model of its own.
fn judge_model(
    alloc: Global,
    blif: &Blif,
    tables: &Tables,
    clocks: &[Names],
    model: &BlifModel,
) -> Result<(), ModelFault>
    requires tables { AreTables blif.now tables.now }
    requires clocks { AreClocks blif.now clocks.now }
    requires model { IsModel model.now }
    ensures { Judges result (option_map of_driver (driver_fault_in blif.now model.now)) }
{
    let network = judge_network(alloc, blif, tables, clocks, model);
    match judge_part(alloc, blif, tables, clocks, Part::Own, model) {
        Ok(()) => network,
        Err(fault) => Err(earlier_of(fault, network)),
    }
}

/// Refuses the first model that has such a signal.
fn judge_models(
    alloc: Global,
    blif: &Blif,
    tables: &Tables,
    clocks: &[Names],
) -> Result<(), ModelFault>
    requires blif { IsBlif blif.now }
    requires tables { AreTables blif.now tables.now }
    requires clocks { AreClocks blif.now clocks.now }
    ensures { Judges result (option_map of_driver (driver_fault blif.now)) }
{
    for model in blif.models.as_slice() {
        judge_model(alloc, blif, tables, clocks, model)?;
    }
    Ok(())
}

/// Refuses the first model that has a signal with two drivers or one that is used and has none: of its faults the one
/// of the least line, there two drivers before none, and then the first name on the card. It takes time in proportion to
/// the cards.
pub fn check_drivers(alloc: Global, blif: &Blif, tables: &Tables) -> Result<(), ModelFault>
    requires blif { IsBlif blif.now }
    requires tables { AreTables blif.now tables.now }
    ensures { Judges result (option_map of_driver (driver_fault blif.now)) }
{
    let Ok(clocks) = all_clocks(alloc, blif.models.as_slice()) else {
        return Err(ModelFault::NoMemory);
    };
    judge_models(alloc, blif, tables, clocks.as_slice())
}
