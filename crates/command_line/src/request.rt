//! What the words ask for.

ghost use Rattle.std.specs.Prelude.{◌≡◌, [], MatchOption};
ghost use Rattle.command_line.specs.Requests.{file_names, names_of, options_of};
ghost use Rattle.command_line.specs.Steps.{IsOfNone, shown};

use crate::options::{Choices, Mode};

/// The names of the three files.
#[derive(Clone, Copy)]
pub struct FileWords<'a> {
    /// The file of the netlist, the first of the three words.
    pub spice: &'a str,
    /// The file of the models, the second.
    pub blif: &'a str,
    /// The rules file, the third.
    pub rules: &'a str,
}

/// What the checker is to do, with the options that belong to it.
#[derive(Clone, Copy)]
pub enum Request<'a> {
    /// To check each cell, or one cell and those below it, with this budget of nodes.
    Check {
        cell: Option<&'a str>,
        budget: Option<u32>,
        files: FileWords<'a>,
    },
    /// To show the nets of a cell in a phase at one valuation, a list of names with bits.
    Replay {
        cell: &'a str,
        phase: &'a str,
        at: Option<&'a str>,
        files: FileWords<'a>,
    },
    /// To tell the class of each channel-connected part of each cell, or of one cell and those below it.
    Classes {
        cell: Option<&'a str>,
        files: FileWords<'a>,
    },
    /// To generate a hierarchy of a size from 1 to 32 and check it.
    Generate {
        size: u32,
        budget: Option<u32>,
    },
    /// To say whether the order matters in which some input ports of a cell rise within a phase, by a list of their names.
    Arrive {
        cell: &'a str,
        phase: &'a str,
        rise: &'a str,
        budget: Option<u32>,
        files: FileWords<'a>,
    },
    /// To write a BLIF model of what the transistors of a cell do, with this budget of nodes.
    Blif {
        cell: &'a str,
        budget: Option<u32>,
        files: FileWords<'a>,
    },
}

impl<'a> Request<'a> {
    /// The names of the three files; none where the texts are generated.
    pub fn files(&self) -> Option<FileWords<'a>>
        ensures { MatchOption result (file_names self.now ≡ []) (λ files. file_names self.now ≡ names_of files) }
    {
        match self {
            Request::Check { files, .. }
            | Request::Replay { files, .. }
            | Request::Classes { files, .. }
            | Request::Arrive { files, .. }
            | Request::Blif { files, .. } => Some(*files),
            Request::Generate { .. } => None,
        }
    }
}

/// What a command line that is understood asks for.
#[derive(Clone, Copy)]
pub enum Asked<'a> {
    /// The use of the words and the meaning of each status.
    Help,
    /// The version of the program.
    Version,
    /// A run.
    Run(Request<'a>),
}

fn check<'a>(choices: &Choices<'a>) -> Option<Request<'a>>
    requires { choices.now.mode ≡ Mode.Check }
    ensures { MatchOption result (IsOfNone (shown choices.now)) (λ request. options_of request ≡ shown choices.now) }
{
    if choices.phase.is_some()
        || choices.at.is_some()
        || choices.size.is_some()
        || choices.rise.is_some()
    {
        return None;
    }
    Some(Request::Check {
        cell: choices.cell,
        budget: choices.budget,
        files: choices.files?,
    })
}

fn replay<'a>(choices: &Choices<'a>) -> Option<Request<'a>>
    requires { choices.now.mode ≡ Mode.Replay }
    ensures { MatchOption result (IsOfNone (shown choices.now)) (λ request. options_of request ≡ shown choices.now) }
{
    if choices.budget.is_some() || choices.size.is_some() || choices.rise.is_some() {
        return None;
    }
    Some(Request::Replay {
        cell: choices.cell?,
        phase: choices.phase?,
        at: choices.at,
        files: choices.files?,
    })
}

fn classes<'a>(choices: &Choices<'a>) -> Option<Request<'a>>
    requires { choices.now.mode ≡ Mode.Classes }
    ensures { MatchOption result (IsOfNone (shown choices.now)) (λ request. options_of request ≡ shown choices.now) }
{
    if choices.phase.is_some()
        || choices.at.is_some()
        || choices.budget.is_some()
        || choices.size.is_some()
        || choices.rise.is_some()
    {
        return None;
    }
    Some(Request::Classes {
        cell: choices.cell,
        files: choices.files?,
    })
}

fn generate<'a>(choices: &Choices<'a>) -> Option<Request<'a>>
    requires { choices.now.mode ≡ Mode.Generate }
    ensures { MatchOption result (IsOfNone (shown choices.now)) (λ request. options_of request ≡ shown choices.now) }
{
    if choices.cell.is_some()
        || choices.phase.is_some()
        || choices.at.is_some()
        || choices.rise.is_some()
        || choices.files.is_some()
    {
        return None;
    }
    Some(Request::Generate {
        size: choices.size?,
        budget: choices.budget,
    })
}

fn arrive<'a>(choices: &Choices<'a>) -> Option<Request<'a>>
    requires { choices.now.mode ≡ Mode.Arrive }
    ensures { MatchOption result (IsOfNone (shown choices.now)) (λ request. options_of request ≡ shown choices.now) }
{
    if choices.at.is_some() || choices.size.is_some() {
        return None;
    }
    Some(Request::Arrive {
        cell: choices.cell?,
        phase: choices.phase?,
        rise: choices.rise?,
        budget: choices.budget,
        files: choices.files?,
    })
}

fn blif<'a>(choices: &Choices<'a>) -> Option<Request<'a>>
    requires { choices.now.mode ≡ Mode.Blif }
    ensures { MatchOption result (IsOfNone (shown choices.now)) (λ request. options_of request ≡ shown choices.now) }
{
    if choices.phase.is_some()
        || choices.at.is_some()
        || choices.size.is_some()
        || choices.rise.is_some()
    {
        return None;
    }
    Some(Request::Blif {
        cell: choices.cell?,
        budget: choices.budget,
        files: choices.files?,
    })
}

/// The request with these options, where there is one.
pub fn request_with<'a>(choices: &Choices<'a>) -> Option<Request<'a>>
    ensures { MatchOption result (IsOfNone (shown choices.now)) (λ request. options_of request ≡ shown choices.now) }
{
    match choices.mode {
        Mode::Check => check(choices),
        Mode::Replay => replay(choices),
        Mode::Classes => classes(choices),
        Mode::Generate => generate(choices),
        Mode::Arrive => arrive(choices),
        Mode::Blif => blif(choices),
    }
}
