//! The words, read by the simple command.

ghost use Rattle.std.specs.Prelude.{◌≡◌, IfOk, MatchOption, Err};
ghost use Rattle.clap.specs.Words.{found_of, rows_of};
ghost use Rattle.command_line.specs.Command.{texts};
ghost use Rattle.command_line.specs.Requests.{Asks, Gives, GivesNone, IsUsage, options_of};
ghost use Rattle.command_line.specs.Steps.{IsRefusal};

use crate::command::parse;
use crate::options::read_options;
use crate::request::{Asked, Request, request_with};
use clap::ArgMatches;
use clap::error::ErrorKind;
use std::alloc::Global;

/// Why the words ask for nothing.
#[derive(Clone, Copy)]
pub enum WordsFault {
    /// They are not understood.
    Usage,
    /// Memory was wanting.
    NoMemory,
}

/// What words that the simple command takes ask for.
fn request_of<'a>(matches: &ArgMatches<'a>) -> Option<Request<'a>>
    ensures { MatchOption result (GivesNone (rows_of (found_of matches.now))) (λ request. Gives (rows_of (found_of matches.now)) (options_of request)) }
{
    match read_options(matches) {
        Ok(choices) => request_with(&choices),
        Err(_) => None,
    }
}

/// What words ask for that the simple command does not take.
fn refusal<'a>(cause: ErrorKind) -> Result<Asked<'a>, WordsFault>
    ensures { IsRefusal cause result }
{
    match cause {
        ErrorKind::OutOfMemory => Err(WordsFault::NoMemory),
        ErrorKind::DisplayHelp => Ok(Asked::Help),
        ErrorKind::DisplayVersion => Ok(Asked::Version),
        _ => Err(WordsFault::Usage),
    }
}

/// Reads the words of a command line, of which the first is the program's name.
pub fn read_words<'a>(alloc: Global, words: &'a [String]) -> Result<Asked<'a>, WordsFault>
    ensures asked { IfOk result (Asks (texts words.entry.now)) }
    ensures usage { result ≡ Err WordsFault.Usage → IsUsage (texts words.entry.now) }
    ensures understood { IfOk result (λ _. IsUsage (texts words.entry.now) → ⊥) }
{
    match parse(alloc, words) {
        Ok(matches) => match request_of(&matches) {
            Some(request) => Ok(Asked::Run(request)),
            None => Err(WordsFault::Usage),
        },
        Err(cause) => refusal(cause),
    }
}
