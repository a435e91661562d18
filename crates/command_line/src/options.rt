//! The values of the options.

ghost use Rattle.std.specs.Prelude.{◌≡◌, ◌≢◌, ◌<◌, ◌^◌, ◌∷◌, [], List, ℕ, Some, None, length, map, option_map, unwrap_or, codes, IfErr, IfOk, MatchOption, MatchResult};
ghost use Rattle.std.specs.Char.{is_ascii_digit};
ghost use Rattle.std.specs.List.{list_all};
ghost use Rattle.clap.specs.Words.{all_of, first_of, found_of, rows_of};
ghost use Rattle.command_line.specs.Requests.{Gives, GivesNone, budget_in, files_given, mode_given, mode_named, number_in, size_in, value_of};
ghost use Rattle.command_line.specs.Steps.{Reads, listed, shown};

use crate::request::FileWords;
use clap::ArgMatches;

/// What the checker does.
#[derive(Clone, Copy)]
pub enum Mode {
    /// `check`: the verdict on each cell.
    Check,
    /// `replay`: the nets of a cell at one valuation.
    Replay,
    /// `classes`: the class of each channel-connected part.
    Classes,
    /// `gen`: a hierarchy is generated and checked.
    Generate,
    /// `arrive`: whether the order matters in which inputs of a cell rise.
    Arrive,
    /// `blif`: a cell is written as a BLIF model.
    Blif,
}

/// The values of the options, where they are there, and the three files; no files where no file is named.
#[derive(Clone, Copy)]
pub struct Choices<'a> {
    /// The value of `--do`, and `Check` where it is not there.
    pub mode: Mode,
    /// The value of `--cell`, the name of a cell.
    pub cell: Option<&'a str>,
    /// The value of `--phase`, the name of a phase.
    pub phase: Option<&'a str>,
    /// The value of `--at`, bits of variables as `a=1,b=0`.
    pub at: Option<&'a str>,
    /// The value of `--budget`, in nodes of diagrams, from 65,536 to 64,000,000.
    pub budget: Option<u32>,
    /// The value of `--size`, of the hierarchy that is generated, from 1 to 32.
    pub size: Option<u32>,
    /// The value of `--rise`, names of input ports as `a,b`.
    pub rise: Option<&'a str>,
    /// The three words that are no options; none where there is no such word.
    pub files: Option<FileWords<'a>>,
}

/// A value is none that its option takes.
#[derive(Clone, Copy)]
pub struct Misfit;

fn value<'a>(matches: &ArgMatches<'a>, name: &str) -> Option<&'a str>
    ensures { value_of result ≡ first_of name.now (rows_of (found_of matches.now)) }
{
    matches.get_str(name)
}

fn named(word: &str) -> Option<Mode>
    ensures { result ≡ mode_named word.now }
{
    if word == "check" {
        Some(Mode::Check)
    } else if word == "replay" {
        Some(Mode::Replay)
    } else if word == "classes" {
        Some(Mode::Classes)
    } else if word == "gen" {
        Some(Mode::Generate)
    } else if word == "arrive" {
        Some(Mode::Arrive)
    } else if word == "blif" {
        Some(Mode::Blif)
    } else {
        None
    }
}

fn chosen_mode(matches: &ArgMatches<'_>) -> Option<Mode>
    ensures { result ≡ mode_given (rows_of (found_of matches.now)) }
{
    match value(matches, "do") {
        Some(word) => named(word),
        None => Some(Mode::Check),
    }
}

fn are_digits(word: &[u8]) -> bool
    ensures { result ≡ list_all is_ascii_digit word.now }
{
    word.iter().all(|b| b.is_ascii_digit())
}

/// The number that a word writes with at most so many decimal digits, where it is in its range.
fn number(word: &str, places: usize, least: u32, greatest: u32) -> Option<u32>
    ensures { result ≡ number_in places least greatest word.now }
{
    if word.is_empty() || word.len() > places || !are_digits(word.as_bytes()) {
        return None;
    }
    match word.parse::<u32>() {
        Ok(number) => {
            if least <= number && number <= greatest {
                Some(number)
            } else {
                None
            }
        }
        Err(_) => None,
    }
}

fn budget(matches: &ArgMatches<'_>) -> Result<Option<u32>, Misfit>
    ensures { Reads result (option_map budget_in (first_of (codes "budget") (rows_of (found_of matches.now)))) }
{
    match value(matches, "budget") {
        Some(word) => match number(word, 8, 65_536, 64_000_000) {
            Some(number) => Ok(Some(number)),
            None => Err(Misfit),
        },
        None => Ok(None),
    }
}

fn size(matches: &ArgMatches<'_>) -> Result<Option<u32>, Misfit>
    ensures { Reads result (option_map size_in (first_of (codes "size") (rows_of (found_of matches.now)))) }
{
    match value(matches, "size") {
        Some(word) => match number(word, 2, 1, 32) {
            Some(number) => Ok(Some(number)),
            None => Err(Misfit),
        },
        None => Ok(None),
    }
}

fn three<'a>(names: &[&'a str]) -> Result<Option<FileWords<'a>>, Misfit>
    ensures ok { IfOk result (λ files. map (λ s. s.now) names.now ≡ listed files) }
    ensures err { IfErr result (λ _. (length (map (λ s. s.now) names.now) ≢ 0) × (length (map (λ s. s.now) names.now) ≢ 3)) }
{
    match names {
        [] => Ok(None),
        [spice, blif, rules] => Ok(Some(FileWords { spice, blif, rules })),
        _ => Err(Misfit),
    }
}

fn files<'a>(matches: &ArgMatches<'a>) -> Result<Option<FileWords<'a>>, Misfit>
    ensures ok { IfOk result (λ files. files_given (rows_of (found_of matches.now)) ≡ listed files) }
    ensures err { IfErr result (λ _. (length (files_given (rows_of (found_of matches.now))) ≢ 0) × (length (files_given (rows_of (found_of matches.now))) ≢ 3)) }
{
    match matches.get_raw("files") {
        Some(names) => three(names),
        None => Ok(None),
    }
}

/// The values that the words give to the options. No request has them where one of them is none that its option takes.
pub fn read_options<'a>(matches: &ArgMatches<'a>) -> Result<Choices<'a>, Misfit>
    ensures ok { IfOk result (λ c. Gives (rows_of (found_of matches.now)) (shown c)) }
    ensures err { IfErr result (λ _. GivesNone (rows_of (found_of matches.now))) }
{
    let mode = match chosen_mode(matches) {
        Some(mode) => mode,
        None => return Err(Misfit),
    };
    let budget = budget(matches)?;
    let size = size(matches)?;
    let files = files(matches)?;
    Ok(Choices {
        mode,
        cell: value(matches, "cell"),
        phase: value(matches, "phase"),
        at: value(matches, "at"),
        budget,
        size,
        rise: value(matches, "rise"),
        files,
    })
}
