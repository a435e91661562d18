//! The simple command.

ghost use Rattle.std.specs.Prelude.{◌≡◌, ◌⊎◌, ◌∷◌, [], false, map, option_map, IfErr, IfOk};
ghost use Rattle.clap.specs.Words.{app_of, found_of, rows_of, rule_of};
ghost use Rattle.command_line.specs.Command.{files_rule, option_rule, refusals, rows_for, simple_command, texts};

use clap::error::ErrorKind;
use clap::{Arg, ArgAction, ArgMatches, Command};
use std::alloc::{AllocError, Global};

/// The version of the program.
pub const VERSION: &str = "0.1.0";

fn value_option<'a>(alloc: Global, name: &'a str) -> Arg<'a>
    ensures rule { rule_of result ≡ option_rule name.entry.now }
    ensures local { result.global ≡ false }
{
    Arg::new(alloc, name).long(name).action(ArgAction::Set)
}

fn files_argument<'a>(alloc: Global) -> Arg<'a>
    ensures rule { rule_of result ≡ files_rule }
    ensures local { result.global ≡ false }
{
    Arg::new(alloc, "files").action(ArgAction::Append)
}

fn command<'a>(alloc: Global) -> Result<Command<'a>, AllocError>
    ensures { IfOk result (λ c. app_of c ≡ simple_command) }
{
    Command::new(alloc, "verity")
        .version(VERSION)
        .arg(value_option(alloc, "do"))?
        .arg(value_option(alloc, "cell"))?
        .arg(value_option(alloc, "phase"))?
        .arg(value_option(alloc, "at"))?
        .arg(value_option(alloc, "budget"))?
        .arg(value_option(alloc, "size"))?
        .arg(value_option(alloc, "rise"))?
        .arg(files_argument(alloc))
}

/// Reads the words by the simple command. The cause where it does not take them is that of the first word that fails.
pub fn parse<'a>(alloc: Global, words: &'a [String]) -> Result<ArgMatches<'a>, ErrorKind>
    ensures taken { IfOk result (λ _. refusals (texts words.entry.now) ≡ []) }
    ensures rows { IfOk result (λ m. rows_of (found_of m) ≡ rows_for (texts words.entry.now)) }
    ensures refused { IfErr result (λ cause. (cause ≡ ErrorKind.OutOfMemory) ⊎ (refusals (texts words.entry.now) ≡ cause ∷ [])) }
{
    let Ok(command) = command(alloc) else {
        return Err(ErrorKind::OutOfMemory);
    };
    match command.try_get_matches_from(words) {
        Ok(matches) => Ok(matches),
        Err(error) => Err(error.kind()),
    }
}
