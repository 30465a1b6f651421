//! The command that `clap` reads.
ghost use Rattle.std.specs.Prelude.{◌≡◌, IfOk, false};
ghost use Rattle.clap.specs.Words.{app_of, fault_of, found_of, matches_of, rows_of, rule_of, FailsBy};
ghost use Rattle.vg_words.specs.Command.{app, rule_for};
ghost use Rattle.vg_words.specs.Request.{texts};

use crate::option::{OPTIONS, Opt};
use clap::{Arg, ArgMatches, Command, Error};
use std::alloc::{AllocError, Global};

/// The argument of an option, under the option's name: it takes one value, or is a flag.
fn argument(alloc: Global, option: Opt) -> Arg<'static>
    ensures rule { rule_of result ≡ rule_for option }
    ensures local { result.global ≡ false }
{
    let name = option.long();
    Arg::new(alloc, name).long(name).action(option.action())
}

/// The command with its options. It has no flag for help, and none for a version, since it has no version.
fn command<'a>(alloc: Global) -> Result<Command<'a>, AllocError>
    ensures { IfOk result (λ command. app_of command ≡ app) }
{
    let mut command = Command::new(alloc, "vginsert")
        .no_binary_name(true)
        .disable_help_flag(true);
    'option: for option in &OPTIONS {
        command = command.arg(argument(alloc, *option))?;
    }
    Ok(command)
}

/// What `clap` finds in the words, which do not begin with the program's own name.
pub fn parse<'a>(alloc: Global, words: &'a [String]) -> Result<ArgMatches<'a>, Error>
    ensures matches { IfOk result (λ matches. rows_of (found_of matches) ≡ matches_of app (texts words.now)) }
    ensures fault { FailsBy (fault_of app (texts words.now)) result }
{
    command(alloc)?.try_get_matches_from(words)
}
