//! Parsing a command line.
ghost use Rattle.std.specs.Prelude.{◌≡◌, ◌↔◌, IfOk, false, true, map, ◌≤◌};
ghost use Rattle.clap.specs.Words.{FailsBy, app_of, fault_of, found_of, matches_of, rows_of, rule_of};
ghost use Rattle.camp_options.specs.Options.{Given, IsSet, flag, limits, tries_limit, program, tries};

use crate::help::{REFERENCE, SUMMARY, USAGE, VERSION};
use crate::kinds::Options;
use clap::{Arg, ArgAction, ArgMatches, Command, Error, value_parser};
use std::alloc::{AllocError, Global};
use std::convert::AsStr;

/// Parses the words of a command line, of which the first is the program's name. The error is a mistake in the words, a
/// request for the help text or the version, or out of memory; it displays as the text for the user.
pub fn options<'a, S: AsStr>(alloc: Global, words: &'a [S]) -> Result<Options<'a>, Error>
    ensures given { IfOk result (Given (matches_of program (map S.text words.entry.now))) }
    ensures range { IfOk result (λ options. (1 ≤ options.tries) × (options.tries ≤ tries_limit)) }
    ensures refused { FailsBy (fault_of program (map S.text words.entry.now)) result }
{
    let matches = command(alloc)?.try_get_matches_from(words)?;
    Ok(Options {
        serial: is_set(&matches, "serial"),
        tries: matches.get_one::<u32>("tries").unwrap(),
        history: is_set(&matches, "history"),
        limits: matches.get_str("limits"),
    })
}

// True if an option without a value is set.
fn is_set(matches: &ArgMatches, name: &str) -> bool
    ensures exact { (result ≡ true) ↔ IsSet name.now (rows_of (found_of matches.now)) }
{
    matches.get_one(name).unwrap_or(false)
}

fn command<'a>(alloc: Global) -> Result<Command<'a>, AllocError>
    ensures { IfOk result (λ command. app_of command ≡ program) }
{
    Command::new(alloc, "camp")
        .override_usage(USAGE)
        .after_help(SUMMARY)
        .after_long_help(REFERENCE)
        .version(VERSION)
        .arg(flag(
            alloc,
            "serial",
            "Run the clients one after the other, in one thread",
        ))?
        .arg(tries(alloc))?
        .arg(flag(
            alloc,
            "history",
            "Write the history of accepted calls after the answers",
        ))?
        .arg(limits(alloc))
}

fn flag<'a>(alloc: Global, name: &'a str, help: &'a str) -> Arg<'a>
    ensures rule { rule_of result ≡ flag name.entry.now }
    ensures local { result.global ≡ false }
{
    Arg::new(alloc, name)
        .long(name)
        .action(ArgAction::SetTrue)
        .value_parser(value_parser!(bool))
        .help(help)
}

fn tries<'a>(alloc: Global) -> Arg<'a>
    ensures rule { rule_of result ≡ tries }
    ensures local { result.global ≡ false }
{
    Arg::new(alloc, "tries")
        .long("tries")
        .action(ArgAction::Set)
        .value_name("N")
        .value_parser(value_parser!(u32).range(1..=1000))
        .default_value("100")
        .help("Answer a call busy once it has lost N times to other clients, 1 to 1000")
}

fn limits<'a>(alloc: Global) -> Arg<'a>
    ensures rule { rule_of result ≡ limits }
    ensures local { result.global ≡ false }
{
    Arg::new(alloc, "limits")
        .long("limits")
        .action(ArgAction::Set)
        .value_name("LIMITS")
        .help(
            "Allow N changes in a branch and M branches: catches=N,branches=M [default: catches=4096,branches=256]",
        )
}
