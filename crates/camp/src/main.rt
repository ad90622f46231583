//! `camp`: reads a script of calls from standard input, runs it, and writes its answers to standard output.
//! The exit status is 0 if the script was run, 1 if it has a fault, 2 if the command line is rejected, and 3
//! if memory ran out or input or output failed; standard error says why.
#![tactic(auto)]

ghost use Rattle.std.specs.Prelude.{◌≡◌, ◌≤◌, IfOk, Ok};
ghost use Rattle.std.specs.Option.{option_map_or};
ghost use Rattle.camp_options.specs.Limits.{limits_in};
ghost use Rattle.camp_options.specs.Options.{tries_limit};
ghost use Rattle.camp_repo.specs.Limits.{default_bounds};

mod runs;
mod stops;

use camp_options::{Options, WordsFault, command_line, options};
use camp_repo::Limits;
use runs::run;
use std::alloc::Global;
use std::process::ExitCode;
use stops::Stop;

fn main(rt: HostRuntime) -> ExitCode {
    let ended = match command_line(&rt) {
        Ok(words) => match parse_command_line(rt.alloc(), words.as_slice()) {
            Ok((options, limits)) => {
                let (mut reader, mut writer) = (rt.stdin(), rt.stdout());
                run(&rt, rt.alloc(), limits, &options, &mut reader, &mut writer).map_err(Stop::Run)
            }
            Err(fault) => Err(Stop::Words(fault)),
        },
        Err(fault) => Err(Stop::Words(fault)),
    };
    match ended {
        Ok(()) => ExitCode::SUCCESS,
        Err(stop) => ExitCode::from(stop.report(&rt)),
    }
}

// Parses the command line: the options, and the limits of the repository.
fn parse_command_line<'a>(
    alloc: Global,
    words: &'a [String],
) -> Result<(Options<'a>, Limits), WordsFault>
    ensures tries { IfOk result (λ parsed. (1 ≤ parsed.0.tries) × (parsed.0.tries ≤ tries_limit)) }
    ensures limits { IfOk result (λ parsed. option_map_or (λ text. limits_in text.now) parsed.0.limits (Ok default_bounds) ≡ Ok parsed.1) }
{
    let parsed = options(alloc, words)?;
    let limits = parsed.limits()?;
    Ok((parsed, limits))
}
