//! Errors of command lines: how they are reported, and their exit statuses.
ghost use Rattle.std.specs.Prelude.{◌≡◌, ◌≢◌};
ghost use Rattle.std.specs.IoError.{error_kind};
ghost use Rattle.clap.specs.Words.{kind_of};
ghost use Rattle.camp_options.specs.Reports.{AsksForText, IsPrinted, HasStatus, ReportsUnwritten};

use crate::limits::LimitsFault;
use clap::Error;
use clap::error::ErrorKind;
use std::alloc::AllocError;
use std::env::{self, Env};
use std::fmt::Display;
use std::io;

// The exit status of a program whose output is a closed pipe: 128 plus the number of SIGPIPE, as shells report it.
const CLOSED_PIPE: u8 = 141;

/// Why the words of a command line are not executed.
#[derive(Debug, Drop)]
pub enum WordsFault {
    /// A word is not UTF-8.
    NotText,
    /// The words are rejected, or ask for the help text or the version; clap has the text.
    Refused(Error),
    /// The text of `--limits` is malformed or out of range.
    Limits(LimitsFault),
    /// Memory ran out while the words were parsed.
    Memory,
}

/// Returns the words of the command line, of which the first is the program's name.
pub fn command_line<R: Env + AllocGlobal>(rt: &R) -> Result<Vec<String>, WordsFault> {
    match env::args(rt) {
        Ok(words) => Ok(words.collect(rt.alloc())?),
        Err(error) if error.kind() == io::ErrorKind::OutOfMemory => Err(WordsFault::Memory),
        Err(_) => Err(WordsFault::NotText),
    }
}

impl WordsFault {
    /// Prints the fault, or the requested text, and returns the exit status of the program.
    pub fn report<R: Print + Eprint>(&self, rt: &R, program: &str) -> u8
        ensures status { HasStatus self.now result }
    {
        match self {
            WordsFault::NotText => {
                let _ = eprintln!(rt; "error: a word of the command line is not UTF-8");
                2
            }
            WordsFault::Refused(error) => report_error(rt, program, error),
            WordsFault::Limits(fault) => {
                let _ = eprintln!(rt; "error: {}", fault.words());
                2
            }
            WordsFault::Memory => report_fault(rt, program, &"out of memory", 3),
        }
    }
}

// Prints the requested text, or what is wrong with the command line; returns the exit status.
fn report_error<R: Print + Eprint>(rt: &R, program: &str, error: &Error) -> u8
    ensures text { AsksForText (kind_of error.now) → IsPrinted result }
    ensures mistake { kind_of error.now ≢ ErrorKind.DisplayHelp → kind_of error.now ≢ ErrorKind.DisplayVersion → result ≡ 2 }
{
    let printed = error.print(rt);
    if error.use_stderr() {
        return 2;
    }
    match printed {
        Ok(()) => 0,
        Err(error) => report_unwritten(rt, program, &error),
    }
}

/// Reports that output could not be written, unless its pipe is closed, and returns the exit status.
pub fn report_unwritten<R: Eprint>(rt: &R, program: &str, error: &io::Error) -> u8
    ensures status { ReportsUnwritten (error_kind error.now) result }
{
    if error.kind() == io::ErrorKind::BrokenPipe {
        return CLOSED_PIPE;
    }
    report_fault(
        rt,
        program,
        &format_args!("cannot write output: {error}"),
        3,
    )
}

/// Reports to standard error why a program ends, and returns the given exit status.
pub fn report_fault<R: Eprint, F: Display>(rt: &R, program: &str, fault: &F, status: u8) -> u8
    ensures exact { result ≡ status }
{
    let _ = eprintln!(rt; "{program}: {fault}");
    status
}

impl From<Error> for WordsFault {
    fn from(error: Error) -> WordsFault {
        match error.kind() {
            ErrorKind::OutOfMemory => WordsFault::Memory,
            _ => WordsFault::Refused(error),
        }
    }
}

impl From<LimitsFault> for WordsFault {
    fn from(fault: LimitsFault) -> WordsFault {
        WordsFault::Limits(fault)
    }
}

impl From<AllocError> for WordsFault {
    fn from(_error: AllocError) -> WordsFault {
        WordsFault::Memory
    }
}
