//! Why a conversation ends before its input does.
ghost use Rattle.std.specs.Prelude.{◌≡◌};
ghost use Rattle.camp_talk.specs.Faults.{fault_status, load_status};

use bstr::BStr;
use camp_script::without_end;
use std::error::Error;
use std::{fmt, io};

/// Why a conversation ended before its input did.
#[derive(Clone, Copy, Debug)]
pub enum TalkFault {
    /// Memory ran out for the lines of a command.
    Memory,
    /// The reader failed, with this error.
    Read(io::Error),
    /// The writer failed, with this error. A prefix of an answer was written.
    Write(io::Error),
    /// The line number would be 2^64. No conversation reaches that.
    Internal,
}

impl TalkFault {
    /// Returns the exit status of a program that ends with this fault.
    pub fn status(&self) -> u8
        ensures exact { result ≡ fault_status self.now }
    {
        match self {
            TalkFault::Internal => 4,
            _ => 3,
        }
    }
}

impl fmt::Display for TalkFault {
    fn fmt<W: fmt::Write>(&self, f: &mut fmt::Formatter<W>) -> fmt::Result {
        match self {
            TalkFault::Memory => f.write_str("out of memory"),
            TalkFault::Read(_) => f.write_str("cannot read input"),
            TalkFault::Write(_) => f.write_str("cannot write output"),
            TalkFault::Internal => f.write_str("internal fault: lines without a number"),
        }
    }
}

impl Error for TalkFault {}

/// Why a load ended before its input did. Lines are counted from 1.
#[derive(Debug, Drop)]
pub enum LoadFault {
    /// The command that begins at this line was not done; its answer is a fault or a refusal.
    Answer { line: u64, text: Vec<u8> },
    /// Memory ran out for the command that begins at this line, or for its answer.
    Memory { line: u64 },
    /// The next command could not be read.
    Talk(TalkFault),
}

impl LoadFault {
    /// Returns the exit status of a program that ends with this fault.
    pub fn status(&self) -> u8
        ensures exact { result ≡ load_status self.now }
    {
        match self {
            LoadFault::Answer { .. } => 1,
            LoadFault::Memory { .. } => 3,
            LoadFault::Talk(fault) => fault.status(),
        }
    }
}

impl fmt::Display for LoadFault {
    fn fmt<W: fmt::Write>(&self, f: &mut fmt::Formatter<W>) -> fmt::Result {
        match self {
            LoadFault::Answer { line, text } => {
                write!(f, "line {line}: {}", BStr::new(without_end(text)))
            }
            LoadFault::Memory { line } => write!(f, "line {line}: memory"),
            LoadFault::Talk(fault) => write!(f, "{fault}"),
        }
    }
}

impl Error for LoadFault {}
