//! Why an entry of a book, a head or a run has no answer.
use crate::words::words_of;
use camp_object::Fault;
use camp_run::RunFault;
use std::alloc::{AllocError, AllocFailed, Global};
use std::io;

/// Why an entry has no answer.
#[derive(Clone, Copy)]
pub(crate) enum PlayFault {
    Memory,
    /// A script was not read, or not run.
    Run(RunFault),
    /// The harness found a broken invariant.
    Wrong(&'static str),
}

pub(crate) const NO_LINE: PlayFault = PlayFault::Wrong("no such line");

pub(crate) const NO_COMMAND: PlayFault = PlayFault::Wrong("no command");

impl PlayFault {
    /// Returns the words that report the fault.
    pub(crate) fn words(self, alloc: Global) -> Result<String, AllocError> {
        match self {
            PlayFault::Memory => words_of(alloc, &RunFault::Memory),
            PlayFault::Run(fault) => words_of(alloc, &fault),
            PlayFault::Wrong(words) => String::from_str(alloc, words),
        }
    }
}

impl From<AllocError> for PlayFault {
    fn from(_error: AllocError) -> PlayFault {
        PlayFault::Memory
    }
}

impl<T: Drop> From<AllocFailed<T>> for PlayFault {
    fn from(_error: AllocFailed<T>) -> PlayFault {
        PlayFault::Memory
    }
}

/// Converts an error of writing into a buffer, which can only be out of memory.
impl From<io::Error> for PlayFault {
    fn from(_error: io::Error) -> PlayFault {
        PlayFault::Memory
    }
}

impl From<Fault> for PlayFault {
    fn from(fault: Fault) -> PlayFault {
        match fault {
            Fault::Memory => PlayFault::Memory,
            _ => PlayFault::Wrong("busy or full"),
        }
    }
}

/// Converts the result of a run: out of memory is an error of its own, any other fault is reported.
pub(crate) fn ran(ended: Result<(), RunFault>) -> Result<(), PlayFault> {
    match ended {
        Ok(()) => Ok(()),
        Err(RunFault::Memory) => Err(PlayFault::Memory),
        Err(fault) => Err(PlayFault::Run(fault)),
    }
}
