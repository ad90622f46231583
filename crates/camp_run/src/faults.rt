//! Why a script was not run, or its answers not written.
ghost use Rattle.std.specs.Prelude.{◌≡◌, Some};
ghost use Rattle.camp_run.specs.Faults.{run_fault_words, status_of};
ghost use Rattle.camp_run.specs.declared.faults.RunFault.TheVariants as fault;

use camp_script::LineFault;
use std::alloc::AllocError;
use std::error::Error;
use std::fmt;

/// Why a script was not run, or its answers not written.
#[derive(Clone, Copy, PartialEq, Eq, Debug)]
pub enum RunFault {
    /// The input is not a script. Nothing was run.
    Script(LineFault),
    /// The history has a call that no answer reports, or lacks one. Nothing was written.
    Foreign,
    /// Memory ran out. Nothing was written.
    Memory,
    /// The reader failed. Nothing was run.
    Read,
    /// The writer failed. A proper prefix of the output was written.
    Write,
}

impl RunFault {
    /// Returns the exit status of a program that ends with it.
    pub fn status(&self) -> u8
        ensures exact { result ≡ status_of self.now }
    {
        match self {
            RunFault::Script(_) => 1,
            RunFault::Foreign | RunFault::Memory | RunFault::Read | RunFault::Write => 3,
        }
    }
}

impl fmt::Display for RunFault {
    ghost output = { λ fault. Some (run_fault_words fault) };

    fn fmt<W: fmt::Write>(&self, f: &mut fmt::Formatter<W>) -> fmt::Result {
        match self {
            RunFault::Script(fault) => write!(f, "{fault}"),
            RunFault::Foreign => f.write_str("foreign call"),
            RunFault::Memory => f.write_str("out of memory"),
            RunFault::Read => f.write_str("cannot read input"),
            RunFault::Write => f.write_str("cannot write output"),
        }
    }
}

impl Error for RunFault {}

impl From<AllocError> for RunFault {
    ghost from_gives = { λ _ error. error ≡ fault.Memory };

    fn from(_error: AllocError) -> RunFault {
        RunFault::Memory
    }
}
