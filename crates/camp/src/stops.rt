//! Why the program ends without having written its answers.
use camp_options::{WordsFault, report_fault};
use camp_run::RunFault;

/// Why the program ends without having written the answers to a script.
#[derive(Debug, Drop)]
pub(crate) enum Stop {
    /// The command line does not ask for a run, or memory ran out while it was parsed.
    Words(WordsFault),
    /// The run failed.
    Run(RunFault),
}

impl Stop {
    /// Reports why, and returns the exit status.
    pub(crate) fn report<R: Print + Eprint>(&self, rt: &R) -> u8 {
        match self {
            Stop::Words(fault) => fault.report(rt, "camp"),
            Stop::Run(fault) => report_fault(rt, "camp", fault, fault.status()),
        }
    }
}
