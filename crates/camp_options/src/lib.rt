//! The words of a command line, parsed with `clap`, and what is reported if they are rejected.
#![tactic(auto)]

mod faults;
mod help;
mod kinds;
mod limits;
mod words;

pub use faults::{WordsFault, command_line, report_fault, report_unwritten};
pub use help::VERSION;
pub use kinds::Options;
pub use limits::{LimitsFault, read_limits};
pub use words::options;
