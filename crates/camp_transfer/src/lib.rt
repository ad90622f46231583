//! The commits of a stream of `git fast-export`, up to its end or its first fault.
#![tactic(auto)]

mod faults;
mod reading;

pub use faults::{StopReason, StreamStop};
pub use reading::{StreamCommits, StreamEnd, read_commits};
