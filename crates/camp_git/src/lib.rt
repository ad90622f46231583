//! Exporting a branch to git: a stream that `git fast-import` reads, with a commit for each patch.
#![tactic(auto)]

mod changes;
mod commits;
mod exports;
mod faults;
mod folders;
mod steps;
mod streams;
mod texts;

pub use exports::export;
pub use faults::Unexported;
