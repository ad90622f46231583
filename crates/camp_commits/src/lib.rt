//! Commits of a stream of `git fast-import`, each with its whole tree.
#![tactic(auto)]

mod applying;
mod changes;
mod commits;
mod faults;
mod marks;
mod objects;
mod parents;
mod references;

pub use applying::{Step, apply, trees_follow_commits, whole_trees_come_back};
pub use commits::TreeCommit;
pub use faults::{ApplyError, ChangeFault, CommandFault, WrongChange};
pub use objects::{BlobContent, MarkedObject, ReferencePosition, StreamObjects};
