//! Converting commits of git to changes of camp.
#![tactic(auto)]

mod commit_trees;
mod commits;
mod differences;
mod edits;
mod entry_changes;
mod file_changes;
mod parts;
mod touched;
mod tree_changes;

pub use commit_trees::{ChangedTree, EntryFault, tree_after};
pub use commits::{Commit, Tip};
pub use differences::differing_paths;
pub use edits::ChangeFault;
pub use entry_changes::EntryChange;
pub use parts::{into_parts, part_name};
pub use tree_changes::changes_between;
