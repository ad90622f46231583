//! A commit of git, for camp.

use camp_base::{Name, Tree};

/// A commit of git with its whole tree.
#[derive(Drop)]
pub struct Commit {
    /// Its id, 40 hexadecimal digits: the name of its patch.
    pub id: Name,
    /// The branch that its ref stands for.
    pub branch: Name,
    /// The ids of its parents, the first one first.
    pub parents: Vec<Name>,
    /// Its whole tree, as camp stores it.
    pub tree: Tree,
}

/// The commit at which a branch ends.
#[derive(Clone, Copy, PartialEq, Eq, Debug)]
pub struct Tip {
    pub branch: Name,
    pub id: Name,
}
