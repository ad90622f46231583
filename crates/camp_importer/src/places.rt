//! Where a commit goes.

use camp_base::Name;

/// The branches of the repository that the import of a commit reads and writes.
#[derive(Drop)]
pub struct Place {
    /// The branch on which the commit is recorded: that of its first parent, or a new one.
    pub branch: Name,
    /// The branch of its first parent; for a commit without parents, one that has no patch.
    pub first: Name,
    /// The branches of its further parents.
    pub others: Vec<Name>,
    /// Copies of the branch of its first parent, made before the commit.
    pub spares: Vec<Name>,
    /// Copies of its own branch, made after the commit.
    pub copies: Vec<Name>,
}
