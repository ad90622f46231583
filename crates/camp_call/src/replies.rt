//! The replies.
use crate::{Conflicts, Names};
use camp_base::{Name, Tree};

/// What a repository replies.
#[derive(Drop)]
pub enum Reply {
    /// The call was accepted, as the one with this number, counted from 1.
    Done(u64),
    Refused(Refusal),
    Tree(Tree),
    /// The pairs of patches in conflict, the lesser name first, each pair once, in ascending order.
    Conflicts(Conflicts),
    /// The names of the patches, in the order in which they were added.
    Names(Names),
}

/// Why a call was refused. The call changed nothing.
#[derive(Clone, Copy, PartialEq, Eq, Debug)]
pub enum Refusal {
    /// There is no branch of this name.
    NoBranch(Name),
    /// There is already a branch of this name.
    BranchExists(Name),
    /// Some branch already has a patch of this name.
    PatchExists(Name),
    /// The branch has no patch of this name.
    NoPatch(Name),
    /// There is nothing to do: no patch is named, or none is missing.
    NothingToDo,
    /// A limit is reached: of branches, catches of a branch, lines of a side of a hunk, or lines of a file.
    TooLarge,
    /// A change does not apply to its tree.
    DoesNotApply,
    /// A patch depends on another one that would be missing.
    Depends { patch: Name, on: Name },
    /// The two branches have this patch in different states, or it cannot be moved in front of the patches that only
    /// one branch has.
    Diverged(Name),
    /// Two patches do not merge: `left` is of the branch that is pulled into, and `right` of the one that is pulled
    /// from.
    NoMerge { left: Name, right: Name },
    /// A branch would be pulled into itself.
    SameBranch(Name),
}
