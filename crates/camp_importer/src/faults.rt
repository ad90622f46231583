//! Why a commit is not imported.

ghost use Rattle.std.specs.Prelude.{◌≡◌};
ghost use Rattle.camp_importer.specs.declared.faults.Reason.TheVariants as reason;

use camp_base::Name;
use camp_repo::Refusal;
use std::alloc::{AllocError, AllocFailed};
use thiserror::Error;

/// What is wrong with a commit.
#[derive(Clone, Copy, PartialEq, Eq, Debug, Error)]
pub enum Reason {
    /// A patch of the commit's name is recorded already, on a branch that led to another tree. No call was made.
    #[error("a patch of this name is there, with another tree")]
    OtherTree,
    /// The commit has no parents, but its branch already has patches.
    #[error("a commit without parents needs an empty branch")]
    NotEmpty,
    /// The commit's branch lacks the patch of this parent.
    #[error("a parent is not in the repository, or not on the branch that stands for it")]
    LacksParent(Name),
    /// The repository refused a call.
    #[error("a call was refused")]
    Refused(Refusal),
    /// The tree of the branch or of the commit has a file of more than 1,000,000 lines.
    #[error("a file of more than 1,000,000 lines")]
    TooManyLines,
    /// The commit has more changes than fit in 10,000 parts.
    #[error("more than 640,000 changes")]
    TooManyChanges,
    /// The commit changes nothing, and the path that marks an empty commit has a file already.
    #[error("the path of an empty commit is not free")]
    NoMark,
    /// Out of memory.
    #[error("out of memory")]
    Memory,
}

/// Which commit is not imported, and why.
#[derive(Clone, Copy, PartialEq, Eq, Debug)]
pub struct ImportFault {
    /// The name of the commit.
    pub commit: Name,
    pub why: Reason,
}

impl From<AllocError> for Reason {
    ghost from_gives = { λ _ why. why ≡ reason.Memory };

    fn from(_error: AllocError) -> Reason {
        Reason::Memory
    }
}

impl<T: Drop> From<AllocFailed<T>> for Reason {
    ghost from_gives = { λ _ why. why ≡ reason.Memory };

    fn from(_error: AllocFailed<T>) -> Reason {
        Reason::Memory
    }
}
