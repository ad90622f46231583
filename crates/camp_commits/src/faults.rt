//! Why a command of a stream can't be applied.

ghost use Rattle.std.specs.Prelude.{◌≡◌};
ghost use Rattle.camp_commits.specs.declared.faults.ApplyError.TheVariants as apply;
ghost use Rattle.camp_commits.specs.declared.faults.ChangeError.TheVariants as change;

use camp_import::EntryFault;
use std::alloc::{AllocError, AllocFailed};
use thiserror::Error;

/// What is wrong with a change of a commit.
#[derive(Clone, Copy, PartialEq, Eq, Debug, Error)]
pub enum WrongChange {
    /// The quotes of the path are not closed, or an escape is not one of C.
    #[error("the quoted path is malformed")]
    BadPath,
    /// The content of a file or a link is not given by a mark.
    #[error("the content is not given by a mark: export without --no-data")]
    NoMark,
    /// No blob has the mark that gives the content.
    #[error("no blob has this mark")]
    UnknownMark,
}

/// What is wrong with a command.
#[derive(Clone, Copy, PartialEq, Eq, Debug, Error)]
pub enum CommandFault {
    /// The mark that the command sets has more than 40 digits.
    #[error("the mark has over 40 digits")]
    LongMark,
    /// The commit has no id.
    #[error("the commit has no original-oid: export with --show-original-ids")]
    NoId,
    /// The id of the commit can't be the name of a patch.
    #[error("the id of the commit is no name: 1 to 40 of a to z, 0 to 9 and -")]
    BadId,
    /// The reference, escaped, is not a valid path: it has over 200 bytes, or a component that is empty, `.` or `..`.
    #[error("the reference can't be held")]
    BadReference,
    /// No commit has the mark or the id that gives a parent.
    #[error("no commit has this mark or id")]
    UnknownParent,
    /// The commit has no parent, and no command before it sets its reference.
    #[error("the commit has no parent, and no reset of its reference is before it: export with --reference-excluded-parents")]
    UnsetReference,
    /// A change has no path or content.
    #[error("{}", .0.why)]
    Change(ChangeFault),
    /// Camp can't store the tree after a change.
    #[error("{}", .0.why)]
    Entry(EntryFault),
}

/// What is wrong with a change, and which one it is.
#[derive(Clone, Copy, PartialEq, Eq, Debug)]
pub struct ChangeFault {
    /// The index of the change in its commit.
    pub index: usize,
    /// What is wrong with it.
    pub why: WrongChange,
}

/// Why a command is not applied.
#[derive(Clone, Copy, PartialEq, Eq, Debug, Error)]
pub enum ApplyError {
    /// Out of memory.
    #[error("out of memory")]
    Memory,
    /// The first fault of the command.
    #[error("{}", .0)]
    Fault(CommandFault),
}

/// Why a change is not resolved.
#[derive(Clone, Copy, PartialEq, Eq, Debug)]
pub(crate) enum ChangeError {
    Memory,
    Wrong(WrongChange),
}

impl From<AllocError> for ChangeError {
    ghost from_gives = { λ _ e. e ≡ change.Memory };

    fn from(_error: AllocError) -> ChangeError {
        ChangeError::Memory
    }
}

impl<T: Drop> From<AllocFailed<T>> for ChangeError {
    ghost from_gives = { λ _ e. e ≡ change.Memory };

    fn from(_error: AllocFailed<T>) -> ChangeError {
        ChangeError::Memory
    }
}

impl From<AllocError> for ApplyError {
    ghost from_gives = { λ _ e. e ≡ apply.Memory };

    fn from(_error: AllocError) -> ApplyError {
        ApplyError::Memory
    }
}

impl<T: Drop> From<AllocFailed<T>> for ApplyError {
    ghost from_gives = { λ _ e. e ≡ apply.Memory };

    fn from(_error: AllocFailed<T>) -> ApplyError {
        ApplyError::Memory
    }
}

/// Makes the error of a fault.
pub(crate) fn refuse(fault: CommandFault) -> ApplyError
    ensures { result ≡ apply.Fault fault }
{
    ApplyError::Fault(fault)
}
