//! The errors of parsing.
use camp_base::{Apply, BaseFault};
use std::alloc::{AllocError, AllocFailed};
use thiserror::Error;

/// Why a text cannot be parsed.
#[derive(Clone, Copy, PartialEq, Eq, Debug, Error)]
pub enum NotationError {
    /// This sign was expected next.
    #[error("expected '{0}'")]
    Expected(char),
    #[error("expected a word")]
    NoWord,
    #[error("bad escape")]
    BadEscape,
    #[error("expected add, remove or a hunk")]
    NoChange,
    #[error("more behind it")]
    MoreBehind,
    #[error("bad number")]
    BadNumber,
    #[error("bad name")]
    BadName,
    #[error("bad path")]
    BadPath,
    #[error("bad line")]
    BadLine,
    /// The hunk is out of range: its line is 0, both its sides are empty, or they reach beyond 2^30.
    #[error("no hunk")]
    NoHunk,
    /// A label stands alone, but no known primitive has it.
    #[error("unknown label")]
    UnknownLabel,
    /// A path occurs twice in a tree.
    #[error("a file twice")]
    FileTwice,
    /// The value would be rendered differently: with other quotes, in another order of files, without leading zeros, or
    /// by its label alone.
    #[error("written otherwise")]
    WrittenOtherwise,
    #[error("out of memory")]
    Memory,
}

impl From<AllocError> for NotationError {
    fn from(_error: AllocError) -> NotationError {
        NotationError::Memory
    }
}

impl<T: Drop> From<AllocFailed<T>> for NotationError {
    fn from(_error: AllocFailed<T>) -> NotationError {
        NotationError::Memory
    }
}

impl From<BaseFault> for NotationError {
    fn from(fault: BaseFault) -> NotationError {
        match fault {
            BaseFault::BadName => NotationError::BadName,
            BaseFault::BadPath => NotationError::BadPath,
            BaseFault::BadLine => NotationError::BadLine,
            BaseFault::Memory => NotationError::Memory,
        }
    }
}

impl From<Apply> for NotationError {
    fn from(fault: Apply) -> NotationError {
        match fault {
            Apply::DoesNotApply => NotationError::FileTwice,
            Apply::Memory => NotationError::Memory,
        }
    }
}
