//! The errors of making limits.
use thiserror::Error;

/// Which of two numbers is out of range as a limit.
#[derive(Clone, Copy, PartialEq, Eq, Debug, Error)]
pub enum LimitFault {
    #[error("a branch may have 1 to 16777216 changes")]
    Catches,
    #[error("a repository may have 1 to 65536 branches")]
    Branches,
}
