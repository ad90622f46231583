//! Why a branch was not exported.
ghost use Rattle.std.specs.Prelude.{◌≡◌};
ghost use Rattle.camp_git.specs.declared.faults.Unexported.TheVariants as fault;

use camp_base::{Name, Path};
use std::alloc::AllocError;
use std::io;
use thiserror::Error;

/// Why a branch was not exported. A program reports its display form; that of `NoBranch` is the answer of a call.
#[derive(Debug, Drop, Error)]
pub enum Unexported {
    /// There is no branch of this name.
    #[error("refused 4 {0}")]
    NoBranch(Name),
    /// Git can't store the tree of the branch up to and including a patch: the path of this file has a component
    /// `.git`, or is a folder of another file too.
    #[error("{patch}: git can't hold {path}")]
    Unheld { patch: Name, path: Path },
    #[error("out of memory")]
    Memory,
    /// The writer failed.
    #[error("cannot write output: {0}")]
    Write(io::Error),
}

impl From<AllocError> for Unexported {
    ghost from_gives = { λ _ result. result ≡ fault.Memory };

    fn from(_error: AllocError) -> Unexported {
        Unexported::Memory
    }
}
