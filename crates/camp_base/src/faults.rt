//! The errors of names, paths, lines and trees.
ghost use Rattle.std.specs.Prelude.{◌≡◌};
ghost use Rattle.camp_base.specs.declared.faults.Apply.TheVariants as apply;
ghost use Rattle.camp_base.specs.declared.faults.BaseFault.TheVariants as base;

use std::alloc::{AllocError, AllocFailed};
use thiserror::Error;

/// Why bytes are not a name, a path or a line.
#[derive(Clone, Copy, PartialEq, Eq, Debug, Error)]
pub enum BaseFault {
    #[error("bad name")]
    BadName,
    #[error("bad path")]
    BadPath,
    #[error("bad line")]
    BadLine,
    #[error("out of memory")]
    Memory,
}

/// Why a change was not applied to a tree, which is then unchanged.
#[derive(Clone, Copy, PartialEq, Eq, Debug, Error)]
pub enum Apply {
    #[error("the change does not apply")]
    DoesNotApply,
    #[error("out of memory")]
    Memory,
}

impl From<AllocError> for BaseFault {
    ghost from_gives = { λ _ fault. fault ≡ base.Memory };

    fn from(_error: AllocError) -> BaseFault {
        BaseFault::Memory
    }
}

impl From<AllocError> for Apply {
    ghost from_gives = { λ _ fault. fault ≡ apply.Memory };

    fn from(_error: AllocError) -> Apply {
        Apply::Memory
    }
}

impl<T: Drop> From<AllocFailed<T>> for Apply {
    ghost from_gives = { λ _ fault. fault ≡ apply.Memory };

    fn from(_error: AllocFailed<T>) -> Apply {
        Apply::Memory
    }
}
