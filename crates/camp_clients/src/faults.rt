//! The errors of a run under a lock.
ghost use Rattle.std.specs.Prelude.{◌≡◌};
ghost use Rattle.camp_clients.specs.declared.faults.LockFault.TheVariants as fault;

use std::alloc::{AllocError, AllocFailed};
use thiserror::Error;

/// Why a run under a lock has no result.
#[derive(Clone, Copy, PartialEq, Eq, Debug, Error)]
pub enum LockFault {
    #[error("out of memory")]
    Memory,
    /// The history has a call that no reply reports as accepted, or lacks one that a reply reports, or begins with
    /// another state.
    #[error("foreign call")]
    Foreign,
}

impl From<AllocError> for LockFault {
    ghost from_gives = { λ _ result. result ≡ fault.Memory };

    fn from(_error: AllocError) -> LockFault {
        LockFault::Memory
    }
}

impl<T: Drop> From<AllocFailed<T>> for LockFault {
    ghost from_gives = { λ _ result. result ≡ fault.Memory };

    fn from(_error: AllocFailed<T>) -> LockFault {
        LockFault::Memory
    }
}
