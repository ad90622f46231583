//! The errors of making a head.
ghost use Rattle.std.specs.Prelude.{◌≡◌};
ghost use Rattle.camp_history.specs.declared.faults.HeadFault.TheVariants as fault;

use std::alloc::AllocError;
use thiserror::Error;

/// Why a head was not made.
#[derive(Clone, Copy, PartialEq, Eq, Debug, Error)]
pub enum HeadFault {
    /// A number is out of its range.
    #[error("bad size")]
    BadSize,
    #[error("out of memory")]
    Memory,
}

impl From<AllocError> for HeadFault {
    ghost from_gives = { λ _ result. result ≡ fault.Memory };

    fn from(_error: AllocError) -> HeadFault {
        HeadFault::Memory
    }
}
