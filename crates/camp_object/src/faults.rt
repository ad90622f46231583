//! The errors of calls.
ghost use Rattle.std.specs.Prelude.{◌≡◌};
ghost use Rattle.camp_object.specs.declared.faults.Fault.TheVariants as fault;

use std::alloc::{AllocError, AllocFailed};
use thiserror::Error;

/// Why a call got no reply. The call was not added to the history.
#[derive(Clone, Copy, PartialEq, Eq, Debug, Error)]
pub enum Fault {
    #[error("out of memory")]
    Memory,
    /// The call lost as many compare-exchanges as its caller tries: other calls were accepted before it.
    #[error("busy after {lost} lost exchanges")]
    Busy { lost: u32 },
    /// The call would be accepted, but its seat already has as many accepted calls as it may have.
    #[error("the seat is full")]
    Full,
}

impl From<AllocError> for Fault {
    ghost from_gives = { λ _ result. result ≡ fault.Memory };

    fn from(_error: AllocError) -> Fault {
        Fault::Memory
    }
}

impl<T: Drop> From<AllocFailed<T>> for Fault {
    ghost from_gives = { λ _ result. result ≡ fault.Memory };

    fn from(_error: AllocFailed<T>) -> Fault {
        Fault::Memory
    }
}
