//! Why a call or an entry has no text.
ghost use Rattle.std.specs.Prelude.{◌≡◌};
ghost use Rattle.camp_entries.specs.declared.faults.EntryFault.TheVariants as fault;

use std::alloc::{AllocError, AllocFailed};
use thiserror::Error;

/// Why a call or an entry was not rendered.
#[derive(Clone, Copy, PartialEq, Eq, Debug, Error)]
pub enum EntryFault {
    #[error("out of memory")]
    Memory,
    /// A log can't contain it: its note is none, a script can't contain its call, it has no calls or too many, its
    /// number is 0, or its text is too long.
    #[error("no log can contain it")]
    Unfit,
}

impl From<AllocError> for EntryFault {
    ghost from_gives = { λ _ result. result ≡ fault.Memory };

    fn from(_error: AllocError) -> EntryFault {
        EntryFault::Memory
    }
}

impl<T: Drop> From<AllocFailed<T>> for EntryFault {
    ghost from_gives = { λ _ result. result ≡ fault.Memory };

    fn from(_error: AllocFailed<T>) -> EntryFault {
        EntryFault::Memory
    }
}
