//! Why a log was not opened, and why a request was not queued.
ghost use Rattle.std.specs.Prelude.{◌≡◌};
ghost use Rattle.camp_shared.specs.declared.faults.AskFault.TheVariants as asking;
ghost use Rattle.camp_shared.specs.declared.faults.OpenFault.TheVariants as opening;

use std::alloc::{AllocError, AllocFailed};
use thiserror::Error;

/// Why there is no member of a log.
#[derive(Clone, Copy, PartialEq, Eq, Debug, Error)]
pub enum OpenFault {
    #[error("out of memory")]
    Memory,
    /// Its first entry is not the title of a log of a repository.
    #[error("no log of a repository")]
    NoTitle,
}

/// Why a request was not queued. The member is then unchanged.
#[derive(Clone, Copy, PartialEq, Eq, Debug, Error)]
pub enum AskFault {
    #[error("out of memory")]
    Memory,
    /// The text is not the canonical text of one call, with or without a note before it.
    #[error("not one call in canonical form")]
    NoCall,
    /// The text has more bytes than an entry has room for.
    #[error("a call of more than 1048516 bytes")]
    TooLong,
}

impl From<AllocError> for OpenFault {
    ghost from_gives = { λ _ result. result ≡ opening.Memory };

    fn from(_error: AllocError) -> OpenFault {
        OpenFault::Memory
    }
}

impl From<AllocError> for AskFault {
    ghost from_gives = { λ _ result. result ≡ asking.Memory };

    fn from(_error: AllocError) -> AskFault {
        AskFault::Memory
    }
}
