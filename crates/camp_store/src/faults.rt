//! Why texts are not read or not persisted.
ghost use Rattle.std.specs.Prelude.{◌≡◌};
ghost use Rattle.camp_store.specs.declared.faults.StoreFault.TheVariants as fault;

use std::alloc::{AllocError, AllocFailed};
use std::io;
use thiserror::Error;

/// Why texts are not read or not persisted.
#[derive(Clone, Copy, Debug, Error)]
pub enum StoreFault {
    #[error("out of memory")]
    Memory,
    /// A disk call has failed, with this error.
    #[error("{0}")]
    Disk(io::Error),
    /// A text has 2^32 bytes or more.
    #[error("a text is too long")]
    TooLong,
    /// A block begins at offset `at`, after `texts` texts, but it is not complete.
    #[error("the text after {texts} others is damaged, at byte {at}")]
    Damaged { texts: usize, at: usize },
    /// An append or a sync had failed before: the file has to be opened again.
    #[error("an earlier write to the file has failed")]
    Failed,
}

impl From<AllocError> for StoreFault {
    ghost from_gives = { λ _ result. result ≡ fault.Memory };

    fn from(_error: AllocError) -> StoreFault {
        StoreFault::Memory
    }
}

impl<T: Drop> From<AllocFailed<T>> for StoreFault {
    ghost from_gives = { λ _ result. result ≡ fault.Memory };

    fn from(_error: AllocFailed<T>) -> StoreFault {
        StoreFault::Memory
    }
}

impl From<io::Error> for StoreFault {
    ghost from_gives = { λ error result. result ≡ fault.Disk error };

    fn from(error: io::Error) -> StoreFault {
        StoreFault::Disk(error)
    }
}
