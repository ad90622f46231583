//! Why an entry was not read.
ghost use Rattle.std.specs.Prelude.{◌≡◌};
ghost use Rattle.camp_member.specs.declared.faults.ReadFault.TheVariants as fault;

use std::alloc::{AllocError, AllocFailed};
use thiserror::Error;

/// Why an entry of a log was not read. The reader is then unchanged.
#[derive(Clone, Copy, PartialEq, Eq, Debug, Error)]
pub enum ReadFault {
    #[error("out of memory")]
    Memory,
    /// Another entry comes next: the one at this index.
    #[error("the next entry is the one at index {index}")]
    OutOfOrder { index: usize },
    /// At this index there is no entry of a member, or its number is not the next one of its seat. For `restore`: its
    /// number is not greater than the last one of its seat, or it is of the member's own seat, or the member has stopped.
    #[error("no entry of a member stands at index {index}")]
    Foreign { index: usize },
}

impl From<AllocError> for ReadFault {
    ghost from_gives = { λ _ result. result ≡ fault.Memory };

    fn from(_error: AllocError) -> ReadFault {
        ReadFault::Memory
    }
}
