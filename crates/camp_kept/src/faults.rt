//! Why a repository is not opened, or its calls are not persisted.
ghost use Rattle.std.specs.Prelude.{◌≡◌};
ghost use Rattle.camp_kept.specs.Faults.{fault_of};
ghost use Rattle.camp_kept.specs.declared.faults.PersistenceFault.TheVariants as fault;

use camp_store::StoreFault;
use std::alloc::{AllocError, AllocFailed};
use thiserror::Error;

/// Why a repository is not opened, or its calls are not persisted.
#[derive(Clone, Copy, Debug, Error)]
pub enum PersistenceFault {
    #[error("out of memory")]
    Memory,
    /// The file exists but is not a store.
    #[error("no store of camp")]
    NoStore,
    /// At this offset there is no block of a call that is accepted after those before it, or of notes; `call` is its
    /// number, counted from 1, where notes without a call after them in their block count as one.
    #[error("damaged at call {call}, byte {at}")]
    Damaged { call: usize, at: usize },
    /// The store has these limits, which are not the wanted ones.
    #[error("the store has other limits: catches={catches},branches={branches}")]
    OtherLimits { catches: usize, branches: usize },
    /// The fault of the log file.
    #[error("{0}")]
    Store(StoreFault),
}

impl From<AllocError> for PersistenceFault {
    ghost from_gives = { λ _ result. result ≡ fault.Memory };

    fn from(_error: AllocError) -> PersistenceFault {
        PersistenceFault::Memory
    }
}

impl<T: Drop> From<AllocFailed<T>> for PersistenceFault {
    ghost from_gives = { λ _ result. result ≡ fault.Memory };

    fn from(_error: AllocFailed<T>) -> PersistenceFault {
        PersistenceFault::Memory
    }
}

impl From<StoreFault> for PersistenceFault {
    ghost from_gives = { λ why result. result ≡ fault_of why };

    fn from(fault: StoreFault) -> PersistenceFault {
        match fault {
            StoreFault::Memory => PersistenceFault::Memory,
            StoreFault::Damaged { texts: 0, .. } => PersistenceFault::NoStore,
            StoreFault::Damaged { texts, at } => PersistenceFault::Damaged { call: texts, at },
            other => PersistenceFault::Store(other),
        }
    }
}
