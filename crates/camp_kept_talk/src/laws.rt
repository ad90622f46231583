//! The laws of conversations over a durable repository.
ghost use Rattle.camp_kept.specs.declared.repositories.DurableRepository.{DurableRepository as SpecRepository};
ghost use Rattle.camp_kept_talk.specs.Laws.{StoresKeepPromises};

use camp_kept::{Disk, PersistenceFault};
use camp_talk::{Backend, Framing};

/// A conversation over a durable repository by which no commit is possible writes nothing, does not use the disk, and
/// its fault is that of a commit. A disk fault is reported only if a disk call has failed. After a commit that has
/// failed, whatever a crash leaves has each call that was answered.
pub fn stores_keep_promises<
    D: Disk,
    Q,
    A: Drop,
    B: Backend<Q, A, CommitFault = PersistenceFault>,
    F: Framing<Q, A>,
>()
    ensures law { (kept_of : B → SpecRepository D) → StoresKeepPromises D.Disk.seen D.Disk.may_leave D.Disk.faults D.Disk.is_clean B.Backend F.Framing kept_of }
{}
