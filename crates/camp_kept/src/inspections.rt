//! Inspecting the bytes of a file.
ghost use Rattle.std.specs.Prelude.{None, IfErr, IfOk};
ghost use Rattle.camp_kept.specs.TornTails.{IsInspection};
ghost use Rattle.camp_kept.specs.Faults.{RefusesFile};

use crate::PersistenceFault;
use crate::openings::{replay_reading, torn_tail_len};
use camp_store::{Digest, decode};
use std::alloc::Global;

/// What a file contains.
#[derive(Clone, Copy, Debug)]
pub struct Inspection {
    /// The number of calls.
    pub calls: usize,
    /// The number of notes.
    pub notes: usize,
    /// The digest of their texts.
    pub digest: Digest,
    /// The length of the torn tail: the bytes at the end that do not count.
    pub torn_tail_len: usize,
}

/// Inspects the bytes of a file.
pub fn inspect(alloc: Global, bytes: &[u8]) -> Result<Inspection, PersistenceFault>
    ensures decoded { IfOk result (λ found. IsInspection bytes.now found) }
    ensures refused { IfErr result (λ why. RefusesFile None why bytes.now) }
{
    let reading = decode(alloc, bytes)?;
    let (book, notes) = replay_reading(alloc, &reading, &None)?;
    Ok(Inspection {
        calls: book.history().len(),
        notes: notes.placed().len(),
        digest: reading.digest,
        torn_tail_len: torn_tail_len(&reading),
    })
}
