//! The log: an open file of texts to which batches are appended.
ghost use Rattle.std.specs.Prelude.{◌≡◌, ◌<◌, ◌+◌, ◌-◌, ◌^◌, ◌++◌, List, ℕ, Err, false, length, IfOk, IfErr, IsTrue, OnOk};
ghost use Rattle.sqlite_disk.specs.Disk.{CountsFault, Only};
ghost use Rattle.camp_store.specs.Blocks.{DecodesTo, chain};
ghost use Rattle.camp_store.specs.Counting.{CountsFaults, ReportsFault};
ghost use Rattle.camp_store.specs.Logs.{IsBatch, IsBeforeOrAfter, IsMarkFault, Persists, StaysWithin, texts_of};
ghost use Rattle.camp_store.specs.declared.faults.StoreFault.TheVariants as fault;
ghost use Rattle.camp_store.specs.Readings.{IsDecodedFrom};

use crate::blocks::{CLOSED_MARK, Digest, OPEN_MARK, encode};
use crate::disks::write_and_sync;
use crate::{Disk, Reading, StoreFault};
use std::alloc::Global;
use std::io;

/// An open file of texts to which more can be appended.
#[derive(Drop)]
pub struct Log<D: Disk> {
    disk: D,
    length: usize,
    digest: Digest,
    has_failed: bool,
}

// Writes a closed mark after the texts that were read, unless there is one, and syncs it.
fn write_closed_mark<D: Disk>(disk: &mut D, reading: &Reading) -> Result<(), StoreFault>
    ensures persists { OnOk result (IsDecodedFrom (D.Disk.seen disk.old) reading.now → Only (D.Disk.seen disk.old) (D.Disk.may_leave disk.old)
        → Persists D.Disk.seen D.Disk.may_leave (texts_of reading.now.texts.items) disk.new reading.now.length reading.now.digest) }
    ensures crash { IsDecodedFrom (D.Disk.seen disk.old) reading.now → Only (D.Disk.seen disk.old) (D.Disk.may_leave disk.old)
        → (c : List ℕ) → D.Disk.may_leave disk.new c → DecodesTo (texts_of reading.now.texts.items) c }
    ensures clean { D.Disk.is_clean disk.new ≡ D.Disk.is_clean disk.old }
    ensures long { Only (D.Disk.seen disk.old) (D.Disk.may_leave disk.old)
        → StaysWithin D.Disk.seen D.Disk.may_leave (reading.now.length + 1) disk.old disk.new }
    ensures usable { OnOk result (IsTrue (D.Disk.is_usable disk.old) → IsTrue (D.Disk.is_usable disk.new)) }
    ensures fault { IfErr result (IsMarkFault (D.Disk.is_usable disk.old)) }
    ensures faults { CountsFaults result (D.Disk.faults disk.old) (D.Disk.faults disk.new) }
{
    if reading.is_closed {
        return Ok(());
    }
    if !disk.may_be_used() {
        return Err(StoreFault::Failed);
    }
    write_and_sync(disk, reading.length, &[CLOSED_MARK])?;
    Ok(())
}

impl<D: Disk> Log<D> {
    ghost use Rattle.camp_store.specs.Logs.{IsAppendFault, IsAppendable, LeavesLog, PersistsTexts, disk_of, end_offset, may_append};

    /// Opens a file that was read. Writes a closed mark after the texts if there is none, and changes nothing else.
    pub fn open(mut disk: D, reading: &Reading) -> Result<Log<D>, (StoreFault, D)>
        ensures persists { IfOk result (λ log. IsDecodedFrom (D.Disk.seen disk) reading.now → Only (D.Disk.seen disk) (D.Disk.may_leave disk)
            → PersistsTexts D.Disk.seen D.Disk.may_leave (texts_of reading.now.texts.items) log) }
        // A crash leaves the same texts.
        ensures crash { IfErr result (λ e. IsDecodedFrom (D.Disk.seen disk) reading.now → Only (D.Disk.seen disk) (D.Disk.may_leave disk)
            → (c : List ℕ) → D.Disk.may_leave e.1 c → DecodesTo (texts_of reading.now.texts.items) c) }
        ensures clean { IfOk result (λ log. D.Disk.is_clean (disk_of log) ≡ D.Disk.is_clean disk) }
        ensures clean_err { IfErr result (λ e. D.Disk.is_clean e.1 ≡ D.Disk.is_clean disk) }
        // The file is not longer than its texts and the mark, unless it was before.
        ensures long { IfOk result (λ log. Only (D.Disk.seen disk) (D.Disk.may_leave disk)
            → StaysWithin D.Disk.seen D.Disk.may_leave (reading.now.length + 1) disk (disk_of log)) }
        ensures long_err { IfErr result (λ e. Only (D.Disk.seen disk) (D.Disk.may_leave disk)
            → StaysWithin D.Disk.seen D.Disk.may_leave (reading.now.length + 1) disk e.1) }
        ensures usable { IfOk result (λ log. IsTrue (D.Disk.is_usable disk) → IsAppendable D.Disk.is_usable log) }
        ensures fault { IfErr result (λ e. IsMarkFault (D.Disk.is_usable disk) e.0) }
        ensures may_append { IfOk result (λ log. IsTrue (may_append log)) }
        ensures faults { IfOk result (λ log. D.Disk.faults (disk_of log) ≡ D.Disk.faults disk) }
        ensures faults_err { IfErr result (λ e. ReportsFault e.0 (D.Disk.faults disk) (D.Disk.faults e.1)) }
    {
        match write_closed_mark(&mut disk, reading) {
            Ok(()) => Ok(Log {
                disk,
                length: reading.length,
                digest: reading.digest,
                has_failed: false,
            }),
            Err(fault) => Err((fault, disk)),
        }
    }

    pub fn disk(&self) -> &D
        ensures { result.now ≡ disk_of self.now }
    {
        &self.disk
    }

    /// True if no append has failed at the disk. If one has, `append` returns `Failed` from then on.
    pub fn may_append(&self) -> bool
        ensures { result ≡ may_append self.now }
    {
        !self.has_failed
    }

    pub fn into_disk(self) -> D
        ensures { result ≡ disk_of self }
    {
        let Log { disk, .. } = self;
        disk
    }

    /// Appends a batch of texts atomically. `Ok` acknowledges them: each crash from then on leaves a file with all of
    /// them. After out of memory, or for a text that is too long, nothing has changed. After any other error nothing
    /// more is persisted, and the file has to be opened again.
    pub fn append(&mut self, alloc: Global, texts: &[Vec<u8>]) -> Result<(), StoreFault>
        ensures acknowledged { (old : List (List ℕ)) → PersistsTexts D.Disk.seen D.Disk.may_leave old self.old
            → OnOk result (PersistsTexts D.Disk.seen D.Disk.may_leave (old ++ texts_of texts.now) self.new) }
        // A crash leaves the texts from before the call, with all of the new ones or none of them.
        ensures crash { (old : List (List ℕ)) → PersistsTexts D.Disk.seen D.Disk.may_leave old self.old
            → (c : List ℕ) → D.Disk.may_leave (disk_of self.new) c → IsBeforeOrAfter old (texts_of texts.now) c }
        ensures long { (old : List (List ℕ)) → PersistsTexts D.Disk.seen D.Disk.may_leave old self.old
            → StaysWithin D.Disk.seen D.Disk.may_leave (end_offset self.old (texts_of texts.now)) (disk_of self.old) (disk_of self.new) }
        ensures clean { D.Disk.is_clean (disk_of self.new) ≡ D.Disk.is_clean (disk_of self.old) }
        ensures fault { IfErr result (λ why. LeavesLog why self.old self.new) }
        ensures refused { IfErr result (IsAppendFault D.Disk.is_usable self.old (texts_of texts.now)) }
        ensures stopped { may_append self.old ≡ false → (result ≡ Err fault.Failed) × (self.new ≡ self.old) }
        ensures may_append { OnOk result (IsTrue (may_append self.new)) }
        ensures faults { CountsFaults result (D.Disk.faults (disk_of self.old)) (D.Disk.faults (disk_of self.new)) }
    {
        if self.has_failed || !self.disk.may_be_used() {
            return Err(StoreFault::Failed);
        }
        if texts.is_empty() {
            return Ok(());
        }
        let (bytes, digest) = encode(alloc, &self.digest, texts)?;
        let Some(grown) = self.length.checked_add(bytes.len()) else {
            return Err(StoreFault::TooLong);
        };
        match write_batch(&mut self.disk, self.length, &bytes) {
            Ok(()) => {
                self.length = grown - 1;
                self.digest = digest;
                Ok(())
            }
            Err(error) => {
                self.has_failed = true;
                Err(StoreFault::Disk(error))
            }
        }
    }
}

// Writes the blocks of a batch after the closed mark, which is at this offset. The closed mark is replaced last, when
// all blocks are durable, so they all begin to count at once.
fn write_batch<D: Disk>(disk: &mut D, at: usize, bytes: &[u8]) -> io::Result<()>
    requires usable { IsTrue (D.Disk.is_usable disk.old) }
    requires some { 1 < length bytes.now }
    requires room { at + length bytes.now < 2 ^ 64 }
    ensures acknowledged { (old new : List (List ℕ)) (digest : List ℕ) → IsBatch digest new bytes.now
        → Persists D.Disk.seen D.Disk.may_leave old disk.old at digest
        → OnOk result (Persists D.Disk.seen D.Disk.may_leave (old ++ new) disk.new (at + length bytes.now - 1) (chain digest new)) }
    ensures crash { (old new : List (List ℕ)) (digest : List ℕ) → IsBatch digest new bytes.now
        → Persists D.Disk.seen D.Disk.may_leave old disk.old at digest
        → (c : List ℕ) → D.Disk.may_leave disk.new c → IsBeforeOrAfter old new c }
    ensures long { Only (D.Disk.seen disk.old) (D.Disk.may_leave disk.old)
        → StaysWithin D.Disk.seen D.Disk.may_leave (at + length bytes.now) disk.old disk.new }
    ensures clean { D.Disk.is_clean disk.new ≡ D.Disk.is_clean disk.old }
    ensures faults { CountsFault result (D.Disk.faults disk.old) (D.Disk.faults disk.new) }
{
    write_and_sync(disk, at + 1, &bytes[1..])?;
    write_and_sync(disk, at, &[OPEN_MARK])?;
    Ok(())
}
