//! The laws of files and of appends.
ghost use Rattle.camp_store.specs.Blocks.{FilesDecodeToOneList};
ghost use Rattle.camp_store.specs.Moments.{BatchesAreAtomic};
ghost use Rattle.camp_store.specs.Readings.{DamagedFilesDoNotDecode};

use crate::Disk;

/// A file decodes to at most one list of texts.
pub fn files_decode_to_one_list()
    ensures law { FilesDecodeToOneList }
{}

/// A damaged file does not decode to any texts.
pub fn damaged_files_do_not_decode()
    ensures law { DamagedFilesDoNotDecode }
{}

/// Appends are atomic. At each moment of the two writes and two syncs of [`Log::append`](crate::Log::append) a crash
/// leaves the texts from before, with all of the batch or none of it; after the second sync, with all.
#[tactic(auto, using(crate::proofs::Batches::each_moment))]
pub fn batches_are_atomic_at_each_moment<D: Disk>()
    ensures law { BatchesAreAtomic D.Disk.seen D.Disk.may_leave }
{}
