//! Disk operations: write with sync, and read of the durable bytes.
ghost use Rattle.std.specs.Prelude.{◌≡◌, ◌<◌, List, ℕ, length, IfErr, IfOk, OnOk, IsTrue};
ghost use Rattle.sqlite_disk.specs.Disk.{CountsFault, Only};
ghost use Rattle.camp_store.specs.Counting.{CountsFaults};
ghost use Rattle.camp_store.specs.Moments.{WriteBegun, WrittenAndSynced};
ghost use Rattle.camp_store.specs.Readings.{IsAccessFault};

use crate::StoreFault;
use sqlite_disk::Disk;
use std::alloc::Global;
use std::io;

/// Writes bytes and syncs them. They are durable after `Ok`.
pub(crate) fn write_and_sync<D: Disk>(disk: &mut D, at: usize, bytes: &[u8]) -> io::Result<()>
    requires usable { IsTrue (D.Disk.is_usable disk.old) }
    requires some { 0 < length bytes.now }
    ensures usable { OnOk result (IsTrue (D.Disk.is_usable disk.new)) }
    ensures clean { D.Disk.is_clean disk.new ≡ D.Disk.is_clean disk.old }
    ensures begun { WriteBegun D.Disk.seen D.Disk.may_leave at (length bytes.now) disk.old disk.new }
    ensures synced { OnOk result (WrittenAndSynced D.Disk.seen D.Disk.may_leave at bytes.now disk.old disk.new) }
    ensures faults { CountsFault result (D.Disk.faults disk.old) (D.Disk.faults disk.new) }
{
    disk.write_at(at, bytes)?;
    disk.sync()
}

/// Returns all bytes of the file, which are durable.
pub(crate) fn read_all<D: Disk>(alloc: Global, disk: &mut D) -> Result<Vec<u8>, StoreFault>
    requires usable { IsTrue (D.Disk.is_usable disk.old) }
    ensures usable { IfOk result (λ _. IsTrue (D.Disk.is_usable disk.new)) }
    ensures bytes { IfOk result (λ bytes. IsTrue (D.Disk.is_clean disk.new) → bytes.items ≡ D.Disk.seen disk.old) }
    ensures seen { D.Disk.seen disk.new ≡ D.Disk.seen disk.old }
    ensures crash { (c : List ℕ) → D.Disk.may_leave disk.new c → D.Disk.may_leave disk.old c }
    ensures synced { IfOk result (λ _. Only (D.Disk.seen disk.new) (D.Disk.may_leave disk.new)) }
    ensures clean { IsTrue (D.Disk.is_clean disk.new) → IsTrue (D.Disk.is_clean disk.old) }
    ensures fault { IfErr result IsAccessFault }
    ensures faults { CountsFaults result (D.Disk.faults disk.old) (D.Disk.faults disk.new) }
{
    disk.sync()?;
    let length = disk.len()?;
    let mut bytes = Vec::from_elem(alloc, 0, length)?;
    if length > 0 {
        disk.read_at(0, &mut bytes)?;
    }
    Ok(bytes)
}
