//! The durable repository.
ghost use Rattle.std.specs.Prelude.{◌≡◌, ◌⊎◌, ◌+◌, ◌-◌, List, Err, false, length, IfErr, IfOk, IsTrue, MatchResult, OnOk, Option, ℕ};
ghost use Rattle.camp_kept.specs.Accepting.{StoreContents};
ghost use Rattle.camp_kept.specs.Faults.{CountsDiskFaults, IsCommitFault, IsContentFault, IsRefusedFile, RefusesToCommit, RefusesToOpen, ReportsDiskFault};
ghost use Rattle.camp_kept.specs.declared.faults.PersistenceFault.TheVariants as fault;
ghost use Rattle.camp_kept.specs.Persisting.{IsStoreOf, IsUntouched, LeavesCalls};
ghost use Rattle.camp_kept.specs.Titles.{AreAsWanted, new_limits};
ghost use Rattle.camp_store.specs.declared.faults.StoreFault.TheVariants as store_fault;

use crate::PersistenceFault;
use crate::openings::{ensure_title, recover, torn_tail_len};
use crate::texts::{are_in_place, render_entries};
use crate::titles::new_limits;
use camp_notes::NoteLog;
use camp_repo::{Book, Limits, State};
use camp_store::{Disk, Log, StoreFault};
use std::alloc::Global;

/// A book and notes with a disk. All accepted calls and all notes are durable after each commit.
#[derive(Drop)]
pub struct DurableRepository<D: Disk> {
    /// The book. Execute calls on it; do not replace it by another: `commit` refuses one with fewer calls than are
    /// durable, and nothing is promised of one with as many.
    pub book: Book<State>,
    /// The notes, each with the number of calls before it. Add one with the number of calls that the book has; `commit`
    /// refuses fewer notes than are durable, and a note with another number of calls.
    pub notes: NoteLog,
    log: Log<D>,
    /// The number of calls that are known to be durable.
    durable_count: usize,
    /// The number of notes that are known to be durable.
    durable_notes: usize,
    /// The length of the torn tail that the file had when it was opened, in bytes.
    torn_tail_len: usize,
}

impl<D: Disk> DurableRepository<D> {
    ghost use Rattle.camp_kept.specs.TornTails.{HasTornTail};
    ghost use Rattle.camp_kept.specs.Persisting.{AreFirstCalls, AreTexts, HasFewerCalls, HasMisplacedNotes, LeavesRepository, PersistsCalls, accepted_by, disk_in, durable_count_in, durable_notes_in, may_commit, torn_tail_len_in};

    /// Opens the repository that is persisted on a disk; creates a store on an empty one. If limits are wanted, an
    /// existing store has to have them, and a new store gets them; else a new store gets the default ones. A crash
    /// during this call loses no durable call.
    pub fn open(
        alloc: Global,
        mut disk: D,
        wanted: Option<Limits>,
    ) -> Result<DurableRepository<D>, (PersistenceFault, D)>
        ensures persists { IfOk result (λ repository. IsTrue (D.Disk.is_clean (disk_in repository)) → PersistsCalls D.Disk.seen D.Disk.may_leave (accepted_by repository) repository) }
        ensures decoded { IfOk result (λ repository. IsTrue (D.Disk.is_clean (disk_in repository)) → (texts : List (List ℕ))
            × AreTexts (new_limits wanted) texts (accepted_by repository) × HasTornTail texts (D.Disk.seen disk) (torn_tail_len_in repository)) }
        ensures wanted { IfOk result (λ repository. AreAsWanted wanted (accepted_by repository).limits) }
        ensures refused { IfErr result (λ e. IsTrue (D.Disk.is_clean e.1) → RefusesToOpen (D.Disk.is_usable disk) wanted e.0 (D.Disk.seen disk)) }
        // A file that is not a store, is damaged, or has other limits, stays unchanged.
        ensures untouched { IfErr result (λ e. IsContentFault e.0 → IsUntouched D.Disk.seen D.Disk.may_leave disk e.1) }
        // So does such a file if another fault comes first, as when memory runs out.
        ensures preserved { IfErr result (λ e. IsTrue (D.Disk.is_clean e.1) → IsRefusedFile wanted (D.Disk.seen disk) → IsUntouched D.Disk.seen D.Disk.may_leave disk e.1) }
        ensures known { IfOk result (λ repository. durable_count_in repository ≡ length (accepted_by repository).calls) }
        ensures noted { IfOk result (λ repository. durable_notes_in repository ≡ length (accepted_by repository).notes) }
        ensures open_to_commits { IfOk result (λ repository. IsTrue (may_commit repository)) }
        ensures faults { IfOk result (λ repository. D.Disk.faults (disk_in repository) ≡ D.Disk.faults disk) }
        ensures faults_err { IfErr result (λ e. ReportsDiskFault e.0 (D.Disk.faults disk) (D.Disk.faults e.1)) }
        // A crash leaves a file with the same contents.
        ensures crash { IfOk result (λ repository. (stored : StoreContents) → LeavesCalls D.Disk.seen D.Disk.may_leave (new_limits wanted) stored disk
            → IsTrue (D.Disk.is_clean (disk_in repository)) → LeavesCalls D.Disk.seen D.Disk.may_leave (new_limits wanted) stored (disk_in repository)) }
        ensures crash_err { IfErr result (λ e. (stored : StoreContents) → LeavesCalls D.Disk.seen D.Disk.may_leave (new_limits wanted) stored disk
            → IsTrue (D.Disk.is_clean e.1) → LeavesCalls D.Disk.seen D.Disk.may_leave (new_limits wanted) stored e.1) }
    {
        let (reading, book, notes) = match recover(alloc, &mut disk, &wanted) {
            Ok(found) => found,
            Err(fault) => return Err((fault, disk)),
        };
        let durable_count = book.history().len();
        let durable_notes = notes.placed().len();
        let log = match Log::open(disk, &reading) {
            Ok(log) => log,
            Err((fault, disk)) => return Err((PersistenceFault::Store(fault), disk)),
        };
        match ensure_title(alloc, log, &reading.texts, new_limits(&wanted)) {
            Ok(log) => Ok(DurableRepository {
                durable_count,
                durable_notes,
                torn_tail_len: torn_tail_len(&reading),
                book,
                notes,
                log,
            }),
            Err(failed) => Err(failed),
        }
    }

    /// Returns the length of the torn tail that the file had when it was opened, in bytes.
    pub fn torn_tail_len(&self) -> usize
        ensures { result ≡ torn_tail_len_in self.now }
    {
        self.torn_tail_len
    }

    /// Returns the number of accepted calls and notes that are not known to be durable, also after a commit that has
    /// failed.
    pub fn waiting(&self) -> usize
        ensures known { result ≡ (length (accepted_by self.now).calls - durable_count_in self.now) + (length (accepted_by self.now).notes - durable_notes_in self.now) }
        ensures durable { (stored : StoreContents) → PersistsCalls D.Disk.seen D.Disk.may_leave stored self.now
            → result ≡ (length (accepted_by self.now).calls - length stored.calls) + (length (accepted_by self.now).notes - length stored.notes) }
    {
        self.book.history().len().saturating_sub(self.durable_count)
            + self.notes.placed().len().saturating_sub(self.durable_notes)
    }

    /// Persists all accepted calls of the book, and all notes. After `Ok` each crash leaves a file with all of them. After
    /// an error a crash leaves those that were durable before the call, or all. If the disk has failed, no later commit
    /// uses it: each returns `Failed` and changes nothing; and so does a commit of fewer calls or notes than are durable,
    /// which are others, or of a note that is misplaced.
    pub fn commit(&mut self, alloc: Global) -> Result<(), PersistenceFault>
        ensures acknowledged { (stored : StoreContents) → AreFirstCalls stored self.old → PersistsCalls D.Disk.seen D.Disk.may_leave stored self.old
            → OnOk result (PersistsCalls D.Disk.seen D.Disk.may_leave (accepted_by self.old) self.new) }
        ensures crash { (stored : StoreContents) → AreFirstCalls stored self.old → PersistsCalls D.Disk.seen D.Disk.may_leave stored self.old
            → (c : List ℕ) → D.Disk.may_leave (disk_in self.new) c → IsStoreOf stored c ⊎ IsStoreOf (accepted_by self.old) c }
        ensures book { self.new.book ≡ self.old.book }
        ensures notes { self.new.notes ≡ self.old.notes }
        ensures leaves { IfErr result (λ why. LeavesRepository why self.old self.new) }
        ensures stopped { may_commit self.old ≡ false → (result ≡ Err (fault.Store store_fault.Failed)) × (self.new ≡ self.old) }
        ensures fewer { HasFewerCalls self.old → (result ≡ Err (fault.Store store_fault.Failed)) × (self.new ≡ self.old) }
        ensures misplaced { HasMisplacedNotes self.old → (result ≡ Err (fault.Store store_fault.Failed)) × (self.new ≡ self.old) }
        ensures refused { IfErr result (RefusesToCommit D.Disk.is_usable self.old) }
        ensures tail { torn_tail_len_in self.new ≡ torn_tail_len_in self.old }
        ensures known { MatchResult result (λ _. durable_count_in self.new ≡ length (accepted_by self.new).calls) (λ _. durable_count_in self.new ≡ durable_count_in self.old) }
        ensures noted { MatchResult result (λ _. durable_notes_in self.new ≡ length (accepted_by self.new).notes) (λ _. durable_notes_in self.new ≡ durable_notes_in self.old) }
        ensures faults { CountsDiskFaults result (D.Disk.faults (disk_in self.old)) (D.Disk.faults (disk_in self.new)) }
        ensures fault { IfErr result IsCommitFault }
        ensures clean { D.Disk.is_clean (disk_in self.new) ≡ D.Disk.is_clean (disk_in self.old) }
    {
        if !self.log.may_append() {
            return Err(PersistenceFault::Store(StoreFault::Failed));
        }
        let history = self.book.history();
        let count = history.len();
        if count < self.durable_count {
            return Err(PersistenceFault::Store(StoreFault::Failed));
        }
        let notes = self.notes.placed();
        let given = notes.len();
        if given < self.durable_notes {
            return Err(PersistenceFault::Store(StoreFault::Failed));
        }
        let waiting = &notes[self.durable_notes..];
        if !are_in_place(waiting, self.durable_count, count) {
            return Err(PersistenceFault::Store(StoreFault::Failed));
        }
        let calls = &history[self.durable_count..];
        let texts = render_entries(alloc, self.durable_count, calls, waiting)?;
        self.log.append(alloc, &texts)?;
        self.durable_count = count;
        self.durable_notes = given;
        Ok(())
    }
}
