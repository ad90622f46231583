//! Opening a store.
ghost use Rattle.std.specs.Prelude.{◌≡◌, ◌≤◌, ◌∷◌, [], List, Option, ℕ, length, IfErr, IfOk, IsTrue};
ghost use Rattle.camp_kept.specs.Accepting.{empty_within};
ghost use Rattle.camp_kept.specs.TornTails.{HasTornTail};
ghost use Rattle.camp_kept.specs.Openings.{LeavesTexts, PersistsTitled};
ghost use Rattle.camp_kept.specs.Faults.{CountsDiskFaults, IsContentFault, IsNoDiskFault, IsTitleFault, RefusesFile, RefusesToOpen, ReportsDiskFault};
ghost use Rattle.camp_kept.specs.Persisting.{DecodesToCalls, max_untitled_len};
ghost use Rattle.camp_kept.specs.declared.faults.PersistenceFault.TheVariants as fault;
ghost use Rattle.camp_kept.specs.Replaying.{AreRecovered};
ghost use Rattle.camp_kept.specs.Titles.{CanBeLimits, title_of};
ghost use Rattle.camp_repo.specs.Limits.{Bounds};
ghost use Rattle.camp_store.specs.Logs.{IsAppendable, PersistsTexts, disk_of, may_append, texts_of};
ghost use Rattle.camp_store.specs.Readings.{IsDecodedFrom};
ghost use Rattle.sqlite_disk.specs.Disk.{Only};

use crate::replays::replay;
use crate::titles::render_title;
use crate::{MAX_UNTITLED_LEN, PersistenceFault};
use camp_notes::NoteLog;
use camp_repo::{Book, Limits, State};
use camp_store::{Disk, Log, Reading, read};
use std::alloc::Global;

/// Reads what a disk persists, and replays the calls and notes. If limits are wanted, the store has to have them.
pub(crate) fn recover<D: Disk>(
    alloc: Global,
    disk: &mut D,
    wanted: &Option<Limits>,
) -> Result<(Reading, Book<State>, NoteLog), PersistenceFault>
    ensures reading { IfOk result (λ r. IsTrue (D.Disk.is_clean disk.new) → IsDecodedFrom (D.Disk.seen disk.old) r.0) }
    ensures recovered { IfOk result (λ r. AreRecovered wanted.now (texts_of r.0.texts.items) r.1 r.2) }
    ensures refused { IfErr result (λ why. IsTrue (D.Disk.is_clean disk.new) → RefusesToOpen (D.Disk.is_usable disk.old) wanted.now why (D.Disk.seen disk.old)) }
    ensures short { IfOk result (λ r. texts_of r.0.texts.items ≡ [] → r.0.tail_len ≤ max_untitled_len) }
    ensures usable { IfOk result (λ _. IsTrue (D.Disk.is_usable disk.new)) }
    ensures seen { D.Disk.seen disk.new ≡ D.Disk.seen disk.old }
    ensures crash { (c : List ℕ) → D.Disk.may_leave disk.new c → D.Disk.may_leave disk.old c }
    ensures synced { IfOk result (λ r. Only (D.Disk.seen disk.new) (D.Disk.may_leave disk.new)) }
    ensures clean { IsTrue (D.Disk.is_clean disk.new) → IsTrue (D.Disk.is_clean disk.old) }
    ensures faults { CountsDiskFaults result (D.Disk.faults disk.old) (D.Disk.faults disk.new) }
{
    let reading = read(alloc, disk)?;
    let (book, notes) = replay_reading(alloc, &reading, wanted)?;
    Ok((reading, book, notes))
}

/// Replays the calls and notes whose texts were read. If limits are wanted, the store has to have them.
pub(crate) fn replay_reading(
    alloc: Global,
    reading: &Reading,
    wanted: &Option<Limits>,
) -> Result<(Book<State>, NoteLog), PersistenceFault>
    ensures recovered { IfOk result (λ r. AreRecovered wanted.now (texts_of reading.now.texts.items) r.0 r.1) }
    ensures refused { IfErr result (λ why. (file : List ℕ) → IsDecodedFrom file reading.now → RefusesFile wanted.now why file) }
    ensures short { IfOk result (λ _. texts_of reading.now.texts.items ≡ [] → reading.now.tail_len ≤ max_untitled_len) }
    ensures not_disk { IfErr result IsNoDiskFault }
{
    if reading.texts.is_empty() && reading.tail_len > MAX_UNTITLED_LEN {
        return Err(PersistenceFault::NoStore);
    }
    replay(alloc, &reading.texts, wanted)
}

/// Returns the length of the torn tail of a file: the bytes at its end that do not count.
pub(crate) fn torn_tail_len(reading: &Reading) -> usize
    ensures { (file : List ℕ) → IsDecodedFrom file reading.now → (texts_of reading.now.texts.items ≡ [] → reading.now.tail_len ≤ max_untitled_len)
        → HasTornTail (texts_of reading.now.texts.items) file result }
{
    if reading.is_closed && reading.tail_len > 0 {
        reading.tail_len - 1
    } else {
        reading.tail_len
    }
}

/// Appends the title of a new store with these limits, unless there is a text already.
#[tactic(auto, using(crate::proofs::Opening::titled_already))]
pub(crate) fn ensure_title<D: Disk>(
    alloc: Global,
    log: Log<D>,
    texts: &[Vec<u8>],
    limits: Limits,
) -> Result<Log<D>, (PersistenceFault, D)>
    ensures persists { IfOk result (λ new. PersistsTexts D.Disk.seen D.Disk.may_leave (texts_of texts.now) log
        → PersistsTitled D.Disk.seen D.Disk.may_leave limits (texts_of texts.now) new) }
    ensures crash { IfErr result (λ e. LeavesTexts D.Disk.seen D.Disk.may_leave limits (texts_of texts.now) log e.1) }
    ensures clean { IfOk result (λ new. D.Disk.is_clean (disk_of new) ≡ D.Disk.is_clean (disk_of log)) }
    ensures clean_err { IfErr result (λ e. D.Disk.is_clean e.1 ≡ D.Disk.is_clean (disk_of log)) }
    ensures untitled { IfErr result (λ e. PersistsTexts D.Disk.seen D.Disk.may_leave (texts_of texts.now) log → IsAppendable D.Disk.is_usable log → IsTitleFault e.0) }
    ensures not_contents { IfErr result (λ e. ¬ (IsContentFault e.0)) }
    ensures may_append { IfOk result (λ new. IsTrue (may_append log) → IsTrue (may_append new)) }
    ensures faults { IfOk result (λ new. D.Disk.faults (disk_of new) ≡ D.Disk.faults (disk_of log)) }
    ensures faults_err { IfErr result (λ e. ReportsDiskFault e.0 (D.Disk.faults (disk_of log)) (D.Disk.faults e.1)) }
{
    if !texts.is_empty() {
        return Ok(log);
    }
    append_title(alloc, log, limits)
}

#[tactic(auto, using(crate::proofs::Opening::titled))]
fn append_title<D: Disk>(
    alloc: Global,
    mut log: Log<D>,
    limits: Limits,
) -> Result<Log<D>, (PersistenceFault, D)>
    ensures persists { IfOk result (λ new. PersistsTexts D.Disk.seen D.Disk.may_leave [] log
        → PersistsTitled D.Disk.seen D.Disk.may_leave limits [] new) }
    ensures crash { IfErr result (λ e. PersistsTexts D.Disk.seen D.Disk.may_leave [] log
        → length (D.Disk.seen (disk_of log)) ≤ max_untitled_len → (c : List ℕ) → D.Disk.may_leave e.1 c → DecodesToCalls limits (empty_within limits) c) }
    ensures clean { IfOk result (λ new. D.Disk.is_clean (disk_of new) ≡ D.Disk.is_clean (disk_of log)) }
    ensures clean_err { IfErr result (λ e. D.Disk.is_clean e.1 ≡ D.Disk.is_clean (disk_of log)) }
    ensures untitled { IfErr result (λ e. PersistsTexts D.Disk.seen D.Disk.may_leave [] log → IsAppendable D.Disk.is_usable log → IsTitleFault e.0) }
    ensures not_contents { IfErr result (λ e. ¬ (IsContentFault e.0)) }
    ensures may_append { IfOk result (λ new. IsTrue (may_append log) → IsTrue (may_append new)) }
    ensures faults { IfOk result (λ new. D.Disk.faults (disk_of new) ≡ D.Disk.faults (disk_of log)) }
    ensures faults_err { IfErr result (λ e. ReportsDiskFault e.0 (D.Disk.faults (disk_of log)) (D.Disk.faults e.1)) }
{
    match title_texts(alloc, limits) {
        Ok(texts) => match log.append(alloc, &texts) {
            Ok(()) => Ok(log),
            Err(fault) => Err((fault.into(), log.into_disk())),
        },
        Err(fault) => Err((fault, log.into_disk())),
    }
}

fn title_texts(alloc: Global, limits: Limits) -> Result<Vec<Vec<u8>>, PersistenceFault>
    ensures title { IfOk result (λ texts. texts_of texts.items ≡ title_of limits ∷ []) }
    ensures range { IfOk result (λ _. CanBeLimits limits) }
    ensures memory { IfErr result (λ why. why ≡ fault.Memory) }
{
    let mut texts = Vec::new(alloc);
    texts.push(render_title(alloc, &limits)?)?;
    Ok(texts)
}
