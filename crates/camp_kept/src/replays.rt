//! Replaying a book and its notes from the texts of entries.
ghost use Rattle.std.specs.Prelude.{◌≡◌, [], ◌∷◌, List, Option, ℕ, IfErr, IfOk};
ghost use Rattle.camp_kept.specs.Faults.{IsNoDiskFault, RefusesFile};
ghost use Rattle.camp_kept.specs.Replaying.{AreRecovered, AreReplayed, ExecutesCall, ReplaysText, new_with};
ghost use Rattle.camp_kept.specs.Titles.{CanBeLimits, title_of};
ghost use Rattle.camp_object.specs.Histories.{IsLegal};
ghost use Rattle.camp_object.specs.Objects.{begun};
ghost use Rattle.camp_repo.specs.Limits.{Bounds};
ghost use Rattle.camp_repo.specs.Objects.{repository};
ghost use Rattle.camp_store.specs.Blocks.{DecodesTo};
ghost use Rattle.camp_store.specs.Logs.{texts_of};

use crate::PersistenceFault;
use crate::entries::{add_notes, parse_entry};
use crate::titles::{limits_of, new_limits};
use camp_notes::NoteLog;
use camp_repo::{Book, Call, Limits, Object, State, new_book};
use std::alloc::{AllocError, Global};

/// The number of bytes of a block before its text: its mark and its head.
const BEFORE_TEXT: usize = 27;

/// Replays the entries with these texts on a new book. The first text is the title; if limits are wanted, it has to
/// contain them. Without texts the book is empty.
#[tactic(auto, using(crate::proofs::ReplayLemmas::none_recovered))]
pub(crate) fn replay(
    alloc: Global,
    texts: &[Vec<u8>],
    wanted: &Option<Limits>,
) -> Result<(Book<State>, NoteLog), PersistenceFault>
    ensures recovered { IfOk result (λ r. AreRecovered wanted.now (texts_of texts.now) r.0 r.1) }
    ensures refused { IfErr result (λ why. (file : List ℕ) → DecodesTo (texts_of texts.now) file → RefusesFile wanted.now why file) }
    ensures not_disk { IfErr result IsNoDiskFault }
{
    let Some((title, others)) = texts.split_first() else {
        return Ok((new_book(alloc, new_limits(wanted))?, NoteLog::new(alloc)));
    };
    let limits = limits_of(alloc, title, wanted)?;
    replay_all(alloc, limits, title, others)
}

// Replays on a new book the entries with these texts, which come after the title of a store with these limits.
fn replay_all(
    alloc: Global,
    limits: Limits,
    title: &[u8],
    texts: &[Vec<u8>],
) -> Result<(Book<State>, NoteLog), PersistenceFault>
    requires title { title.now ≡ title_of limits }
    requires range { CanBeLimits limits }
    ensures texts { IfOk result (λ r. AreReplayed limits (texts_of texts.now) r.0 r.1) }
    ensures refused { IfErr result (λ why. (wanted : Option Bounds) (file : List ℕ) → DecodesTo (title.now ∷ texts_of texts.now) file → RefusesFile wanted why file) }
    ensures not_disk { IfErr result IsNoDiskFault }
{
    let mut book = new_book(alloc, limits)?;
    let mut notes = NoteLog::new(alloc);
    replay_each(alloc, &mut book, &mut notes, title, texts)?;
    Ok((book, notes))
}

// Replays on a new book the entries with these texts, which come after a title. The fault contains the number of the
// first text that is no entry whose call is accepted, and its offset in the file.
fn replay_each(
    alloc: Global,
    book: &mut Book<State>,
    notes: &mut NoteLog,
    title: &[u8],
    texts: &[Vec<u8>],
) -> Result<(), PersistenceFault>
    requires new { book.old ≡ new_with book.old.first.limits [] }
    requires none { notes.old ≡ [] }
    requires title { title.now ≡ title_of book.old.first.limits }
    requires range { CanBeLimits book.old.first.limits }
    ensures texts { IfOk result (λ _. AreReplayed book.old.first.limits (texts_of texts.now) book.new notes.new) }
    ensures refused { IfErr result (λ why. (wanted : Option Bounds) (file : List ℕ) → DecodesTo (title.now ∷ texts_of texts.now) file → RefusesFile wanted why file) }
    ensures not_disk { IfErr result IsNoDiskFault }
{
    let mut call: usize = 1;
    let mut at = BEFORE_TEXT.saturating_add(title.len());
    for text in texts {
        if !replay_entry(alloc, book, notes, text)? {
            return Err(PersistenceFault::Damaged { call, at });
        }
        call = call.saturating_add(1);
        at = at.saturating_add(BEFORE_TEXT).saturating_add(text.len());
    }
    Ok(())
}

// Parses the text of an entry, adds its notes, and executes its call. True if it is an entry, and its call, if it has one,
// was accepted.
fn replay_entry(
    alloc: Global,
    book: &mut Book<State>,
    notes: &mut NoteLog,
    text: &[u8],
) -> Result<bool, AllocError>
    ensures replays { IfOk result (λ yes. ReplaysText book.old notes.old text.now yes book.new notes.new) }
    ensures legal { IsLegal (begun repository book.old.first) book.old.calls }
{
    let at = book.history().len();
    let Some((given, call)) = parse_entry(alloc, text)? else {
        return Ok(false);
    };
    add_notes(notes, at, &given)?;
    match &call {
        Some(call) => execute(book, call),
        None => Ok(true),
    }
}

// Executes a call. True if it was accepted.
#[tactic(auto, using(crate::proofs::ReplayLemmas::executes_call))]
fn execute(book: &mut Book<State>, call: &Call) -> Result<bool, AllocError>
    ensures { IfOk result (λ yes. ExecutesCall book.old call.now yes book.new) }
{
    match book.ask(0, call) {
        Ok(reply) => Ok(State::done_at(&reply).is_some()),
        Err(_) => Err(AllocError),
    }
}
