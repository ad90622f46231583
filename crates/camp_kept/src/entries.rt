//! The texts of a store after its title: entries, each of which has notes, and after them a call, if there is one.
ghost use Rattle.std.specs.Prelude.{◌≡◌, ◌∷◌, ◌++◌, IfOk, List, MatchOption, OnOk, ℕ};
ghost use Rattle.std.specs.List.{AllByRecursion};
ghost use Rattle.camp_kept.specs.Entries.{StoredEntry, placed_at};
ghost use Rattle.camp_kept.specs.Parsing.{IsStoredEntryOf, IsNoStoredEntry};
ghost use Rattle.camp_notes.specs.Faults.{AreOnlyNotesBefore};

use camp_notes::{Note, NoteFault, NoteLog, split_notes};
use camp_repo::Call;
use camp_script::parse_call;
use std::alloc::{AllocError, Global};

/// Parses the text of an entry: its notes, and the call after them, if there is one; `None` if no entry has this text.
pub(crate) fn parse_entry(
    alloc: Global,
    text: &[u8],
) -> Result<Option<(Vec<Note>, Option<Call>)>, AllocError>
    ensures exact { IfOk result (λ found. MatchOption found
        (IsNoStoredEntry text.now)
        (λ parts. IsStoredEntryOf text.now (record { notes = parts.0.items; call = parts.1 }))) }
{
    match split_notes(alloc, text) {
        Ok((notes, rest)) => entry_of(alloc, notes, rest),
        Err(NoteFault::Line { .. }) => Ok(None),
        Err(NoteFault::Memory) => Err(AllocError),
    }
}

// Makes an entry of its notes and the text of its call, which is empty if it has no call.
#[tactic(auto, using(crate::proofs::EntryLemmas::notes_alone, crate::proofs::EntryLemmas::nothing, crate::proofs::EntryLemmas::called, crate::proofs::EntryLemmas::uncalled))]
fn entry_of(
    alloc: Global,
    notes: Vec<Note>,
    rest: &[u8],
) -> Result<Option<(Vec<Note>, Option<Call>)>, AllocError>
    ensures exact { (text : List ℕ) → AreOnlyNotesBefore text notes.items rest.now → IfOk result (λ found. MatchOption found
        (IsNoStoredEntry text)
        (λ parts. IsStoredEntryOf text (record { notes = parts.0.items; call = parts.1 }))) }
{
    if rest.is_empty() {
        if notes.is_empty() {
            return Ok(None);
        }
        return Ok(Some((notes, None)));
    }
    match parse_call(alloc, rest)? {
        Some(call) => Ok(Some((notes, Some(call)))),
        None => Ok(None),
    }
}

/// Adds notes to a log, each after this number of calls.
pub(crate) fn add_notes(log: &mut NoteLog, at: usize, notes: &[Note]) -> Result<(), AllocError>
    ensures { OnOk result (log.new ≡ log.old ++ placed_at at notes.now) }
{
    for note in notes {
        log.push(at, note.try_clone()?)?;
    }
    Ok(())
}
