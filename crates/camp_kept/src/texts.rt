//! Rendering calls and notes as the texts of entries.
ghost use Rattle.std.specs.Prelude.{◌≡◌, ◌↔◌, ◌<◌, ◌++◌, ◌+◌, ◌^◌, IfOk, IsTrue, length, ℕ};
ghost use Rattle.std.specs.List.{AllByRecursion};
ghost use Rattle.camp_kept.specs.Entries.{AreStoredEntries, AreInPlace, placed_at};
ghost use Rattle.camp_notes.specs.Logs.{notes_placed};
ghost use Rattle.camp_notes.specs.Notes.{CanBeNote};
ghost use Rattle.camp_notes.specs.Texts.{notes_text};
ghost use Rattle.camp_script.specs.Keeping.{CanBeInScript, calls_of};
ghost use Rattle.camp_store.specs.Logs.{texts_of};

use camp_notes::{PlacedNote, note_text};
use camp_repo::Call;
use camp_script::accepted_text;
use std::alloc::{AllocError, Global};

/// True if notes are in the order of the numbers of calls before them, which are at least `low` and at most `high`.
pub(crate) fn are_in_place(notes: &[PlacedNote], low: usize, high: usize) -> bool
    ensures { IsTrue result ↔ AreInPlace low high notes.now }
{
    let mut least = low;
    let mut rest = notes;
    while let Some((one, others)) = rest.split_first() {
        if one.at < least || one.at > high {
            return false;
        }
        least = one.at;
        rest = others;
    }
    true
}

/// Renders calls after the first `first` ones of a history as entries, each call after the notes that were given before
/// it; notes that were given after all calls are an entry of their own.
pub(crate) fn render_entries(
    alloc: Global,
    first: usize,
    calls: &[(u32, Call)],
    notes: &[PlacedNote],
) -> Result<Vec<Vec<u8>>, AllocError>
    requires place { AreInPlace first (first + length calls.now) notes.now }
    requires fits { first + length calls.now < 2 ^ 64 }
    ensures entries { IfOk result (λ texts. AreStoredEntries first (calls_of calls.now) notes.now (texts_of texts.items)) }
    ensures stand { IfOk result (λ _. AllByRecursion CanBeInScript (calls_of calls.now)) }
{
    let mut texts = Vec::new(alloc);
    let mut rest = notes;
    let mut at = first;
    for entry in calls {
        let (here, later) = split_placed(rest, at);
        let mut text = placed_text(alloc, here)?;
        text.extend_from_slice(&accepted_text(alloc, &entry.1)?)?;
        texts.push(text)?;
        rest = later;
        at += 1;
    }
    if rest.is_empty() {
        return Ok(texts);
    }
    let last = placed_text(alloc, rest)?;
    texts.push(last)?;
    Ok(texts)
}

// Splits notes after the first ones that were given after this number of calls.
fn split_placed(notes: &[PlacedNote], at: usize) -> (&[PlacedNote], &[PlacedNote])
    ensures all { notes.now ≡ result.0.now ++ result.1.now }
    ensures here { result.0.now ≡ placed_at at (notes_placed result.0.now) }
    ensures later { (high : ℕ) → AreInPlace at high notes.now → AreInPlace (at + 1) high result.1.now }
{
    let mut count = 0;
    for one in notes {
        if one.at != at {
            return notes.split_at(count);
        }
        count += 1;
    }
    notes.split_at(count)
}

// Renders notes, one after the other.
fn placed_text(alloc: Global, notes: &[PlacedNote]) -> Result<Vec<u8>, AllocError>
    ensures text { IfOk result (λ text. text.items ≡ notes_text (notes_placed notes.now)) }
    ensures can { IfOk result (λ _. AllByRecursion CanBeNote (notes_placed notes.now)) }
{
    let mut text = Vec::new(alloc);
    for one in notes {
        text.extend_from_slice(&note_text(alloc, &one.note)?)?;
    }
    Ok(text)
}
