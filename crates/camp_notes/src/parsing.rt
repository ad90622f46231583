//! Parsing notes.
ghost use Rattle.std.specs.Prelude.{◌≡◌, ◌+◌, ◌++◌, ◌<◌, ◌≤◌, IfOk, IfSome, List, MatchOption, MatchResult, codes, length, ℕ};
ghost use Rattle.camp_notes.specs.Faults.{AreNotesOf, AreOnlyNotesBefore, RefusesNotes, RefusesNotesBefore, feeds_in};
ghost use Rattle.camp_notes.specs.Inside.{BeginNoLines, BeginsLines, BeginsNote, BeginsTitle, EndsText, FailsNote};
ghost use Rattle.camp_notes.specs.Texts.{signed_byte};

use crate::titles::parse_title;
use crate::{MAX_NOTE_LENGTH, Note, NoteFault, NoteFaultKind, NoteText};
use camp_base::Name;
use std::alloc::{AllocError, Global};

/// What begins a line of the text of a note.
const SIGN: &[u8] = b"#+";

/// Parses a text as notes, one after the other, as [`notes_text`](crate::notes_text) renders them.
#[tactic(auto, using(crate::proofs::ParseLemmas::notes_alone, crate::proofs::ParseLemmas::misplaced, crate::proofs::ParseLemmas::refused_alone))]
pub fn parse_notes(alloc: Global, text: &[u8]) -> Result<Vec<Note>, NoteFault>
    ensures exact { MatchResult result (λ notes. AreNotesOf text.now notes.items) (RefusesNotes text.now) }
{
    let (notes, rest) = split_notes(alloc, text)?;
    if rest.is_empty() {
        return Ok(notes);
    }
    Err(fault_before(text, rest, NoteFaultKind::Misplaced))
}

/// Parses the notes before a call. Returns them and the rest of the text, which does not begin with `#`.
#[tactic(auto, using(crate::proofs::ParseLemmas::none_parsed, crate::proofs::ParseLemmas::one_more, crate::proofs::ParseLemmas::all_parsed, crate::proofs::ParseLemmas::shorter))]
pub fn split_notes(alloc: Global, text: &[u8]) -> Result<(Vec<Note>, &[u8]), NoteFault>
    ensures exact { MatchResult result
        (λ found. AreOnlyNotesBefore text.now found.0.items found.1.now)
        (RefusesNotesBefore text.now) }
{
    let mut notes = Vec::new(alloc);
    let mut rest = text;
    while rest.starts_with(b"#".as_slice()) {
        match parse_note(alloc, rest)? {
            Ok((note, after)) => {
                notes.push(note)?;
                rest = after;
            }
            Err(kind) => return Err(fault_before(text, rest, kind)),
        }
    }
    Ok((notes, rest))
}

// Makes the fault of the line where the rest of a text begins.
fn fault_before(text: &[u8], rest: &[u8], kind: NoteFaultKind) -> NoteFault
    ensures { (front : List ℕ) → text.now ≡ front ++ rest.now → result ≡ NoteFault.Line (feeds_in front + 1) kind }
{
    let front = &text[..text.len().saturating_sub(rest.len())];
    NoteFault::Line {
        line: feeds_in(front) + 1,
        kind,
    }
}

// Counts the line feeds of bytes.
fn feeds_in(bytes: &[u8]) -> usize
    ensures value { result ≡ feeds_in bytes.now }
    ensures within { result ≤ length bytes.now }
{
    let mut count = 0;
    for byte in bytes {
        if *byte == b'\n' {
            count += 1;
        }
    }
    count
}

// Parses the note at the start of bytes. Returns it, and the bytes after it.
#[tactic(auto, using(crate::proofs::ParseLemmas::title_fails))]
fn parse_note(
    alloc: Global,
    bytes: &[u8],
) -> Result<Result<(Note, &[u8]), NoteFaultKind>, AllocError>
    ensures { IfOk result (λ parsed. MatchResult parsed
        (λ found. BeginsNote bytes.now found.0 found.1.now) (FailsNote bytes.now)) }
{
    match parse_title(bytes) {
        Ok((name, lines)) => parse_named(alloc, name, lines),
        Err(kind) => Ok(Err(kind)),
    }
}

// Parses the note of this name, given the bytes after its first line.
#[tactic(auto, using(crate::proofs::ParseLemmas::unlined, crate::proofs::ParseLemmas::after_sign))]
fn parse_named(
    alloc: Global,
    name: Name,
    lines: &[u8],
) -> Result<Result<(Note, &[u8]), NoteFaultKind>, AllocError>
    ensures { (bytes : List ℕ) → BeginsTitle bytes name lines.now → IfOk result (λ parsed. MatchResult parsed
        (λ found. BeginsNote bytes found.0 found.1.now) (FailsNote bytes)) }
{
    match lines.strip_prefix(SIGN) {
        Some(rest) => parse_signed(alloc, name, rest),
        None => Ok(Err(NoteFaultKind::NotEnded)),
    }
}

// Parses the note of this name, given the bytes after the sign of its second line.
#[tactic(auto, using(crate::proofs::ParseLemmas::whole_note, crate::proofs::ParseLemmas::lines_fail))]
fn parse_signed(
    alloc: Global,
    name: Name,
    rest: &[u8],
) -> Result<Result<(Note, &[u8]), NoteFaultKind>, AllocError>
    ensures { (bytes : List ℕ) → BeginsTitle bytes name (codes "#+" ++ rest.now) → IfOk result (λ parsed. MatchResult parsed
        (λ found. BeginsNote bytes found.0 found.1.now) (FailsNote bytes)) }
{
    match parse_lines(alloc, rest)? {
        Ok((text, after)) => Ok(Ok((Note { name, text }, after))),
        Err(kind) => Ok(Err(kind)),
    }
}

// Parses the text of a note, given the bytes after the sign of its first line. Returns it, and the bytes after its last
// line feed.
fn parse_lines(
    alloc: Global,
    bytes: &[u8],
) -> Result<Result<(NoteText, &[u8]), NoteFaultKind>, AllocError>
    ensures exact { IfOk result (λ parsed. MatchResult parsed
        (λ found. BeginsLines bytes.now found.0 found.1.now)
        (λ kind. BeginNoLines kind bytes.now)) }
{
    let mut text = Vec::new(alloc);
    let mut rest = bytes;
    while let Some((byte, after)) = next_byte(rest) {
        if text.len() == MAX_NOTE_LENGTH {
            return Ok(Err(NoteFaultKind::TooLong));
        }
        text.push(byte)?;
        rest = after;
    }
    let Some((_, rest)) = rest.split_first() else {
        return Ok(Err(NoteFaultKind::NotEnded));
    };
    match NoteText::new(alloc, text)? {
        Some(text) => Ok(Ok((text, rest))),
        None => Ok(Err(NoteFaultKind::TooLong)),
    }
}

// Returns the next byte of a text, and the bytes after what shows it; `None` where the text ends.
fn next_byte(bytes: &[u8]) -> Option<(u8, &[u8])>
    ensures exact { MatchOption result (EndsText bytes.now) (λ next. bytes.now ≡ signed_byte next.0 ++ next.1.now) }
    ensures fewer { IfSome result (λ next. length next.1.now < length bytes.now) }
{
    let Some((first, rest)) = bytes.split_first() else {
        return None;
    };
    if *first != b'\n' {
        return Some((*first, rest));
    }
    match rest.strip_prefix(SIGN) {
        Some(rest) => Some((b'\n', rest)),
        None => None,
    }
}
