//! The text of one call after its note.
ghost use Rattle.std.specs.Prelude.{◌≡◌, ◌≢◌, [], ◌∷◌, IfErr, IfOk, MatchOption};
ghost use Rattle.camp_call.specs.declared.calls.Call.{Call};
ghost use Rattle.camp_entries.specs.Inside.{IsOnlyNotedOf};
ghost use Rattle.camp_entries.specs.Texts.{IsNoted, IsNotedOf, IsWhyNot, noted_text};
ghost use Rattle.camp_member.specs.Notes.{WithNote};

use crate::EntryFault;
use crate::bodies::{append_noted, parse_calls};
use camp_call::Call;
use camp_member::NotedCall;
use std::alloc::{AllocError, Global};

/// Renders a call after its note. Fails if no script can contain the call, or if the note is none.
pub fn noted_text(alloc: Global, noted: &NotedCall<Call>) -> Result<Vec<u8>, EntryFault>
    ensures exact { IfOk result (λ text. text.items ≡ noted_text noted.now) }
    ensures noted { IfOk result (λ _. IsNoted noted.now) }
    ensures unfit { IfErr result (λ why. IsWhyNot why (IsNoted noted.now)) }
{
    let mut text = Vec::new(alloc);
    append_noted(alloc, &mut text, noted)?;
    Ok(text)
}

/// Parses a text as exactly one call after its note, as `noted_text` renders it; `None` if no call that a script can
/// contain has this text.
pub fn parse_noted_call(alloc: Global, text: &[u8]) -> Result<Option<NotedCall<Call>>, AllocError>
    ensures exact { IfOk result (IsNotedOf text.now) }
{
    let Some(noted) = only_call_of(alloc, text)? else {
        return Ok(None);
    };
    let canonical = match noted_text(alloc, &noted) {
        Ok(canonical) => canonical,
        Err(EntryFault::Unfit) => return Ok(None),
        Err(EntryFault::Memory) => return Err(AllocError),
    };
    if canonical.as_slice() != text {
        return Ok(None);
    }
    Ok(Some(noted))
}

// Parses the note and the call of a text.
fn only_call_of(alloc: Global, text: &[u8]) -> Result<Option<NotedCall<Call>>, AllocError>
    ensures { IfOk result (IsOnlyNotedOf text.now) }
{
    match parse_calls(alloc, text)? {
        Some(calls) => Ok(only_one(calls)),
        None => Ok(None),
    }
}

// Returns the call of a list that has only one.
fn only_one(mut calls: Vec<NotedCall<Call>>) -> Option<NotedCall<Call>>
    ensures { MatchOption result
        ((noted : WithNote Call) → calls.items ≢ noted ∷ [])
        (λ noted. calls.items ≡ noted ∷ []) }
{
    if calls.len() != 1 {
        return None;
    }
    calls.pop()
}
