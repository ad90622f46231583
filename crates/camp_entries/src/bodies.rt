//! The calls of entries, each after its note.
ghost use Rattle.std.specs.Prelude.{◌≡◌, ◌≢◌, ◌++◌, [], ◌∷◌, List, Ok, length, map, IfErr, IfOk, MatchOption, OnOk};
ghost use Rattle.std.specs.List.{AllByRecursion, flat_map};
ghost use Rattle.camp_call.specs.declared.calls.Call.{Call};
ghost use Rattle.camp_script.specs.Canonical.{IsScriptCall, call_text};
ghost use Rattle.camp_script.specs.Reading.{script_of};
ghost use Rattle.camp_entries.specs.Inside.{AreOnlyOf, AreOnlyWith, NoneHave, NoneHaveWith};
ghost use Rattle.camp_entries.specs.Texts.{IsNoted, IsWhyNot, noted_text};

use crate::EntryFault;
use crate::notes::{is_note, note_len};
use camp_call::Call;
use camp_member::NotedCall;
use camp_script::{CallFault, ScriptFault, accepted_text, call_text, read_script};
use std::alloc::{AllocError, Global};

/// Appends calls, each after its note.
pub(crate) fn append_calls(
    alloc: Global,
    text: &mut Vec<u8>,
    calls: &[NotedCall<Call>],
) -> Result<(), EntryFault>
    ensures text { OnOk result (text.new.items ≡ text.old.items ++ flat_map noted_text calls.now) }
    ensures noted { IfOk result (λ _. AllByRecursion IsNoted calls.now) }
    ensures unfit { IfErr result (λ why. IsWhyNot why (AllByRecursion IsNoted calls.now)) }
{
    for noted in calls {
        append_noted(alloc, text, noted)?;
    }
    Ok(())
}

/// Appends a call after its note.
pub(crate) fn append_noted(
    alloc: Global,
    text: &mut Vec<u8>,
    noted: &NotedCall<Call>,
) -> Result<(), EntryFault>
    ensures text { OnOk result (text.new.items ≡ text.old.items ++ noted_text noted.now) }
    ensures noted { IfOk result (λ _. IsNoted noted.now) }
    ensures unfit { IfErr result (λ why. IsWhyNot why (IsNoted noted.now)) }
{
    if !is_note(noted.note()) {
        return Err(EntryFault::Unfit);
    }
    let call = canonical_text(alloc, noted.call())?;
    text.extend_from_slice(noted.note())?;
    text.extend_from_slice(&call)?;
    Ok(())
}

// Renders a call that a script can contain.
fn canonical_text(alloc: Global, call: &Call) -> Result<Vec<u8>, EntryFault>
    ensures text { IfOk result (λ text. text.items ≡ call_text call.now) }
    ensures stands { IfOk result (λ _. IsScriptCall call.now) }
    ensures unfit { IfErr result (λ why. IsWhyNot why (IsScriptCall call.now)) }
{
    match call_text(alloc, call) {
        Ok(text) => Ok(text),
        Err(CallFault::NoNames) => Err(EntryFault::Unfit),
        Err(CallFault::Memory) => Err(EntryFault::Memory),
    }
}

/// Parses the calls of an entry, each with the note before it.
pub(crate) fn parse_calls(
    alloc: Global,
    body: &[u8],
) -> Result<Option<Vec<NotedCall<Call>>>, AllocError>
    ensures { IfOk result (λ found. MatchOption found (NoneHave body.now) (λ noted. AreOnlyOf body.now noted.items)) }
{
    match calls_of(alloc, body)? {
        Some(calls) => with_notes(alloc, body, &calls),
        None => Ok(None),
    }
}

// Returns the calls of a script; `None` unless it has one section.
fn calls_of(alloc: Global, body: &[u8]) -> Result<Option<Vec<Call>>, AllocError>
    ensures { IfOk result (λ found. MatchOption found
        ((calls : List Call) → script_of body.now ≢ Ok (calls ∷ []))
        (λ calls. script_of body.now ≡ Ok (calls.items ∷ []))) }
{
    match read_script(alloc, body) {
        Ok(script) => Ok(only_section(script.into_sections())),
        Err(ScriptFault::Memory) => Err(AllocError),
        Err(_) => Ok(None),
    }
}

// Returns the section of a script that has only one.
fn only_section(mut sections: Vec<Vec<Call>>) -> Option<Vec<Call>>
    ensures { MatchOption result
        ((calls : List Call) → map (λ section. section.items) sections.items ≢ calls ∷ [])
        (λ calls. map (λ section. section.items) sections.items ≡ calls.items ∷ []) }
{
    if sections.len() != 1 {
        return None;
    }
    sections.pop()
}

// Finds the note before each call.
fn with_notes(
    alloc: Global,
    body: &[u8],
    calls: &[Call],
) -> Result<Option<Vec<NotedCall<Call>>>, AllocError>
    ensures { IfOk result (λ found. MatchOption found (NoneHaveWith body.now calls.now) (λ noted. AreOnlyWith body.now calls.now noted.items)) }
{
    let mut noted = Vec::new(alloc);
    let mut at = 0;
    for call in calls {
        let rest = &body[at..];
        let note = note_len(rest);
        let len = call_len(alloc, call)?;
        if len > rest.len() - note {
            return Ok(None);
        }
        noted.push(copy_noted(alloc, &rest[..note], call)?)?;
        at += note + len;
    }
    Ok(Some(noted))
}

// Returns the length of a call's text in bytes.
fn call_len(alloc: Global, call: &Call) -> Result<usize, AllocError>
    ensures { IfOk result (λ len. len ≡ length (call_text call.now)) }
{
    let text = accepted_text(alloc, call)?;
    Ok(text.len())
}

// Copies a call and its note.
fn copy_noted(alloc: Global, note: &[u8], call: &Call) -> Result<NotedCall<Call>, AllocError>
    ensures { IfOk result (λ noted. noted ≡ record { note = note.now; call = call.now }) }
{
    let note = Vec::from_slice(alloc, note)?;
    Ok(NotedCall::new(note, call.try_clone()?))
}
