//! Parsing the text of one call.
ghost use Rattle.std.specs.Prelude.{◌≡◌, ◌≢◌, [], ◌∷◌, List, Ok, Some, map, IfOk, IfSome, MatchOption};
ghost use Rattle.std.specs.List.{AllByRecursion};
ghost use Rattle.camp_call.specs.declared.calls.Call.{Call};
ghost use Rattle.camp_script.specs.Canonical.{IsScriptCall};
ghost use Rattle.camp_script.specs.Reading.{script_of};
ghost use Rattle.camp_script.specs.SingleCalls.{IsCallOf, IsOnlyCallOf};

use crate::{ScriptFault, accepted_text, read_script};
use camp_call::Call;
use std::alloc::{AllocError, Global};

/// Parses a text as exactly one call in canonical form, as [`call_text`](crate::call_text) renders it;
/// `None` if it is the text of no call that a script can contain.
pub fn parse_call(alloc: Global, text: &[u8]) -> Result<Option<Call>, AllocError>
    ensures exact { IfOk result (λ found. IsCallOf text.now found) }
{
    let Some(call) = only_call_of(alloc, text)? else {
        return Ok(None);
    };
    let canonical = accepted_text(alloc, &call)?;
    if canonical.as_slice() != text {
        return Ok(None);
    }
    Ok(Some(call))
}

// Parses a text as a script and returns its last call.
fn only_call_of(alloc: Global, text: &[u8]) -> Result<Option<Call>, AllocError>
    ensures { IfOk result (λ found. IsOnlyCallOf text.now found) }
{
    match sections_of(alloc, text)? {
        Some(sections) => Ok(last_of(sections)),
        None => Ok(None),
    }
}

// Reads the sections of a script; `None` if the text is not a script.
fn sections_of(alloc: Global, text: &[u8]) -> Result<Option<Vec<Vec<Call>>>, AllocError>
    ensures { IfOk result (λ found. MatchOption found
        ((sections : List (List Call)) → script_of text.now ≢ Ok sections)
        (λ sections. script_of text.now ≡ Ok (map (λ section. section.items) sections.items))) }
{
    match read_script(alloc, text) {
        Ok(script) => Ok(Some(script.into_sections())),
        Err(ScriptFault::Memory) => Err(AllocError),
        Err(_) => Ok(None),
    }
}

// Returns the last call of the last section.
fn last_of(mut sections: Vec<Vec<Call>>) -> Option<Call>
    ensures alone { (call : Call) → map (λ section. section.items) sections.items ≡ (call ∷ []) ∷ [] → result ≡ Some call }
    ensures can { IfSome result (λ call. AllByRecursion (AllByRecursion IsScriptCall) (map (λ section. section.items) sections.items) → IsScriptCall call) }
{
    let mut calls = sections.pop()?;
    calls.pop()
}
