//! Rendering and parsing entries.
ghost use Rattle.std.specs.Prelude.{◌≡◌, IfErr, IfOk};
ghost use Rattle.camp_entries.specs.Inside.{IsOnlyEntryOf};
ghost use Rattle.camp_entries.specs.Texts.{CanBeLogged, IsEntryOf, IsWhyNot, text_of_entry};

use crate::EntryFault;
use crate::bodies::{append_calls, parse_calls};
use crate::heads::{append_head, parse_head};
use camp_call::Call;
use camp_member::{Entry, NotedCall};
use std::alloc::{AllocError, Global};

/// The most bytes of the text of an entry: 1,048,576.
pub const MAX_BYTES: usize = 1_048_576;

/// Renders an entry. Fails if no log can contain it.
pub fn entry_text(alloc: Global, entry: &Entry<NotedCall<Call>>) -> Result<Vec<u8>, EntryFault>
    ensures exact { IfOk result (λ text. text.items ≡ text_of_entry entry.now) }
    ensures logged { IfOk result (λ _. CanBeLogged entry.now) }
    ensures unfit { IfErr result (λ why. IsWhyNot why (CanBeLogged entry.now)) }
{
    if !entry.is_entry() {
        return Err(EntryFault::Unfit);
    }
    let mut text = Vec::new(alloc);
    append_head(&mut text, entry.seat(), entry.number())?;
    append_calls(alloc, &mut text, entry.calls())?;
    if MAX_BYTES < text.len() {
        return Err(EntryFault::Unfit);
    }
    Ok(text)
}

/// Parses a text as exactly one entry, as `entry_text` renders it; `None` if no entry that a log can contain has this
/// text.
pub fn parse_entry(alloc: Global, text: &[u8]) -> Result<Option<Entry<NotedCall<Call>>>, AllocError>
    ensures exact { IfOk result (IsEntryOf text.now) }
{
    let Some(entry) = only_entry_of(alloc, text)? else {
        return Ok(None);
    };
    let canonical = match entry_text(alloc, &entry) {
        Ok(canonical) => canonical,
        Err(EntryFault::Unfit) => return Ok(None),
        Err(EntryFault::Memory) => return Err(AllocError),
    };
    if canonical.as_slice() != text {
        return Ok(None);
    }
    Ok(Some(entry))
}

// Parses the head and the calls of an entry.
fn only_entry_of(alloc: Global, text: &[u8]) -> Result<Option<Entry<NotedCall<Call>>>, AllocError>
    ensures { IfOk result (IsOnlyEntryOf text.now) }
{
    if text.len() > MAX_BYTES {
        return Ok(None);
    }
    let Some(head) = parse_head(text) else {
        return Ok(None);
    };
    let Some(calls) = parse_calls(alloc, &text[head.len..])? else {
        return Ok(None);
    };
    let entry = Entry::new(head.seat, head.number, calls);
    if !entry.is_entry() {
        return Ok(None);
    }
    Ok(Some(entry))
}
