//! The changes of a commit, with their paths and contents.

ghost use Rattle.std.specs.Prelude.{◌≡◌, map};
ghost use Rattle.std.specs.Option.{option_copied};
ghost use Rattle.camp_stream.specs.CommandValues.{change_values, value_of_change};
ghost use Rattle.camp_commits.specs.Inside.Changing.{ChangeResolvesTo};
ghost use Rattle.camp_commits.specs.Resolving.{ResolvesTo, at_index, blob_content, change_path, entry_content, is_given_as_mark, marked_content, resolved_change, resolved_changes, submodule_content, value_of_entry};

use crate::faults::{ApplyError, ChangeError, ChangeFault, CommandFault, WrongChange, refuse};
use crate::marks::{mark_name, object_at};
use crate::objects::{MarkedObject, StreamObjects};
use camp_coding::Mode;
use camp_import::EntryChange;
use camp_stream::{FileChange, read_path};
use std::alloc::Global;

/// Resolves the changes of a commit.
pub(crate) fn resolve_changes(
    alloc: Global,
    objects: &StreamObjects<'_>,
    changes: &[FileChange<'_>],
) -> Result<Vec<EntryChange>, ApplyError>
    ensures { ResolvesTo (λ resolved. map value_of_entry resolved.items) result (resolved_changes objects.now.marks (change_values changes.now)) }
{
    let mut resolved = Vec::new(alloc);
    for change in changes {
        let next = resolve_at(alloc, objects, *change, resolved.len())?;
        resolved.push(next)?;
    }
    Ok(resolved)
}

fn resolve_at(
    alloc: Global,
    objects: &StreamObjects<'_>,
    change: FileChange<'_>,
    index: usize,
) -> Result<EntryChange, ApplyError>
    ensures { ResolvesTo value_of_entry result (at_index index (resolved_change objects.now.marks (value_of_change change.entry))) }
{
    match resolve_change(alloc, objects, change) {
        Ok(change) => Ok(change),
        Err(ChangeError::Memory) => Err(ApplyError::Memory),
        Err(ChangeError::Wrong(why)) => {
            let fault = ChangeFault { index, why };
            Err(refuse(CommandFault::Change(fault)))
        }
    }
}

fn resolve_change(
    alloc: Global,
    objects: &StreamObjects<'_>,
    change: FileChange<'_>,
) -> Result<EntryChange, ChangeError>
    ensures { ChangeResolvesTo value_of_entry result (resolved_change objects.now.marks (value_of_change change.entry)) }
{
    match change {
        FileChange::Set {
            mode,
            content,
            path,
        } => {
            let path = change_path(alloc, path)?;
            let content = entry_content(alloc, objects, mode, content)?;
            Ok(EntryChange::Set {
                mode,
                content,
                path,
            })
        }
        FileChange::Delete(path) => Ok(EntryChange::Delete(change_path(alloc, path)?)),
        FileChange::DeleteAll => Ok(EntryChange::DeleteAll),
    }
}

fn change_path(alloc: Global, text: &[u8]) -> Result<Vec<u8>, ChangeError>
    ensures { ChangeResolvesTo (λ path. path.items) result (change_path text.now) }
{
    match read_path(alloc, text)? {
        Some(path) => Ok(path),
        None => Err(ChangeError::Wrong(WrongChange::BadPath)),
    }
}

/// Returns the content of an entry that a change sets.
fn entry_content(
    alloc: Global,
    objects: &StreamObjects<'_>,
    mode: Mode,
    text: &[u8],
) -> Result<Vec<u8>, ChangeError>
    ensures { ChangeResolvesTo (λ content. content.items) result (entry_content objects.now.marks mode text.now) }
{
    match mode {
        Mode::Regular => marked_content(alloc, objects, text),
        Mode::Executable => marked_content(alloc, objects, text),
        Mode::Symlink => marked_content(alloc, objects, text),
        Mode::Submodule => submodule_content(alloc, text),
    }
}

fn marked_content(
    alloc: Global,
    objects: &StreamObjects<'_>,
    text: &[u8],
) -> Result<Vec<u8>, ChangeError>
    ensures { ChangeResolvesTo (λ content. content.items) result (marked_content objects.now.marks text.now) }
{
    if !is_given_as_mark(text) {
        return Err(ChangeError::Wrong(WrongChange::NoMark));
    }
    blob_content(alloc, object_at(objects, text))
}

fn blob_content(alloc: Global, object: Option<&MarkedObject<'_>>) -> Result<Vec<u8>, ChangeError>
    ensures { ChangeResolvesTo (λ content. content.items) result (blob_content (option_copied object.entry)) }
{
    match object {
        Some(MarkedObject::Blob(content)) => Ok(Vec::from_slice(alloc, content.bytes())?),
        Some(MarkedObject::Commit(_)) => Err(ChangeError::Wrong(WrongChange::UnknownMark)),
        None => Err(ChangeError::Wrong(WrongChange::UnknownMark)),
    }
}

/// Returns the content of a submodule: its id, and LF.
fn submodule_content(alloc: Global, text: &[u8]) -> Result<Vec<u8>, ChangeError>
    ensures { ChangeResolvesTo (λ content. content.items) result (submodule_content text.now) }
{
    if is_given_as_mark(text) {
        return Err(ChangeError::Wrong(WrongChange::UnknownMark));
    }
    let mut content = Vec::from_slice(alloc, text)?;
    content.push(b'\n')?;
    Ok(content)
}

fn is_given_as_mark(text: &[u8]) -> bool
    ensures { result ≡ is_given_as_mark text.now }
{
    mark_name(text).is_some()
}
