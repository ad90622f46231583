//! The parents of a commit.

ghost use Rattle.std.specs.Prelude.{◌≡◌, option_map, map};
ghost use Rattle.std.specs.Option.{option_copied};
ghost use Rattle.camp_stream.specs.CommandValues.{text_value, text_values};
ghost use Rattle.camp_commits.specs.Resolving.{ResolvesTo, commit_at_reference, commit_named, first_parent, further_parents, id_given, commit_id_of, known_commit};

use crate::faults::{ApplyError, CommandFault, refuse};
use crate::marks::{name_if, object_at};
use crate::objects::{MarkedObject, ReferencePosition, StreamObjects};
use camp_base::{Name, Path};
use std::alloc::Global;

/// Returns the id of a commit, which has to be a name.
pub(crate) fn commit_id_of(text: Option<&[u8]>) -> Result<Name, ApplyError>
    ensures { ResolvesTo (λ id. id) result (commit_id_of (text_value text.entry)) }
{
    let Some(text) = text else {
        return Err(refuse(CommandFault::NoId));
    };
    match name_if(text) {
        Some(id) => Ok(id),
        None => Err(refuse(CommandFault::BadId)),
    }
}

/// Returns the first parent of a commit: the one after `from`, else the commit at which the reference stands.
pub(crate) fn first_parent(
    objects: &StreamObjects<'_>,
    from: Option<&[u8]>,
    key: &Path,
) -> Result<Option<Name>, ApplyError>
    ensures { ResolvesTo (λ id. id) result (first_parent objects.now (text_value from.entry) key.now) }
{
    let Some(text) = from else {
        return commit_at_reference(objects, objects.position(key));
    };
    let id = commit_named(objects, text)?;
    Ok(Some(id))
}

/// Returns the further parents of a commit.
pub(crate) fn further_parents(
    alloc: Global,
    objects: &StreamObjects<'_>,
    texts: &[&[u8]],
) -> Result<Vec<Name>, ApplyError>
    ensures { ResolvesTo (λ ids. ids.items) result (further_parents objects.now (text_values texts.now)) }
{
    let mut ids = Vec::new(alloc);
    for text in texts {
        let id = commit_named(objects, text)?;
        ids.push(id)?;
    }
    Ok(ids)
}

/// Returns the commit that a text names, by its mark or its id.
pub(crate) fn commit_named(objects: &StreamObjects<'_>, text: &[u8]) -> Result<Name, ApplyError>
    ensures { ResolvesTo (λ id. id) result (commit_named objects.now text.now) }
{
    match id_given(object_at(objects, text), text) {
        Some(id) => known_commit(objects, id),
        None => Err(refuse(CommandFault::UnknownParent)),
    }
}

/// Returns the id that a text gives: that of the commit with this mark, or the text itself.
fn id_given(object: Option<&MarkedObject<'_>>, text: &[u8]) -> Option<Name>
    ensures { result ≡ id_given (option_copied object.entry) text.now }
{
    match object {
        Some(MarkedObject::Commit(id)) => Some(*id),
        Some(MarkedObject::Blob(_)) => None,
        None => name_if(text),
    }
}

fn known_commit(objects: &StreamObjects<'_>, id: Name) -> Result<Name, ApplyError>
    ensures { ResolvesTo (λ id. id) result (known_commit objects.now.trees id) }
{
    if objects.tree(id).is_some() {
        return Ok(id);
    }
    Err(refuse(CommandFault::UnknownParent))
}

/// Returns the commit at which a reference stands, if it has one.
fn commit_at_reference(
    objects: &StreamObjects<'_>,
    position: Option<&ReferencePosition>,
) -> Result<Option<Name>, ApplyError>
    ensures { ResolvesTo (λ id. id) result (commit_at_reference objects.now.trees (option_copied position.entry)) }
{
    match position {
        None => Err(refuse(CommandFault::UnsetReference)),
        Some(ReferencePosition::Unborn) => Ok(None),
        Some(ReferencePosition::At(id)) => Ok(Some(known_commit(objects, *id)?)),
    }
}
