//! Commands applied one after the other: what each defines, and the commit that it makes.

ghost use Rattle.std.specs.Prelude.{◌≡◌, IfOk, None, option_map};
ghost use Rattle.camp_stream.specs.CommandValues.{text_value, value_of_blob, value_of_command, value_of_commit, value_of_reset};
ghost use Rattle.camp_commits.specs.Applying.{AppliesCommand, AppliesCommit, StepsWithoutCommit, after_blob, after_commit, after_reset, marked_if, reset_position};
ghost use Rattle.camp_commits.specs.History.{CommitTreesFollow};
ghost use Rattle.camp_commits.specs.Inside.Making.{value_of_resolved, without_commit};
ghost use Rattle.camp_commits.specs.Resolving.{ResolvesTo};
ghost use Rattle.camp_commits.specs.WholeTrees.{WholeTreesComeBack};

use crate::commits::{ResolvedCommit, TreeCommit, make_tree, resolve_commit};
use crate::faults::ApplyError;
use crate::marks::optional_mark;
use crate::objects::{BlobContent, MarkedObject, ReferencePosition, StreamObjects};
use crate::parents::commit_named;
use crate::references::reference_key;
use camp_base::{Name, Path, Tree};
use camp_stream::{Blob, Command, Commit, Reset};
use std::alloc::{AllocError, Global};

/// What is defined after a command, and the commit that it makes.
#[derive(Drop)]
pub struct Step<'a> {
    pub objects: StreamObjects<'a>,
    /// The commit, if the command is one.
    pub commit: Option<TreeCommit>,
}

/// Applies a command of a stream. Tags, progress, features, options and checkpoints define nothing.
pub fn apply<'a>(
    alloc: Global,
    objects: &StreamObjects<'a>,
    command: &Command<'a>,
) -> Result<Step<'a>, ApplyError>
    ensures exact { AppliesCommand objects.now (value_of_command command.now) result }
{
    match command {
        Command::Blob(blob) => without_commit(after_blob(objects, blob)),
        Command::Commit(commit) => apply_commit(alloc, objects, commit),
        Command::Reset(reset) => without_commit(after_reset(alloc, objects, reset)),
        Command::Tag(_) => unchanged(objects),
        Command::Progress(_) => unchanged(objects),
        Command::Feature(_) => unchanged(objects),
        Command::Option(_) => unchanged(objects),
        Command::Checkpoint => unchanged(objects),
        Command::Done => unchanged(objects),
    }
}

/// If the tree of each commit so far is the code of its git tree, so is the tree of the next commit: it is the code of
/// the git tree of its first parent after the commit's changes.
pub fn trees_follow_commits()
    ensures { CommitTreesFollow }
{}

/// If changes set entries one by one, from the empty tree on, decoding the resulting tree gives these entries, and no
/// others.
pub fn whole_trees_come_back()
    ensures { WholeTreesComeBack }
{}

fn unchanged<'a>(objects: &StreamObjects<'a>) -> Result<Step<'a>, ApplyError>
    ensures { StepsWithoutCommit (Ok objects.now) result }
{
    Ok(Step {
        objects: objects.copy()?,
        commit: None,
    })
}

fn without_commit(after: Result<StreamObjects<'_>, ApplyError>) -> Result<Step<'_>, ApplyError>
    ensures { result ≡ without_commit after.entry }
{
    match after {
        Ok(objects) => Ok(Step {
            objects,
            commit: None,
        }),
        Err(why) => Err(why),
    }
}

fn after_blob<'a>(
    objects: &StreamObjects<'a>,
    blob: &Blob<'a>,
) -> Result<StreamObjects<'a>, ApplyError>
    ensures { ResolvesTo (λ new. new) result (after_blob objects.now (value_of_blob blob.now)) }
{
    let mark = optional_mark(blob.mark)?;
    let content = BlobContent::new(blob.content);
    Ok(marked_if(objects.copy()?, mark, MarkedObject::Blob(content))?)
}

#[tactic(auto, unfolding(crate::specs::Applying::after_reset))]
fn after_reset<'a>(
    alloc: Global,
    objects: &StreamObjects<'a>,
    reset: &Reset<'_>,
) -> Result<StreamObjects<'a>, ApplyError>
    ensures { ResolvesTo (λ new. new) result (after_reset objects.now (value_of_reset reset.now)) }
{
    let key = reference_key(alloc, reset.reference)?;
    let position = reset_position(objects, reset.from)?;
    Ok(objects.with_reference(key, position)?)
}

fn reset_position(
    objects: &StreamObjects<'_>,
    from: Option<&[u8]>,
) -> Result<ReferencePosition, ApplyError>
    ensures { ResolvesTo (λ position. position) result (reset_position objects.now (text_value from.entry)) }
{
    let Some(text) = from else {
        return Ok(ReferencePosition::Unborn);
    };
    let id = commit_named(objects, text)?;
    Ok(ReferencePosition::At(id))
}

fn apply_commit<'a>(
    alloc: Global,
    objects: &StreamObjects<'a>,
    commit: &Commit<'_>,
) -> Result<Step<'a>, ApplyError>
    ensures { AppliesCommit objects.now (value_of_commit commit.now) result }
{
    let resolved = resolve_commit(alloc, objects, commit)?;
    let changed = make_tree(alloc, objects, resolved.first, &resolved.changes)?;
    let new = after_commit(objects, &resolved, &changed.tree)?;
    Ok(Step {
        objects: new,
        commit: Some(TreeCommit {
            id: resolved.id,
            first: resolved.first,
            others: resolved.others,
            changed,
        }),
    })
}

fn after_commit<'a>(
    objects: &StreamObjects<'a>,
    commit: &ResolvedCommit,
    tree: &Tree,
) -> Result<StreamObjects<'a>, AllocError>
    ensures { IfOk result (λ new. new ≡ after_commit objects.now (value_of_resolved commit.now) tree.now) }
{
    let with_tree = objects.with_tree(commit.id, tree)?;
    let key = commit.key.try_clone()?;
    let at = with_tree.with_reference(key, ReferencePosition::At(commit.id))?;
    marked_if(at, commit.mark, MarkedObject::Commit(commit.id))
}

fn marked_if<'a>(
    objects: StreamObjects<'a>,
    mark: Option<Name>,
    object: MarkedObject<'a>,
) -> Result<StreamObjects<'a>, AllocError>
    ensures { IfOk result (λ new. new ≡ marked_if objects.entry mark object.entry) }
{
    match mark {
        Some(mark) => objects.with_marked(mark, object),
        None => Ok(objects),
    }
}
