//! Commits: the values that their texts give, and their trees.

ghost use Rattle.std.specs.Prelude.{◌≡◌, IfOk};
ghost use Rattle.camp_stream.specs.CommandValues.{value_of_commit};
ghost use Rattle.camp_commits.specs.Applying.{tree_of_commit};
ghost use Rattle.camp_commits.specs.Inside.Making.{IsTreeError, MakesTree, value_of_resolved};
ghost use Rattle.camp_commits.specs.Resolving.{ResolvesTo, resolution_of};

use crate::changes::resolve_changes;
use crate::faults::{ApplyError, CommandFault, refuse};
use crate::marks::optional_mark;
use crate::objects::StreamObjects;
use crate::parents::{commit_id_of, first_parent, further_parents};
use crate::references::reference_key;
use camp_base::{Name, Path, Tree};
use camp_coding::EncodeFault;
use camp_import::{ChangedTree, EntryChange, EntryFault, tree_after};
use camp_stream::Commit;
use std::alloc::{AllocError, Global};

/// A commit with its tree.
#[derive(Drop)]
pub struct TreeCommit {
    /// Its id.
    pub id: Name,
    /// Its first parent, from whose tree its changes lead to its own; without one they lead from the empty tree.
    pub first: Option<Name>,
    /// Its further parents.
    pub others: Vec<Name>,
    /// Its tree, and the paths at which this may differ from that of the first parent.
    pub changed: ChangedTree,
}

/// The values that the texts of a commit give: its id, its parents, its changes.
#[derive(Drop)]
pub(crate) struct ResolvedCommit {
    pub(crate) id: Name,
    pub(crate) mark: Option<Name>,
    pub(crate) key: Path,
    pub(crate) first: Option<Name>,
    pub(crate) others: Vec<Name>,
    pub(crate) changes: Vec<EntryChange>,
}

#[tactic(auto, unfolding(crate::specs::Resolving::resolution_of))]
pub(crate) fn resolve_commit(
    alloc: Global,
    objects: &StreamObjects<'_>,
    commit: &Commit<'_>,
) -> Result<ResolvedCommit, ApplyError>
    ensures { ResolvesTo value_of_resolved result (resolution_of objects.now (value_of_commit commit.now)) }
{
    let id = commit_id_of(commit.original_oid)?;
    let mark = optional_mark(commit.mark)?;
    let key = reference_key(alloc, commit.reference)?;
    let first = first_parent(objects, commit.from, &key)?;
    let others = further_parents(alloc, objects, &commit.merges)?;
    let changes = resolve_changes(alloc, objects, &commit.changes)?;
    Ok(ResolvedCommit {
        id,
        mark,
        key,
        first,
        others,
        changes,
    })
}

/// Makes the tree of a commit from that of its first parent.
pub(crate) fn make_tree(
    alloc: Global,
    objects: &StreamObjects<'_>,
    first: Option<Name>,
    changes: &[EntryChange],
) -> Result<ChangedTree, ApplyError>
    ensures { MakesTree (tree_of_commit objects.now.trees first) changes.now result }
{
    let old = tree_of_commit(alloc, objects, first)?;
    match tree_after(alloc, &old, changes) {
        Ok(changed) => Ok(changed),
        Err(fault) => Err(tree_error(fault)),
    }
}

/// Returns the error of a tree that can't be made.
fn tree_error(fault: EntryFault) -> ApplyError
    ensures { IsTreeError fault result }
{
    match fault.why {
        EncodeFault::Memory => ApplyError::Memory,
        EncodeFault::BadPath => refuse(CommandFault::Entry(fault)),
        EncodeFault::TooManyLines => refuse(CommandFault::Entry(fault)),
    }
}

/// Returns the tree of a commit that is known; the empty tree for none.
fn tree_of_commit(
    alloc: Global,
    objects: &StreamObjects<'_>,
    id: Option<Name>,
) -> Result<Tree, AllocError>
    ensures { IfOk result (λ tree. tree ≡ tree_of_commit objects.now.trees id) }
{
    let Some(id) = id else {
        return Ok(Tree::empty(alloc));
    };
    match objects.tree(id) {
        Some(tree) => tree.try_clone(),
        None => Ok(Tree::empty(alloc)),
    }
}
