//! The stream of a branch: a commit for each patch.
ghost use Rattle.camp_git.specs.Inside.Streams.{AddsCommit, StreamEnds, Streams};
ghost use Rattle.std.specs.Prelude.{◌<◌};
ghost use Rattle.camp_git.specs.Holding.{CanHold};
ghost use Rattle.camp_git.specs.Inside.Steps.{StaysBeside};

use crate::Unexported;
use crate::commits::{Place, append_commit};
use crate::folders::first_unheld;
use crate::steps::{Step, patch_end, step_over};
use camp_base::{Name, Tree};
use camp_branch::Branch;
use std::alloc::Global;

/// Makes the stream of a branch, or returns the first patch after which git can't store its tree.
pub(crate) fn stream_of(alloc: Global, name: &Name, branch: &Branch) -> Result<Vec<u8>, Unexported>
    ensures { Streams name.now branch.now result }
{
    let catches = branch.catches();
    let mut text = Vec::new(alloc);
    let mut tree = Tree::empty(alloc);
    let mut at = 0;
    while at < catches.len() {
        let end = patch_end(catches, at + 1);
        let patch = catches.range_to_vec(at, end)?;
        let step = step_over(alloc, &tree, &patch)?;
        let place = Place {
            branch: *name,
            name: *patch[0].name(),
            mark: end as u64,
            from: at as u64,
        };
        append_step(alloc, &mut text, &place, &tree, &step)?;
        tree = step.tree;
        at = end;
    }
    Ok(text)
}

/// Appends the commit of a patch, if git can store the tree after it.
fn append_step(
    alloc: Global,
    text: &mut Vec<u8>,
    place: &Place,
    old: &Tree,
    step: &Step,
) -> Result<(), Unexported>
    requires marks { 0 < place.now.mark }
    requires held { CanHold old.now }
    requires stays { StaysBeside step.now.paths old.now step.now.tree }
    ensures { StreamEnds (λ _. AddsCommit place.now old.now step.now.tree text.old.items text.new.items) place.now.name step.now.tree result }
{
    check_held(alloc, &place.name, old, step)?;
    append_commit(text, place, &step.paths, old, &step.tree)?;
    Ok(())
}

/// Returns a fault if git can't store the tree after a patch.
fn check_held(alloc: Global, name: &Name, old: &Tree, step: &Step) -> Result<(), Unexported>
    requires held { CanHold old.now }
    requires stays { StaysBeside step.now.paths old.now step.now.tree }
    ensures { StreamEnds (λ _. CanHold step.now.tree) name.now step.now.tree result }
{
    match first_unheld(alloc, &step.paths, old, &step.tree)? {
        Some(path) => Err(Unexported::Unheld { patch: *name, path }),
        None => Ok(()),
    }
}
