//! The part of a graph that belongs to one patch, found without the rest of the graph.
ghost use Rattle.std.specs.Prelude.{◌≡◌, ℕ, true, List, reverse, IfOk, IfSome};
ghost use Rattle.camp_branch.specs.Branches.{has_patch};
ghost use Rattle.camp_catch.specs.declared.catches.Catch.{Catch as AnyCatch};
ghost use Rattle.camp_questions.specs.Inside.ByPatch.{ArePatches};
ghost use Rattle.camp_questions.specs.Inside.Graphing.{IsInverted};
ghost use Rattle.camp_questions.specs.Inside.PartsOfOne.{AreMarkedAmong, AreRelated, IsPartOfOne};

use crate::PatchGraph;
use crate::dependencies::{dependents_in, in_order, needed_in};
use crate::fast::{PatchCatches, dependents_by_pass, inverted_patches};
use crate::needed::{Needed, marks_of};
use crate::nodes::nodes;
use crate::pictures::kept_pairs;
use camp_base::Name;
use camp_branch::set_of;
use camp_repo::{Branch, Conflicts, Names};
use std::alloc::{AllocError, Global};
use std::slice;

/// Returns the part of the graph of a branch with a patch, its dependencies and its dependents. `None` if the branch
/// lacks the patch, if not all patches are plain with headroom, or if making the graph of the whole branch is less
/// work.
pub(crate) fn part_of_one(branch: &Branch, name: &Name) -> Result<Option<PatchGraph>, AllocError>
    ensures { IfOk result (λ found. IfSome found (IsPartOfOne branch.now name.now)) }
{
    let alloc = branch.catches().allocator();
    if !branch.has_patch(name) {
        return Ok(None);
    }
    let catches = branch.catches().to_vec()?;
    let Some(mut back) = inverted_patches(alloc, &catches)? else {
        return Ok(None);
    };
    back.reverse();
    let related = related(branch, name)?;
    if !is_small(related.as_slice().len(), catches.len()) {
        return Ok(None);
    }
    let part = part_of(branch, &back, related.as_slice())?;
    Ok(Some(part))
}

/// True if finding a part with `related` patches takes less work than making the graph of a branch with `all` catches.
/// Each patch of the part costs a pass over the branch, in which each catch is compared with up to `related` others.
fn is_small(related: usize, all: usize) -> bool {
    related.saturating_mul(related) <= all
}

/// Returns a patch, its dependencies and its dependents, in the order of the branch.
fn related(branch: &Branch, name: &Name) -> Result<Names, AllocError>
    ensures { IfOk result (λ names. AreRelated branch.now name.now names) }
{
    let alloc = branch.catches().allocator();
    let needed = needed_in(branch, slice::from_ref(name))?;
    let held = dependents_in(branch, slice::from_ref(name))?;
    let mut all = Vec::from_slice(alloc, needed.as_slice())?;
    all.extend_from_slice(held.as_slice())?;
    let set = set_of(alloc, &all)?;
    let related = in_order(branch, &set)?;
    Ok(related)
}

/// Returns the part of the graph that has these patches: one patch, its dependencies and its dependents. `back` has the
/// patches of the branch with their catches inverted, the last first.
fn part_of(branch: &Branch, back: &[PatchCatches], names: &[Name]) -> Result<PatchGraph, AllocError>
    requires inverted { IsInverted branch.now (reverse back.now) }
    requires related { (name : List ℕ) × AreRelated branch.now name names.now }
    ensures { IfOk result (λ part. (name : List ℕ) → has_patch branch.now name ≡ true → AreRelated branch.now name names.now → IsPartOfOne branch.now name part) }
{
    let alloc = branch.catches().allocator();
    let needed = needed_among(alloc, back, names)?;
    let patches = nodes(alloc, names, &needed)?;
    let found = branch.conflicts()?;
    let pairs = Conflicts::new(found);
    let kept = set_of(alloc, names)?;
    let conflicts = kept_pairs(&kept, &pairs)?;
    Ok(PatchGraph { patches, conflicts })
}

/// Returns the patches of these names with their dependencies among each other.
fn needed_among(
    alloc: Global,
    back: &[PatchCatches],
    names: &[Name],
) -> Result<Vec<Needed>, AllocError>
    requires { ArePatches back.now }
    ensures { IfOk result (λ all. (branch : List AnyCatch) → IsInverted branch (reverse back.now) → AreMarkedAmong branch names.now names.now all.items) }
{
    let mut all = Vec::with_capacity(alloc, names.len())?;
    for name in names {
        let named = set_of(alloc, slice::from_ref(name))?;
        let grown = dependents_by_pass(alloc, back, named)?;
        let needs = marks_of(alloc, names, &grown)?;
        all.push(Needed { name: *name, needs })?;
    }
    Ok(all)
}
