//! The dependencies of each patch of a branch, as marks: one for each index of the branch.
ghost use Rattle.std.specs.Prelude.{◌≡◌, map, IfOk};
ghost use Rattle.camp_branch.specs.Branches.{is_among, names_of};
ghost use Rattle.camp_branch.specs.Fields.{names_in};
ghost use Rattle.camp_questions.specs.Inside.Graphing.{NeedEach};

use crate::dependencies::grow_by_blockers;
use crate::fast::{all_reached, inverted_patches};
use camp_base::Name;
use camp_branch::{NameSet, set_of};
use camp_catch::Catch;
use camp_repo::Branch;
use camp_share::Shared;
use std::alloc::{AllocError, Global};
use std::slice;

/// A patch, with a mark for each index of the branch: true if the patch there is this one or one of its dependencies.
/// Indexes past the last mark count as false.
#[derive(Drop)]
pub(crate) struct Needed {
    pub name: Name,
    pub needs: Vec<bool>,
}

/// Returns all patches of a branch, whose names are given, with their dependencies.
pub(crate) fn all_needed(branch: &Branch, names: &[Name]) -> Result<Vec<Needed>, AllocError>
    requires { names.now ≡ names_of branch.now }
    ensures { IfOk result (λ all. NeedEach branch.now names.now all.items) }
{
    let alloc = branch.catches().allocator();
    let catches = branch.catches().to_vec()?;
    match inverted_patches(alloc, &catches)? {
        Some(back) => all_reached(alloc, &back),
        None => needed_by_blockers(alloc, &catches, names),
    }
}

/// Returns the dependencies of each patch, found by moving it to the front: what blocks it is a dependency.
fn needed_by_blockers(
    alloc: Global,
    catches: &[Shared<Catch>],
    names: &[Name],
) -> Result<Vec<Needed>, AllocError>
    requires { names.now ≡ names_of catches.now }
    ensures { IfOk result (λ all. NeedEach catches.now names.now all.items) }
{
    let mut all = Vec::with_capacity(alloc, names.len())?;
    for name in names {
        let named = set_of(alloc, slice::from_ref(name))?;
        let grown = grow_by_blockers(alloc, catches, named)?;
        let needs = marks_of(alloc, names, &grown)?;
        all.push(Needed { name: *name, needs })?;
    }
    Ok(all)
}

/// Returns for each name whether a set contains it.
pub(crate) fn marks_of(
    alloc: Global,
    names: &[Name],
    set: &NameSet,
) -> Result<Vec<bool>, AllocError>
    ensures { IfOk result (λ marks. marks.items ≡ map (is_among (names_in set.now)) names.now) }
{
    let mut marks = Vec::with_capacity(alloc, names.len())?;
    for name in names {
        marks.push(set.contains_key(name))?;
    }
    Ok(marks)
}
