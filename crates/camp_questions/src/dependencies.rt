//! Dependencies and dependents of patches in a branch.
ghost use Rattle.std.specs.Prelude.{◌≡◌, IfOk};
ghost use Rattle.camp_branch.specs.Fields.{names_in};
ghost use Rattle.camp_questions.specs.Answers.{ReportsAnswer};
ghost use Rattle.camp_questions.specs.Dependencies.{AreHeldBy, AreNeeded, HeldBy, Needs, in_order};
ghost use Rattle.camp_questions.specs.Inside.Growing.{GrowsToFront};

use crate::Unanswered;
use crate::fast::{by_patch, dependents_by_pass, inverted_patches};
use crate::finding::branch_with;
use crate::keeping::keep_named;
use crate::reporting::answer_or_memory;
use camp_base::Name;
use camp_branch::{NameSet, set_of};
use camp_catch::{Catch, Unmade, arrange};
use camp_repo::{Branch, Names, State};
use camp_share::Shared;
use std::alloc::{AllocError, Global};

/// Returns the dependencies of these names in a branch, in its order: the names themselves, and each patch that blocks
/// them on their way to the front. A pull into another branch may need further patches, which `along` returns.
pub fn needs(state: &State, branch: &Name, names: &[Name]) -> Result<Names, Unanswered>
    ensures exact { ReportsAnswer (AreNeeded state.now branch.now names.now) result }
{
    let branch = branch_with(state, branch, names)?;
    answer_or_memory(needed_in(branch, names))
}

/// Returns the dependencies of names of a branch.
pub(crate) fn needed_in(branch: &Branch, names: &[Name]) -> Result<Names, AllocError>
    ensures { IfOk result (Needs branch.now names.now) }
{
    let named = set_of(branch.catches().allocator(), names)?;
    let needed = grown_to_front(branch, named)?;
    in_order(branch, &needed)
}

/// Returns the names that must be taken out of a branch together with these, in its order: the names themselves, and
/// each patch that depends on one of them.
pub fn held_by(state: &State, branch: &Name, names: &[Name]) -> Result<Names, Unanswered>
    ensures exact { ReportsAnswer (AreHeldBy state.now branch.now names.now) result }
{
    let branch = branch_with(state, branch, names)?;
    answer_or_memory(dependents_in(branch, names))
}

/// Returns the dependents of names of a branch.
pub(crate) fn dependents_in(branch: &Branch, names: &[Name]) -> Result<Names, AllocError>
    ensures { IfOk result (HeldBy branch.now names.now) }
{
    let alloc = branch.catches().allocator();
    let patches = by_patch(alloc, &branch.catches().to_vec()?)?;
    let named = set_of(alloc, names)?;
    let held = dependents_by_pass(alloc, &patches, named)?;
    in_order(branch, &held)
}

/// Returns the names and those that are added until all can be moved to the front of the branch. If all its patches are
/// plain and have headroom by a quick check, these are the dependents of the names in the inverted branch.
pub(crate) fn grown_to_front(branch: &Branch, names: NameSet) -> Result<NameSet, AllocError>
    ensures { IfOk result (λ grown. GrowsToFront branch.now (names_in names) (names_in grown)) }
{
    let alloc = branch.catches().allocator();
    let catches = branch.catches().to_vec()?;
    match inverted_patches(alloc, &catches)? {
        Some(mut back) => {
            back.reverse();
            dependents_by_pass(alloc, &back, names)
        }
        None => grow_by_blockers(alloc, &catches, names),
    }
}

/// Returns the names and those that are added until all can be moved to the front of a list. Arranges the list once for
/// each added name, and once more to find that none is missing.
pub(crate) fn grow_by_blockers(
    alloc: Global,
    list: &[Shared<Catch>],
    names: NameSet,
) -> Result<NameSet, AllocError>
    ensures { IfOk result (λ grown. GrowsToFront list.now (names_in names) (names_in grown)) }
{
    let mut grown = names;
    loop {
        match arrange(alloc, list, &grown) {
            Ok(_) => return Ok(grown),
            Err(Unmade::Blocked(stuck)) => grown = grown.inserted(stuck.on.name, ())?,
            Err(Unmade::Memory) => return Err(AllocError),
        }
    }
}

/// Returns those names of patches of a branch that are in a set, in the order of the branch.
pub(crate) fn in_order(branch: &Branch, set: &NameSet) -> Result<Names, AllocError>
    ensures { IfOk result (λ names. names ≡ in_order branch.now (names_in set.now)) }
{
    let mut names = branch.names()?;
    keep_named(&mut names, set);
    Ok(Names::new(names))
}
