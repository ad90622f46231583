//! The patches that a pull from one branch into another has to list.
ghost use Rattle.std.specs.Prelude.{◌≡◌, ℕ, List, IfOk};
ghost use Rattle.std.specs.Result.{MatchResult};
ghost use Rattle.camp_branch.specs.Branches.{is_among};
ghost use Rattle.camp_branch.specs.Fields.{names_in};
ghost use Rattle.camp_branch.specs.Pulling.{common_names};
ghost use Rattle.camp_repo.specs.Steps.{wanted};
ghost use Rattle.camp_questions.specs.Along.{AreNamesToPull, ReportsAlong};
ghost use Rattle.camp_questions.specs.Inside.Alongside.{AreNotFound, AreAfterCommon};

use crate::Unanswered;
use crate::dependencies::{grow_by_blockers, in_order};
use crate::finding::branch_of;
use crate::keeping::keep_lacked;
use crate::reporting::answer_or_memory;
use camp_base::Name;
use camp_branch::{NameSet, set_of};
use camp_catch::{Catch, Unmade, arrange};
use camp_repo::{Branch, Names, Refusal, State};
use camp_share::Shared;
use std::alloc::{AllocError, Global};

/// Returns the names that a pull of `names` from one branch into another has to list, in the order of `from`: those
/// that `to` lacks, and each patch that blocks them on their way to the front of what `from` has after the common
/// patches.
pub fn along(state: &State, from: &Name, to: &Name, names: &[Name]) -> Result<Names, Unanswered>
    ensures exact { ReportsAlong state.now from.now to.now names.now result }
{
    let theirs = branch_of(state, from)?;
    let ours = branch_of(state, to)?;
    if from == to {
        return Err(Unanswered::Refused(Refusal::SameBranch(*to)));
    }
    if let Some(name) = theirs.first_lacked(names) {
        return Err(Unanswered::Refused(Refusal::NoPatch(name)));
    }
    let behind = catches_after_common(theirs, ours)?;
    answer_or_memory(names_to_pull(theirs, ours, &behind, names))
}

/// Returns the names to pull, given the catches of `from` after the common patches.
fn names_to_pull(
    from: &Branch,
    to: &Branch,
    behind: &[Shared<Catch>],
    names: &[Name],
) -> Result<Names, AllocError>
    requires { AreAfterCommon from.now to.now behind.now }
    ensures { IfOk result (AreNamesToPull from.now to.now names.now) }
{
    let alloc = from.catches().allocator();
    let wanted = wanted(alloc, to, names)?;
    let grown = grow_by_blockers(alloc, behind, wanted)?;
    in_order(from, &grown)
}

/// Returns the catches of a branch after those of the patches that both branches have.
fn catches_after_common(from: &Branch, to: &Branch) -> Result<Vec<Shared<Catch>>, Unanswered>
    ensures { MatchResult result (λ behind. AreAfterCommon from.now to.now behind.items) (AreNotFound from.now to.now) }
{
    let common = common(from, to)?;
    let catches = from.catches().to_vec()?;
    match arrange(from.catches().allocator(), &catches, &common) {
        Ok(arranged) => Ok(arranged.rest),
        Err(Unmade::Blocked(stuck)) => {
            Err(Unanswered::Refused(Refusal::Diverged(stuck.patch.name)))
        }
        Err(Unmade::Memory) => Err(Unanswered::Memory),
    }
}

/// Returns the names of the common patches of two branches.
fn common(from: &Branch, to: &Branch) -> Result<NameSet, AllocError>
    ensures { IfOk result (λ set. (name : List ℕ) → is_among (names_in set) name ≡ is_among (common_names from.now to.now) name) }
{
    let mut names = from.names()?;
    names.retain(|name| to.has_patch(name));
    set_of(from.catches().allocator(), &names)
}

/// Returns those of the names of which a branch has no patch.
fn wanted(alloc: Global, to: &Branch, names: &[Name]) -> Result<NameSet, AllocError>
    ensures { IfOk result (λ set. (name : List ℕ) → is_among (names_in set) name ≡ is_among (wanted to.now names.now) name) }
{
    let mut wanted = Vec::from_slice(alloc, names)?;
    keep_lacked(&mut wanted, to);
    set_of(alloc, &wanted)
}
