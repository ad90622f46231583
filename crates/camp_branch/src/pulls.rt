//! Pulling patches from one branch into another.
ghost use Rattle.std.specs.Prelude.{◌≡◌, ◌++◌, [], List, IfOk, MatchOption, Ok as ok, Err as err};
ghost use Rattle.std.specs.Result.{MatchResult};
ghost use Rattle.camp_catch.specs.Arranging.{Align, Arrange};
ghost use Rattle.camp_catch.specs.Laws.{keys_of};
ghost use Rattle.camp_catch.specs.Making.{GivesOrRunsOut};
ghost use Rattle.camp_catch.specs.MergingLists.{MergeLists};
ghost use Rattle.camp_catch.specs.declared.catches.Catch.{Catch as AnyCatch};
ghost use Rattle.camp_branch.specs.Fields.{names_in};
ghost use Rattle.camp_branch.specs.Inside.Stages.{DependsIn, DivergesFrom, DivergesIn, DoesNotMerge};
ghost use Rattle.camp_branch.specs.Pulling.{DiffersAt, PullBy};

use crate::{Blocked, NameSet};
use camp_base::Name;
use camp_catch::{Arranged, Catch, Unmade, align, arrange, merge_lists};
use camp_prim::Key;
use camp_share::Shared;
use std::alloc::{AllocError, Global};

/// Pulls the wanted catches of `from`: what they become after those of `to`, or why they cannot be pulled.
pub(crate) fn pull(
    alloc: Global,
    from: &[Shared<Catch>],
    to: &[Shared<Catch>],
    common: &NameSet,
    wanted: &NameSet,
) -> Result<Vec<Shared<Catch>>, Unmade<Blocked>>
    ensures exact { GivesOrRunsOut (λ answer. MatchResult answer
        (λ taken. PullBy (names_in common.now) from.now to.now (names_in wanted.now) (ok (to.now ++ taken.items)))
        (λ blocked. PullBy (names_in common.now) from.now to.now (names_in wanted.now) (err blocked))) result }
{
    if common.is_empty() {
        return pull_unrelated(alloc, from, to, wanted);
    }
    let theirs = common_first(alloc, from, common)?;
    let chosen = wanted_next(alloc, &theirs.rest, wanted)?;
    let ours = common_first(alloc, to, common)?;
    same_front(alloc, &theirs.first, &ours.first)?;
    merged_last(alloc, &chosen.first, &ours.rest)
}

/// Pulls as `pull` does, for branches without a common patch: only the wanted patches have to be moved to the front.
fn pull_unrelated(
    alloc: Global,
    from: &[Shared<Catch>],
    to: &[Shared<Catch>],
    wanted: &NameSet,
) -> Result<Vec<Shared<Catch>>, Unmade<Blocked>>
    ensures exact { GivesOrRunsOut (λ answer. MatchResult answer
        (λ taken. PullBy [] from.now to.now (names_in wanted.now) (ok (to.now ++ taken.items)))
        (λ blocked. PullBy [] from.now to.now (names_in wanted.now) (err blocked))) result }
{
    let chosen = wanted_next(alloc, from, wanted)?;
    merged_last(alloc, &chosen.first, to)
}

/// Moves the common patches to the front of a branch. Returns them and the others.
fn common_first(
    alloc: Global,
    list: &[Shared<Catch>],
    names: &NameSet,
) -> Result<Arranged, Unmade<Blocked>>
    ensures exact { GivesOrRunsOut (λ answer. MatchResult answer
        (λ arranged. Arrange (names_in names.now) list.now arranged.first.items arranged.rest.items)
        (DivergesIn (names_in names.now) list.now)) result }
{
    match arrange(alloc, list, names) {
        Ok(arranged) => Ok(arranged),
        Err(Unmade::Blocked(stuck)) => Err(Unmade::Blocked(Blocked::Diverged(stuck.patch.name))),
        Err(Unmade::Memory) => Err(Unmade::Memory),
    }
}

/// Moves the wanted patches to the front. Returns them and the others.
pub(crate) fn wanted_next(
    alloc: Global,
    list: &[Shared<Catch>],
    names: &NameSet,
) -> Result<Arranged, Unmade<Blocked>>
    ensures exact { GivesOrRunsOut (λ answer. MatchResult answer
        (λ arranged. Arrange (names_in names.now) list.now arranged.first.items arranged.rest.items)
        (DependsIn (names_in names.now) list.now)) result }
{
    match arrange(alloc, list, names) {
        Ok(arranged) => Ok(arranged),
        Err(Unmade::Blocked(stuck)) => Err(Unmade::Blocked(Blocked::Depends {
            patch: stuck.patch.name,
            on: stuck.on.name,
        })),
        Err(Unmade::Memory) => Err(Unmade::Memory),
    }
}

/// Checks that the common patches of one branch, in the order of those of the other, are the same. If both
/// lists are the same, nothing is reordered.
pub(crate) fn same_front(
    alloc: Global,
    from_common: &[Shared<Catch>],
    to_common: &[Shared<Catch>],
) -> Result<(), Unmade<Blocked>>
    ensures exact { GivesOrRunsOut (λ answer. MatchResult answer
        (λ _. Align (keys_of to_common.now) from_common.now to_common.now)
        (DivergesFrom from_common.now to_common.now)) result }
{
    if first_difference(from_common, to_common).is_none() {
        return Ok(());
    }
    let order = keys(alloc, to_common)?;
    match align(alloc, from_common, &order) {
        Ok(aligned) => match first_difference(&aligned, to_common) {
            None => Ok(()),
            Some(name) => Err(Unmade::Blocked(Blocked::Diverged(name))),
        },
        Err(Unmade::Blocked(stuck)) => Err(Unmade::Blocked(Blocked::Diverged(stuck.name))),
        Err(Unmade::Memory) => Err(Unmade::Memory),
    }
}

fn keys(alloc: Global, list: &[Shared<Catch>]) -> Result<Vec<Key>, AllocError>
    ensures { IfOk result (λ keys. keys.items ≡ keys_of list.now) }
{
    list.iter().map(|catch| catch.key()).collect(alloc)
}

/// Returns the name of the patch at which two lists first differ.
fn first_difference(list: &[Shared<Catch>], others: &[Shared<Catch>]) -> Option<Name>
    ensures { MatchOption result (list.now ≡ others.now) (DiffersAt list.now others.now) }
{
    for (at, catch) in list.iter().enumerate() {
        if at >= others.len() {
            return Some(*catch.name());
        }
        if !catch.is_same(&others[at]) {
            return Some(*catch.name());
        }
    }
    if list.len() < others.len() {
        return Some(*others[list.len()].name());
    }
    None
}

/// Merges the wanted catches with those that only the other branch has.
fn merged_last(
    alloc: Global,
    wanted: &[Shared<Catch>],
    others: &[Shared<Catch>],
) -> Result<Vec<Shared<Catch>>, Unmade<Blocked>>
    ensures exact { GivesOrRunsOut (λ answer. MatchResult answer
        (λ taken. (beside : List AnyCatch) × MergeLists wanted.now others.now taken.items beside)
        (DoesNotMerge wanted.now others.now)) result }
{
    match merge_lists(alloc, wanted, others) {
        Ok(taken) => Ok(taken),
        Err(Unmade::Blocked(stuck)) => Err(Unmade::Blocked(Blocked::NoMerge {
            left: stuck.left.name,
            right: stuck.right.name,
        })),
        Err(Unmade::Memory) => Err(Unmade::Memory),
    }
}
