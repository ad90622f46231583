//! Dependents in one pass over the patches of a list: a patch stays if it can be moved in front of all that are to be
//! taken out; any other has to be taken out too.
ghost use Rattle.std.specs.Prelude.{◌≡◌, ℕ, List, [], ◌∷◌, IfOk, IsTrue};
ghost use Rattle.std.specs.Result.{MatchResult};
ghost use Rattle.camp_branch.specs.Fields.{names_in};
ghost use Rattle.camp_catch.specs.Arranging.{ArrangesAfter, CatchCommutesBeforeAll, DoNotCommute, IsBlockedAfter};
ghost use Rattle.camp_catch.specs.Commuting.{CommuteCatch};
ghost use Rattle.camp_catch.specs.Making.{GivesOrRunsOut};
ghost use Rattle.camp_questions.specs.Inside.ByPatch.{AreApart, AreOfPatch, ArePatches, catches_in_order};
ghost use Rattle.camp_questions.specs.Inside.Growing.{GrowsToTakeOut};
ghost use Rattle.camp_questions.specs.Inside.Independence.{AllCommuteUnchanged, IsIndependent, AreBlockedAfter};

use crate::fast::patch_catches::{PatchCatches, append, shared};
use camp_branch::{NameSet, set_of};
use camp_catch::{Arranged, Catch, Stuck, Unmade, arrange};
use camp_prim::{commutes, commutes_unchanged};
use camp_share::Shared;
use std::alloc::{AllocError, Global};
use std::slice;

/// Returns the names with their dependents: each patch is added that can't be moved in front of those that
/// are to be taken out.
pub(crate) fn dependents_by_pass(
    alloc: Global,
    patches: &[PatchCatches],
    names: NameSet,
) -> Result<NameSet, AllocError>
    requires { ArePatches patches.now }
    ensures { IfOk result (λ held. GrowsToTakeOut (catches_in_order patches.now) (names_in names) (names_in held)) }
{
    let mut going = Vec::new(alloc);
    walk_over(alloc, patches, names, &mut going)
}

/// Returns these names and those of all patches that have to be taken out together with them.
fn walk_over(
    alloc: Global,
    patches: &[PatchCatches],
    names: NameSet,
    going: &mut Vec<Shared<Catch>>,
) -> Result<NameSet, AllocError>
    requires are { ArePatches patches.now }
    requires none { going.old.items ≡ [] }
    ensures { IfOk result (λ held. GrowsToTakeOut (catches_in_order patches.now) (names_in names) (names_in held)) }
{
    let mut held = names;
    for patch in patches {
        if !held.contains_key(&patch.name) {
            if move_before_taken_out(alloc, going, patch)? {
                continue;
            }
            held = held.inserted(patch.name, ())?;
        }
        append(going, &patch.catches)?;
    }
    Ok(held)
}

/// Moves a patch, which comes after catches that are to be taken out, in front of all of them, and updates them to what
/// they then become. False if it can't be moved; they are then unchanged. Two quick checks come first: whether its
/// catches commute unchanged with all of them, and whether the last of them blocks it.
pub(crate) fn move_before_taken_out(
    alloc: Global,
    going: &mut Vec<Shared<Catch>>,
    patch: &PatchCatches,
) -> Result<bool, AllocError>
    requires own { AreOfPatch patch.now.name patch.now.catches.items }
    requires apart { AreApart patch.now.name going.now.items }
    ensures { IfOk result (λ yes. IsIndependent patch.now.name going.old.items patch.now.catches.items yes going.new.items) }
{
    if all_stay(going, &patch.catches) {
        return Ok(true);
    }
    if is_blocked(going, &patch.catches) {
        return Ok(false);
    }
    match commute_before(alloc, going, patch) {
        Ok(arranged) => {
            *going = arranged.rest;
            Ok(true)
        }
        Err(Unmade::Blocked(_)) => Ok(false),
        Err(Unmade::Memory) => Err(AllocError),
    }
}

/// Commutes the catches of a patch in front of those that are to be taken out, and returns what both become. Blocked if
/// a catch of the patch cannot be moved there.
fn commute_before(
    alloc: Global,
    going: &[Shared<Catch>],
    patch: &PatchCatches,
) -> Result<Arranged, Unmade<Stuck>>
    requires { AreApart patch.now.name going.now }
    ensures { GivesOrRunsOut (λ answer. MatchResult answer
        (λ arranged. ArrangesAfter (patch.now.name ∷ []) going.now patch.now.catches.items arranged.first.items arranged.rest.items)
        (λ stuck. IsBlockedAfter (patch.now.name ∷ []) going.now patch.now.catches.items stuck.patch stuck.on)) result }
{
    let mut list = shared(alloc, going)?;
    append(&mut list, &patch.catches)?;
    let named = set_of(alloc, slice::from_ref(&patch.name))?;
    arrange(alloc, &list, &named)
}

/// True only if catches can be moved in front of others, and all stay unchanged. False decides nothing.
fn all_stay(going: &[Shared<Catch>], catches: &[Shared<Catch>]) -> bool
    ensures { IsTrue result → AllCommuteUnchanged going.now catches.now }
{
    for catch in catches {
        if !stays(going, catch) {
            return false;
        }
    }
    true
}

fn stays(going: &[Shared<Catch>], catch: &Catch) -> bool
    ensures { IsTrue result → CatchCommutesBeforeAll going.now catch.now catch.now going.now }
{
    for at in (0..going.len()).rev() {
        if !catches_commute_unchanged(&going[at], catch) {
            return false;
        }
    }
    true
}

/// True only if the first catch of a patch is blocked by the last of those that are to be taken out. False
/// decides nothing.
fn is_blocked(going: &[Shared<Catch>], catches: &[Shared<Catch>]) -> bool
    ensures { IsTrue result → (name : List ℕ) → AreOfPatch name catches.now → AreBlockedAfter name going.now catches.now }
{
    if going.is_empty() || catches.is_empty() {
        return false;
    }
    never_commute(&going[going.len() - 1], &catches[0])
}

/// True only if two catches do not commute. False decides nothing.
fn never_commute(first: &Catch, second: &Catch) -> bool
    ensures { IsTrue result → DoNotCommute first.now second.now }
{
    match (first, second) {
        (Catch::Plain(p), Catch::Plain(q)) => !commutes(p, q),
        _ => false,
    }
}

/// True only if two plain catches commute unchanged. False decides nothing.
fn catches_commute_unchanged(first: &Catch, second: &Catch) -> bool
    ensures { IsTrue result → CommuteCatch first.now second.now second.now first.now }
{
    match (first, second) {
        (Catch::Plain(p), Catch::Plain(q)) => commutes_unchanged(p, q),
        _ => false,
    }
}
