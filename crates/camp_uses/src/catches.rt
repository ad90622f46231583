//! Callers of `camp_catch`.
ghost use Rattle.std.specs.Prelude.{◌≡◌, Ok, Some, IfOk, IfSome};
ghost use Rattle.camp_base.specs.Trees.{Files};
ghost use Rattle.camp_catch.specs.Catches.{Fits, FitsAll};
ghost use Rattle.camp_catch.specs.Laws.{keys_of};

use camp_catch::{
    Catch, Unmade, commute, commute_keeps_effects, labels_are_kept, lists_keep_effects, merge,
    merge_is_symmetric, merge_is_unique, merge_lists,
};
use camp_share::Shared;
use std::alloc::{AllocError, Global};

/// Returns two catches in their other order, if they commute: if the two fit a tree, these do too, and both orders lead
/// to the same tree.
pub fn in_other_order(
    alloc: Global,
    j: &Catch,
    k: &Catch,
) -> Result<Option<(Catch, Catch)>, AllocError>
    ensures fits { IfOk result (λ found. IfSome found (λ both. (old between new : Files) →
        Fits j.now old between → Fits k.now between new → (other : Files) × Fits both.0 old other × Fits both.1 other new)) }
{
    commute_keeps_effects();
    commute(alloc, j, k)
}

/// Returns what each of two catches that begin in the same state becomes after the other, found in both ways: the
/// results agree.
pub fn merged_either_way(
    alloc: Global,
    j: &Catch,
    k: &Catch,
) -> Result<Option<((Catch, Catch), (Catch, Catch))>, AllocError>
    ensures same { IfOk result (λ found. IfSome found (λ both. (both.0.0 ≡ both.1.1) × (both.0.1 ≡ both.1.0))) }
{
    merge_is_symmetric();
    merge_is_unique();
    let here = merge(alloc, j, k)?;
    let there = merge(alloc, k, j);
    both(here, there)
}

/// Returns the values of two results, if both have one.
fn both<T: Drop>(
    here: Option<T>,
    there: Result<Option<T>, AllocError>,
) -> Result<Option<(T, T)>, AllocError>
    ensures exact { IfOk result (λ found. IfSome found (λ pair. (here ≡ Some pair.0) × (there ≡ Ok (Some pair.1)))) }
{
    let there = there?;
    Ok(here.zip(there))
}

/// Returns what the catches of another list become after our own, if both lists begin in the same state. They keep
/// their labels, and fit the tree that our list leads to.
pub fn theirs_after_ours(
    alloc: Global,
    ours: &[Shared<Catch>],
    theirs: &[Shared<Catch>],
) -> Result<Option<Vec<Shared<Catch>>>, AllocError>
    ensures fits { IfOk result (λ found. IfSome found (λ after. (old left right : Files) →
        FitsAll ours.now old left → FitsAll theirs.now old right → (new : Files) × FitsAll after.items left new)) }
    ensures labels { IfOk result (λ found. IfSome found (λ after. keys_of after.items ≡ keys_of theirs.now)) }
{
    lists_keep_effects();
    labels_are_kept();
    match merge_lists(alloc, theirs, ours) {
        Ok(after) => Ok(Some(after)),
        Err(Unmade::Blocked(_)) => Ok(None),
        Err(Unmade::Memory) => Err(AllocError),
    }
}
