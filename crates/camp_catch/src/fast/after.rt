//! Merges of which only one of the two results is computed.
ghost use Rattle.std.specs.Prelude.{List, IfOk};
ghost use Rattle.std.specs.Result.{MatchResult};
ghost use Rattle.camp_base.specs.Answers.{Finds};
ghost use Rattle.camp_seq.specs.Running.{inverse_all};
ghost use Rattle.camp_catch.specs.Inside.InPlace.{MergesInto};
ghost use Rattle.camp_catch.specs.Inside.Seen.{JoinedByAdded};
ghost use Rattle.camp_catch.specs.Making.{GivesOrRunsOut};
ghost use Rattle.camp_catch.specs.MergingLists.{MergesWithAll, IsBlockedWithin};
ghost use Rattle.camp_catch.specs.declared.catches.Catch.{Catch as AnyCatch};

use crate::fast::catches_merge_unchanged;
use crate::fast::gaining::Gaining;
use crate::merging::{conflict_before, merged_effects, seen_after};
use crate::merging_lists::no_merge;
use crate::seen::{both_added, joined};
use crate::{Catch, Conflictor, NoMerge, Unmade, merge};
use camp_ctx::Contexted;
use camp_share::{Share, Shared};
use std::alloc::{AllocError, Global};

/// Merges one catch with a list that begins in the same state; the catch becomes what it is after the list. What the
/// list becomes is not computed.
pub(crate) fn merge_after_all(
    alloc: Global,
    q: &[Gaining],
    k: &Shared<Catch>,
) -> Result<Shared<Catch>, Unmade<NoMerge>>
    ensures exact { GivesOrRunsOut (λ answer. MatchResult answer
        (λ after. (q' : List AnyCatch) × MergesWithAll q.now k.now after q')
        (λ stuck. IsBlockedWithin q.now k.now stuck.left stuck.right)) result }
{
    let mut after = Gaining::new(alloc, k.share()?);
    for j in q {
        if !after.merge_self_with(j)? {
            return Err(Unmade::Blocked(no_merge(j, &after)));
        }
    }
    let settled = after.with_gains()?;
    Ok(settled)
}

/// Merges `k` with a `j` that begins in the same state; `k` becomes what it is after `j`.
pub(crate) fn merge_after(
    alloc: Global,
    j: &Catch,
    k: &Shared<Catch>,
) -> Result<Option<Shared<Catch>>, AllocError>
    ensures exact { IfOk result (Finds (MergesInto j.now k.now)) }
{
    if catches_merge_unchanged(alloc, j, k)? {
        return Ok(Some(k.share()?));
    }
    match catch_after(alloc, j, k)? {
        None => Ok(None),
        Some(after) => Ok(Some(Shared::new(alloc, after)?)),
    }
}

/// Returns what `k` becomes after a `j` that begins in the same state. What `j` becomes is not computed.
fn catch_after(alloc: Global, j: &Catch, k: &Catch) -> Result<Option<Catch>, AllocError>
    ensures exact { IfOk result (Finds (MergesInto j.now k.now)) }
{
    if let (Catch::Conflictor(j), Catch::Conflictor(k)) = (j, k) {
        return conflictor_after(alloc, j, k);
    }
    match merge(alloc, j, k)? {
        None => Ok(None),
        Some((after, _)) => Ok(Some(after)),
    }
}

/// Makes the first result of `(r, X, i) | (s, Y, l) -> (s2, Y', l')`, where `r2^` added to `Y` and `l` gives `Y'` and
/// `l'`. Of the second result only the identity is computed, since it joins `Y'` if the two conflict.
fn conflictor_after(
    alloc: Global,
    j: &Conflictor,
    k: &Conflictor,
) -> Result<Option<Catch>, AllocError>
    ensures exact { IfOk result (Finds (MergesInto (AnyCatch.Conflictor j.now) (AnyCatch.Conflictor k.now))) }
{
    let Some((s2, r2)) = merged_effects(alloc, &j.effect, &k.effect)? else {
        return Ok(None);
    };
    let in_conflict = conflict_before(j, k)?;
    let moved = both_added(&r2, s2, k)?;
    if !in_conflict {
        return Ok(Some(Catch::Conflictor(moved)));
    }
    let joined = joined_by_seen(moved, &j.identity)?;
    Ok(Some(Catch::Conflictor(joined)))
}

/// Makes `(s, Y and i', l)`, where `s^` added to `i` gives `i'`.
fn joined_by_seen(k: Conflictor, i: &Contexted) -> Result<Conflictor, AllocError>
    ensures { IfOk result (JoinedByAdded (inverse_all k.effect) i.now k) }
{
    let seen = seen_after(&k.effect, i)?;
    joined(k, &seen)
}
