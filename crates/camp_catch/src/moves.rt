//! Moving a catch within a list.
ghost use Rattle.std.specs.Prelude.{◌≡◌, IfOk, MatchOption};
ghost use Rattle.camp_base.specs.Answers.{Changes};
ghost use Rattle.camp_catch.specs.Arranging.{CatchCommutesBeforeAll, IsBlockedByKey};
ghost use Rattle.camp_catch.specs.Inside.InPlace.{CatchesCommuteInPlace};

use crate::fast::{Gaining, HashedCatch, catches_commute_unchanged};
use crate::{Catch, commute};
use camp_prim::Key;
use camp_share::Shared;
use std::alloc::{AllocError, Global};

/// Commutes a catch, which comes after a list, to before all of it, in place. If a catch blocks it, returns the
/// absolute label of that one; both are then partly commuted.
pub(crate) fn commute_before_all(
    list: &mut [Gaining],
    coming: &mut HashedCatch,
) -> Result<Option<Key>, AllocError>
    ensures exact { IfOk result (λ stopped. MatchOption stopped
        (CatchCommutesBeforeAll list.old coming.old coming.new list.new)
        (IsBlockedByKey list.old coming.old)) }
{
    for at in (0..list.len()).rev() {
        if !list[at].commute_with(coming)? {
            return Ok(Some(list[at].key()));
        }
    }
    Ok(None)
}

/// Commutes `j` and the `k` after it, in place.
pub(crate) fn commute_in_place(
    alloc: Global,
    j: &mut Shared<Catch>,
    k: &mut Shared<Catch>,
) -> Result<bool, AllocError>
    ensures exact { IfOk result (λ done. Changes CatchesCommuteInPlace (j.old, k.old) done (j.new, k.new)) }
{
    if catches_commute_unchanged(j, k)? {
        return Ok(true);
    }
    let Some(pair) = commute(alloc, j, k)? else {
        return Ok(false);
    };
    write_both(alloc, pair, j, k)?;
    Ok(true)
}

/// Writes the two results of commuting or merging: the first to `k`, the second to `j`.
pub(crate) fn write_both(
    alloc: Global,
    pair: (Catch, Catch),
    j: &mut Shared<Catch>,
    k: &mut Shared<Catch>,
) -> Result<(), AllocError>
    ensures { IfOk result (λ done. (k.new ≡ pair.0) × (j.new ≡ pair.1)) }
{
    let (first, second) = pair;
    let second = Shared::new(alloc, second)?;
    *k = Shared::new(alloc, first)?;
    *j = second;
    Ok(())
}
