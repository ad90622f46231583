//! Putting a list of catches in a given order.
ghost use Rattle.std.specs.Prelude.{◌≡◌, ◌↔◌, IfOk, IsTrue, MatchOption};
ghost use Rattle.std.specs.Bool.{then_some};
ghost use Rattle.std.specs.Result.{MatchResult};
ghost use Rattle.camp_base.specs.Answers.{Finds};
ghost use Rattle.camp_catch.specs.Arranging.{Align, AlignIsBlocked};
ghost use Rattle.camp_catch.specs.Catches.{catch_key};
ghost use Rattle.camp_catch.specs.Inside.InPlace.{CatchMovesToFrontInPlace, FirstWithKey, LacksKey};
ghost use Rattle.camp_catch.specs.Inside.Hashes.{hash_of};
ghost use Rattle.camp_catch.specs.Making.{GivesOrRunsOut};

use crate::fast::{Gaining, HashedCatch, all_gaining, all_with_gains, hash_of};
use crate::moves::commute_before_all;
use crate::{Catch, Unmade};
use camp_prim::Key;
use camp_share::Shared;
use std::alloc::{AllocError, Global};

/// Commutes the catches with these absolute labels to the front, in this order; the others follow in their own order.
/// Blocked by the first label whose catch cannot be moved to its position, or that no catch has. A catch that is
/// already in its position is not moved.
pub fn align(
    alloc: Global,
    list: &[Shared<Catch>],
    order: &[Key],
) -> Result<Vec<Shared<Catch>>, Unmade<Key>>
    ensures exact { GivesOrRunsOut (λ answer. MatchResult answer
        (λ aligned. Align order.now list.now aligned.items)
        (AlignIsBlocked order.now list.now)) result }
{
    let mut aligned = all_gaining(alloc, list)?;
    put_in_order(alloc, &mut aligned, order)?;
    let settled = all_with_gains(alloc, aligned)?;
    Ok(settled)
}

/// Puts a list in the order of these labels, in place. If a label is blocked, the list is partly reordered.
fn put_in_order(alloc: Global, list: &mut [Gaining], order: &[Key]) -> Result<(), Unmade<Key>>
    ensures exact { GivesOrRunsOut (λ answer. MatchResult answer
        (λ _. Align order.now list.old list.new)
        (AlignIsBlocked order.now list.old)) result }
{
    for (at, key) in order.iter().enumerate() {
        if !move_to_front(alloc, &mut list[at..], key)? {
            return Err(Unmade::Blocked(*key));
        }
    }
    Ok(())
}

/// Commutes the first catch with a label to the front, in place. False if there is none or it is blocked; the
/// list is then partly commuted.
fn move_to_front(alloc: Global, list: &mut [Gaining], key: &Key) -> Result<bool, AllocError>
    ensures exact { IfOk result (λ found. Finds (CatchMovesToFrontInPlace key.now list.old) (then_some found list.new)) }
{
    let Some(at) = index_of(list, key) else {
        return Ok(false);
    };
    if at == 0 {
        return Ok(true);
    }
    let (before, from) = list.split_at_mut(at);
    let mut coming = HashedCatch::new(from[0].with_gains()?);
    match commute_before_all(before, &mut coming)? {
        Some(_) => Ok(false),
        None => {
            from[0] = Gaining::new(alloc, coming.into_catch());
            list[..at + 1].rotate_right(1);
            Ok(true)
        }
    }
}

/// Finds the index of the first catch with a label.
fn index_of(list: &[Gaining], key: &Key) -> Option<usize>
    ensures { MatchOption result (LacksKey key.now list.now) (FirstWithKey key.now list.now) }
{
    let hash = hash_of(key.name.bytes());
    for (at, catch) in list.iter().enumerate() {
        if has_key(catch, key, hash) {
            return Some(at);
        }
    }
    None
}

/// True if a catch has a label. `hash` is that of the label's name.
fn has_key(catch: &Gaining, key: &Key, hash: u64) -> bool
    requires { hash ≡ hash_of key.now.name }
    ensures { IsTrue result ↔ (catch_key catch.now ≡ key.now) }
{
    if catch.has_other_name(hash) {
        return false;
    }
    catch.key() == *key
}
