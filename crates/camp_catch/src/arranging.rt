//! Moving the catches of some patches to the front of a list.
ghost use Rattle.std.specs.Prelude.{◌↔◌, IsTrue};
ghost use Rattle.std.specs.FinMap.{keys};
ghost use Rattle.std.specs.Ordering.{nat_cmp};
ghost use Rattle.std.specs.Cmp.Lexicographic.{slice_cmp};
ghost use Rattle.std.specs.Result.{MatchResult};
ghost use Rattle.camp_share.specs.Maps.{map_of};
ghost use Rattle.camp_catch.specs.Arranging.{Arrange, ArrangeIsBlocked, IsOf};
ghost use Rattle.camp_catch.specs.Making.{GivesOrRunsOut};

use crate::fast::{Gaining, HashedCatch, all_with_gains};
use crate::moves::commute_before_all;
use crate::{Catch, Unmade};
use camp_base::Name;
use camp_prim::Key;
use camp_share::{Share, Shared, SharedMap};
use std::alloc::Global;

/// The result of an arrangement: the catches of some patches, and the others, which come after them.
#[derive(Drop)]
pub struct Arranged {
    pub first: Vec<Shared<Catch>>,
    pub rest: Vec<Shared<Catch>>,
}

/// A catch that is blocked on its way to the front, and the catch that blocks it.
#[derive(Clone, Copy, Debug, PartialEq, Eq)]
pub struct Stuck {
    pub patch: Key,
    pub on: Key,
}

/// Commutes the catches of some patches to the front, past the others; the keys of the map are the names of the
/// patches. Blocked if one of the catches cannot pass one of the others; the first such pair is reported. Catches that
/// do not change are shared with the old list.
pub fn arrange<V>(
    alloc: Global,
    list: &[Shared<Catch>],
    names: &SharedMap<Name, V>,
) -> Result<Arranged, Unmade<Stuck>>
    ensures exact { GivesOrRunsOut (λ answer. MatchResult answer
        (λ arranged. Arrange (keys (map_of (slice_cmp nat_cmp) names.now)) list.now arranged.first.items arranged.rest.items)
        (λ stuck. ArrangeIsBlocked (keys (map_of (slice_cmp nat_cmp) names.now)) list.now stuck.patch stuck.on)) result }
{
    let mut first = Vec::new(alloc);
    let mut rest = Vec::new(alloc);
    for catch in list {
        let catch = catch.share()?;
        if !is_of(names, &catch) {
            rest.push(Gaining::new(alloc, catch))?;
            continue;
        }
        let patch = catch.key();
        let mut coming = HashedCatch::new(catch);
        if let Some(on) = commute_before_all(&mut rest, &mut coming)? {
            return Err(Unmade::Blocked(Stuck { patch, on }));
        }
        first.push(coming.into_catch())?;
    }
    let rest = all_with_gains(alloc, rest)?;
    Ok(Arranged { first, rest })
}

/// True if a catch belongs to one of the patches, whose names are the keys of the map.
fn is_of<V>(names: &SharedMap<Name, V>, catch: &Catch) -> bool
    ensures { IsTrue result ↔ IsOf (keys (map_of (slice_cmp nat_cmp) names.now)) catch.now }
{
    names.contains_key(catch.name())
}
