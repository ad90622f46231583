//! Quick checks of what stays unchanged when a primitive is added.
ghost use Rattle.std.specs.Prelude.{◌≤◌, length, drop, IsTrue, slice_get};
ghost use Rattle.std.specs.FinMap as map;
ghost use Rattle.camp_seq.specs.NormalOrder.{Norm};
ghost use Rattle.camp_ctx.specs.Adding.{AddsToContext, AddsAll, PassesBy};
ghost use Rattle.camp_ctx.specs.Contexts.{ChangesAt, EachMember};
ghost use Rattle.camp_ctx.specs.Inside.InPlace.{in_context};

use crate::{Contexted, CtxSet};
use camp_prim::{Named, commutes_unchanged};
use camp_seq::{Seq, stays_past};

impl Contexted {
    /// True only if `a` passes the contexted patch, and adding `a` leaves it unchanged. False decides nothing. Does not
    /// allocate.
    pub fn stays_unchanged(&self, a: &Named) -> bool
        ensures sound { IsTrue result → AddsToContext a.now self.now self.now }
        ensures passes { IsTrue result → PassesBy a.now self.now self.now }
    {
        stays(a, self.context(), self.patch(), self.context_is_ordered())
    }
}

/// Makes the check of `stays_unchanged` for a context and the patch after it; `told` is true only if the context is its
/// own normal order.
pub(crate) fn stays(a: &Named, context: &Seq, patch: &Named, told: bool) -> bool
    requires { IsTrue told → Norm context.now context.now }
    ensures sound { IsTrue result → AddsToContext a.now (in_context context.now patch.now) (in_context context.now patch.now) }
    ensures passes { IsTrue result → PassesBy a.now (in_context context.now patch.now) (in_context context.now patch.now) }
{
    if !told {
        return false;
    }
    if !stays_past(a, context.items()) {
        return false;
    }
    commutes_unchanged(a, patch)
}

/// Returns the number of elements of a list, from its start, that have to be added: those after them leave the
/// contexted patch unchanged.
pub(crate) fn changing(r: &[Named], x: &Contexted) -> usize
    ensures within { result ≤ length r.now }
    ensures added { AddsAll (drop result r.now) x.now x.now }
{
    for at in (0..r.len()).rev() {
        if !x.stays_unchanged(&r[at]) {
            return at + 1;
        }
    }
    0
}

impl CtxSet {
    /// True only if adding `a` leaves each member unchanged. False decides nothing. Does not allocate.
    pub fn stays_unchanged(&self, a: &Named) -> bool
        ensures sound { IsTrue result → EachMember (AddsToContext a.now) self.now self.now }
    {
        for index in 0..self.len() {
            if !member_stays(self, index, a) {
                return false;
            }
        }
        true
    }
}

/// True if the member at `index`, if there is one, is unchanged when `a` is added.
fn member_stays(set: &CtxSet, index: usize, a: &Named) -> bool
    ensures { IsTrue result → ChangesAt (AddsToContext a.now)
        (slice_get (map.values set.now) index) (slice_get (map.values set.now) index) }
{
    match set.at(index) {
        None => true,
        Some(member) => member.stays_unchanged(a),
    }
}
