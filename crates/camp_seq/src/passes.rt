//! Commuting a primitive or a list past a list.
ghost use Rattle.std.specs.Prelude.{IfOk};
ghost use Rattle.std.specs.Bool.{then_some};
ghost use Rattle.camp_base.specs.Answers.{Changes, FindsPair};
ghost use Rattle.camp_seq.specs.Inside.InPlace.{CommutedLeftTo, CommutedRightTo, PassesInPlace, CommutesBeforeAllInPlace};
ghost use Rattle.camp_seq.specs.Passing.{Passes, PassesAll, PassesWithLast};

use crate::Seq;
use crate::fast::is_blocked_by_head;
use camp_prim::{Named, commute_in_place};
use std::alloc::AllocError;

/// Commutes `p` past all of `s`: `Some((s', p'))`, where `s'` and then `p'` are equivalent to `p` and then
/// `s`; `None` if it cannot pass.
pub fn past(p: &Named, s: &Seq) -> Result<Option<(Seq, Named)>, AllocError>
    ensures exact { IfOk result (FindsPair (Passes p.now s.now)) }
{
    if is_blocked_by_head(p, &s.items) {
        return Ok(None);
    }
    let mut before = s.try_clone()?;
    let mut behind = p.try_clone()?;
    if !pass(&mut behind, &mut before.items) {
        return Ok(None);
    }
    Ok(Some((before, behind)))
}

/// Commutes `r` past all of `s`, from its last primitive to its first: `Some((s', r'))`, where `s'` and then
/// `r'` are equivalent to `r` and then `s`; `None` if one cannot pass.
pub fn past_all(r: &Seq, s: &Seq) -> Result<Option<(Seq, Seq)>, AllocError>
    ensures exact { IfOk result (FindsPair (PassesAll r.now s.now)) }
{
    let mut before = s.try_clone()?;
    let mut behind = r.try_clone()?;
    if !commute_past_all(&mut behind, &mut before) {
        return Ok(None);
    }
    Ok(Some((before, behind)))
}

/// Commutes all of `r` past `s`, in place. False if one cannot pass; both lists are then partly commuted.
pub(crate) fn commute_past_all(r: &mut Seq, s: &mut Seq) -> bool
    ensures exact { FindsPair (PassesAll r.old s.old) (then_some result (s.new, r.new)) }
{
    pass_all(&mut r.items, &mut s.items)
}

#[tactic(auto, using(crate::proofs::ListSteps::none_done))]
fn pass_all(r: &mut [Named], s: &mut [Named]) -> bool
    ensures exact { FindsPair (PassesAll r.old s.old) (then_some result (s.new, r.new)) }
{
    for at in (0..r.len()).rev() {
        if !pass(&mut r[at], s) {
            return false;
        }
    }
    true
}

/// Commutes `p` past all of `s`, which comes after it, in place. False if it cannot pass; both are then partly
/// commuted.
pub(crate) fn pass(p: &mut Named, s: &mut [Named]) -> bool
    ensures exact { FindsPair (Passes p.old s.old) (then_some result (s.new, p.new)) }
{
    let at = commute_right(p, s);
    at == s.len()
}

/// Commutes `p` past all of `s` and then past `last`, in place. False if it cannot pass; all are then
/// unchanged.
pub fn pass_by(p: &mut Named, s: &mut Seq, last: &mut Named) -> bool
    ensures exact { Changes PassesWithLast (p.old, s.old, last.old) result (p.new, s.new, last.new) }
{
    pass_with_last(p, &mut s.items, last)
}

fn pass_with_last(p: &mut Named, s: &mut [Named], last: &mut Named) -> bool
    ensures exact { Changes PassesWithLast (p.old, s.old, last.old) result (p.new, s.new, last.new) }
{
    if !pass_or_stay(p, s) {
        return false;
    }
    if !commute_in_place(p, last) {
        commute_before_all(s, p);
        return false;
    }
    true
}

/// Commutes `p` past all of `s`, which comes after it, in place. False if it cannot pass; both are then unchanged.
fn pass_or_stay(p: &mut Named, s: &mut [Named]) -> bool
    ensures exact { Changes PassesInPlace (p.old, s.old) result (p.new, s.new) }
{
    let at = commute_right(p, s);
    if at < s.len() {
        commute_before_all(&mut s[..at], p);
        return false;
    }
    true
}

/// Commutes `p`, which comes before `s`, as far to the right as it can be moved, in place. Returns the number of
/// elements of `s` that then come before `p`.
fn commute_right(p: &mut Named, s: &mut [Named]) -> usize
    ensures { CommutedRightTo s.old p.old result s.new p.new }
{
    for at in 0..s.len() {
        if !commute_in_place(p, &mut s[at]) {
            return at;
        }
    }
    s.len()
}

/// Commutes `p`, which comes after `s`, past all of it to the left, in place. False if it cannot be moved there; both
/// are then unchanged.
pub(crate) fn commute_before_all(s: &mut [Named], p: &mut Named) -> bool
    ensures exact { Changes CommutesBeforeAllInPlace (s.old, p.old) result (s.new, p.new) }
{
    let at = commute_left(s, p);
    if at > 0 {
        pass(p, &mut s[at..]);
        return false;
    }
    true
}

/// Commutes `p`, which comes after `s`, as far to the left as it can be moved, in place. Returns the number of elements
/// of `s` that then come before `p`.
#[tactic(auto, using(crate::proofs::ListSteps::none_done))]
pub(crate) fn commute_left(s: &mut [Named], p: &mut Named) -> usize
    ensures { CommutedLeftTo s.old p.old result s.new p.new }
{
    for at in (0..s.len()).rev() {
        if !commute_in_place(&mut s[at], p) {
            return at + 1;
        }
    }
    0
}
