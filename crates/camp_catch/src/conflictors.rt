//! Commuting two conflictors.
ghost use Rattle.std.specs.Prelude.{◌≡◌, ◌≢◌, ◌≤◌, ◌↔◌, All, IfOk, IsTrue, None, Some};
ghost use Rattle.std.specs.FinMap.{get, len};
ghost use Rattle.camp_base.specs.Answers.{FindsPair};
ghost use Rattle.camp_seq.specs.NormalOrder.{Splits};
ghost use Rattle.camp_seq.specs.Running.{inverse_all};
ghost use Rattle.camp_ctx.specs.Contexts.{context_key, patch_key, ContextedPatch};
ghost use Rattle.camp_catch.specs.Commuting.{CommuteConflictors, EffectsPass, OneOfSeveralConflicts, OnlyConflictGoes, TwoConflictorsApart, labels_undone};
ghost use Rattle.camp_catch.specs.Inside.Seen.{JoinedAfter, JoinsInOrder, LeavesTheOthers};

use crate::seen::{
    all_pass_before, both_added, has_no_context, joined, others_before, undo_and_join,
};
use crate::values::is_undone;
use crate::{Catch, Conflictor};
use camp_ctx::{Contexted, CtxSet, join};
use camp_prim::{Key, Label, Named};
use camp_seq::{Seq, ordered, past_all, split};
use std::alloc::{AllocError, Global};

/// Commutes two conflictors, in one of three cases: the first is not in the second's set, is alone in it, or is one of
/// several there.
pub(crate) fn commute_conflictors(
    alloc: Global,
    j: &Conflictor,
    k: &Conflictor,
) -> Result<Option<(Catch, Catch)>, AllocError>
    ensures { IfOk result (FindsPair (CommuteConflictors j.now k.now)) }
{
    match k.conflicts.get(&j.identity.key()) {
        None => two_conflictors_apart(alloc, j, k),
        Some(_) if k.conflicts.len() == 1 => only_conflict_goes(alloc, j, k),
        Some(_) => one_of_several_conflicts(alloc, j, k),
    }
}

/// Commutes two conflictors that are not in conflict:
/// `(common rr, X, i) (s, Y, l) <-> (common s', Y', l') (rr', X', i')`
fn two_conflictors_apart(
    alloc: Global,
    j: &Conflictor,
    k: &Conflictor,
) -> Result<Option<(Catch, Catch)>, AllocError>
    requires { get k.now.conflicts (context_key j.now.identity) ≡ None }
    ensures { IfOk result (FindsPair (TwoConflictorsApart j.now k.now)) }
{
    if !lacks_key(k.identity.context().items(), &j.identity.key()) {
        return Ok(None);
    }
    let Some((effect, rest)) = effects_pass(alloc, &j.effect, &k.effect, &k.conflicts)? else {
        return Ok(None);
    };
    let Some(moved) = all_pass_before(&rest, effect, k)? else {
        return Ok(None);
    };
    let own = both_added(&k.effect, rest, j)?;
    Ok(Some((Catch::Conflictor(moved), Catch::Conflictor(own))))
}

/// Commutes two conflictors of which the second conflicts with the first alone:
/// `(r, X, i) ([], {x}, l) <-> [a] (a^ r, X and l, i)`, where `r` added to `l` gives `:a`
fn only_conflict_goes(
    alloc: Global,
    j: &Conflictor,
    k: &Conflictor,
) -> Result<Option<(Catch, Catch)>, AllocError>
    ensures { IfOk result (FindsPair (OnlyConflictGoes j.now k.now)) }
{
    let Some(x) = k.conflicts.sole() else {
        return Ok(None);
    };
    if !has_key(x.patch(), &j.identity.key()) {
        return Ok(None);
    }
    if !k.effect.items().is_empty() {
        return Ok(None);
    }
    let seen = Contexted::add(&j.effect, &k.identity)?;
    if !has_no_context(&seen) {
        return Ok(None);
    }
    let a = seen.patch();
    let first = undo_and_join(alloc, a, j, &k.identity)?;
    let second = a.try_clone()?;
    Ok(Some((Catch::Plain(second), Catch::Conflictor(first))))
}

/// Commutes two conflictors of which the second conflicts with the first and with others:
/// `(common rr, X, i) (s, Y, l) <-> (common s', Z', l') (rr', X' and l, i')`, where `Z` is `Y` without `j`
fn one_of_several_conflicts(
    alloc: Global,
    j: &Conflictor,
    k: &Conflictor,
) -> Result<Option<(Catch, Catch)>, AllocError>
    requires member { (z : ContextedPatch) × (get k.now.conflicts (context_key j.now.identity) ≡ Some z) }
    requires several { 2 ≤ len k.now.conflicts }
    ensures { IfOk result (FindsPair (OneOfSeveralConflicts j.now k.now)) }
{
    let Some((moved, rest)) = leaves_the_others(alloc, j, k)? else {
        return Ok(None);
    };
    let own = joined_after(&k.effect, rest, j, &k.identity)?;
    Ok(Some((Catch::Conflictor(moved), Catch::Conflictor(own))))
}

/// Makes `(common s', Z', l')` and `rr'`, where `rr s <-> s' rr'`; `None` if `rr` and `s` do not commute.
fn leaves_the_others(
    alloc: Global,
    j: &Conflictor,
    k: &Conflictor,
) -> Result<Option<(Conflictor, Seq)>, AllocError>
    ensures { IfOk result (FindsPair (LeavesTheOthers j.now k.now)) }
{
    let others = k.conflicts.without(&j.identity.key())?;
    let Some((effect, rest)) = effects_pass(alloc, &j.effect, &k.effect, &others)? else {
        return Ok(None);
    };
    let moved = others_before(&rest, effect, k, &others)?;
    Ok(Some((moved, rest)))
}

/// Makes `(s, X' and l, i')`, where `r^` added to `X` and `i` gives `X'` and `i'`.
fn joined_after(r: &Seq, s: Seq, k: &Conflictor, l: &Contexted) -> Result<Conflictor, AllocError>
    ensures { IfOk result (JoinedAfter (inverse_all r.now) s k.now l.now) }
{
    let moved = both_added(r, s, k)?;
    joined(moved, l)
}

/// Commutes two effects, but leaves first those primitives of the first effect that undo members of a set.
fn effects_pass(
    alloc: Global,
    r: &Seq,
    s: &Seq,
    ys: &CtxSet,
) -> Result<Option<(Seq, Seq)>, AllocError>
    ensures { IfOk result (FindsPair (EffectsPass r.now s.now ys.now)) }
{
    let Some((common, rest)) = parted(alloc, r, ys)? else {
        return Ok(None);
    };
    let Some((second, first)) = past_all(&rest, s)? else {
        return Ok(None);
    };
    let effect = in_order(alloc, &common, second)?;
    Ok(Some((effect, ordered(first))))
}

/// Splits a list into the primitives that undo members of a set, and the rest.
fn parted(alloc: Global, r: &Seq, ys: &CtxSet) -> Result<Option<(Seq, Seq)>, AllocError>
    ensures { IfOk result (FindsPair (Splits (labels_undone r.now ys.now) r.now)) }
{
    let labels = labels_undone(alloc, r.items(), ys)?;
    Ok(split(r, labels.as_slice())?)
}

/// Joins a list and the normal order of another, and puts the result in normal order.
fn in_order(alloc: Global, common: &Seq, s: Seq) -> Result<Seq, AllocError>
    ensures { IfOk result (JoinsInOrder common.now s) }
{
    let rest = ordered(s);
    let whole = join(alloc, common.items(), rest.items())?;
    Ok(ordered(whole))
}

/// Returns the labels of those inverses in a list whose absolute labels are in a set.
fn labels_undone(alloc: Global, r: &[Named], ys: &CtxSet) -> Result<Vec<Label>, AllocError>
    ensures { IfOk result (λ labels. labels.items ≡ labels_undone r.now ys.now) }
{
    r.iter()
        .filter(|p| is_undone(p, ys))
        .map(|p| p.label())
        .collect(alloc)
}

/// True if no element of a list has the absolute label.
pub(crate) fn lacks_key(s: &[Named], key: &Key) -> bool
    ensures { IsTrue result ↔ All (λ p. patch_key p ≢ key.now) s.now }
{
    s.iter().all(|p| !has_key(p, key))
}

fn has_key(p: &Named, key: &Key) -> bool
    ensures { IsTrue result ↔ (patch_key p.now ≡ key.now) }
{
    p.label().key() == *key
}
