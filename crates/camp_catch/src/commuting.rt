//! Commuting two catches.
ghost use Rattle.std.specs.Prelude.{◌≡◌, ◌≤◌, ◌↔◌, [], ◌∷◌, length, IfOk, IfErr, IsTrue, None, Some};
ghost use Rattle.std.specs.FinMap.{get, len};
ghost use Rattle.camp_base.specs.Answers.{Finds, FindsPair};
ghost use Rattle.camp_prim.specs.Effect.{inverse_of};
ghost use Rattle.camp_prim.specs.Labels.{label_of};
ghost use Rattle.camp_seq.specs.NormalOrder.{Norm};
ghost use Rattle.camp_seq.specs.Passing.{Fronts, PassesAll};
ghost use Rattle.camp_ctx.specs.Adding.{AddsToContext, PassesBy};
ghost use Rattle.camp_ctx.specs.Contexts.{context_key, patch_key};
ghost use Rattle.camp_catch.specs.Commuting.{BothPlain, CommuteCatch, CommutePlainConflictor, ConflictDissolves, ConflictorPastPlain, CommuteMayAllocate, PlainLeavesTheSet, PlainPastConflictor};
ghost use Rattle.camp_catch.specs.Conflictors.{Becomes, against};
ghost use Rattle.camp_catch.specs.declared.catches.Catch.TheVariants.{Plain};

use crate::conflictors::commute_conflictors;
use crate::seen::{against, in_conflict_with, passes_before, without_member};
use crate::values::{inverse, one};
use crate::{Catch, Conflictor};
use camp_ctx::Contexted;
use camp_prim::Named;
use camp_seq::{Seq, front, past, past_all};
use std::alloc::{AllocError, Global};

/// Commutes two catches, one after the other: `Some((k', j'))`, where `k'` and then `j'` have the effect of `j` and
/// then `k`; `None` if they do not commute. Does not run out of memory for two plain catches that do not commute.
pub fn commute(alloc: Global, j: &Catch, k: &Catch) -> Result<Option<(Catch, Catch)>, AllocError>
    ensures exact { IfOk result (FindsPair (CommuteCatch j.now k.now)) }
    ensures memory { IfErr result (λ error. CommuteMayAllocate j.now k.now) }
{
    match (j, k) {
        (Catch::Plain(a), Catch::Plain(b)) => both_plain(a, b),
        (Catch::Plain(a), Catch::Conflictor(k)) => plain_before_conflictor(alloc, a, k),
        (Catch::Conflictor(j), Catch::Plain(b)) => conflictor_past_plain(alloc, j, b),
        (Catch::Conflictor(j), Catch::Conflictor(k)) => commute_conflictors(alloc, j, k),
    }
}

/// Commutes two plain catches: `[a] [b] <-> [b'] [a']`.
fn both_plain(a: &Named, b: &Named) -> Result<Option<(Catch, Catch)>, AllocError>
    ensures exact { IfOk result (FindsPair (BothPlain a.now b.now)) }
    ensures memory { IfErr result (λ error. CommuteMayAllocate (Plain a.now) (Plain b.now)) }
{
    let Some((b, a)) = camp_prim::commute(a, b)? else {
        return Ok(None);
    };
    Ok(Some((Catch::Plain(b), Catch::Plain(a))))
}

/// Commutes a plain catch and a conflictor after it, in one of three cases: the plain catch is not in the conflictor's
/// set, is alone in it, or is one of several there.
fn plain_before_conflictor(
    alloc: Global,
    a: &Named,
    k: &Conflictor,
) -> Result<Option<(Catch, Catch)>, AllocError>
    ensures { IfOk result (FindsPair (CommutePlainConflictor a.now k.now)) }
{
    match k.conflicts.get(&a.label().key()) {
        None => plain_past_conflictor(a, k),
        Some(_) if k.conflicts.len() == 1 => conflict_dissolves(alloc, a, k),
        Some(z) => plain_leaves_the_set(alloc, a, k, z),
    }
}

/// Commutes a plain catch past a conflictor that does not conflict with it:
/// `[a] (s, Y, l) <-> (s', Y', l') [a']`, where `a'` added to `Y` gives `Y'`
fn plain_past_conflictor(a: &Named, k: &Conflictor) -> Result<Option<(Catch, Catch)>, AllocError>
    requires { get k.now.conflicts (patch_key a.now) ≡ None }
    ensures { IfOk result (FindsPair (PlainPastConflictor a.now k.now)) }
{
    let Some((passed, a)) = past(a, &k.effect)? else {
        return Ok(None);
    };
    match passes_before(&a, passed, k)? {
        None => Ok(None),
        Some(moved) => Ok(Some((Catch::Conflictor(moved), Catch::Plain(a)))),
    }
}

/// Commutes a conflictor past a plain catch:
/// `(r, X, i) [b] <-> [b'] (r', X', i')`, where `b^` added to `X` gives `X'`
fn conflictor_past_plain(
    alloc: Global,
    j: &Conflictor,
    b: &Named,
) -> Result<Option<(Catch, Catch)>, AllocError>
    ensures { IfOk result (FindsPair (ConflictorPastPlain j.now b.now)) }
{
    let Some((second, left)) = comes_before(alloc, &j.effect, b)? else {
        return Ok(None);
    };
    match inverse_passes_before(b, left, j)? {
        None => Ok(None),
        Some(moved) => Ok(Some((Catch::Plain(second), Catch::Conflictor(moved)))),
    }
}

/// Makes `(s', X', i')`, where `s'` is `s` in normal order, `b^` added to `X` gives `X'`, and `b^` commuted past `i`
/// gives `i'`; `None` if `b^` cannot pass `i`.
fn inverse_passes_before(
    b: &Named,
    s: Seq,
    j: &Conflictor,
) -> Result<Option<Conflictor>, AllocError>
    ensures { IfOk result (Finds
        (Becomes (Norm s) (AddsToContext (inverse_of b.now)) (PassesBy (inverse_of b.now)) j.now)) }
{
    let back = inverse(b)?;
    passes_before(&back, s, j)
}

/// Commutes `b` to before all of `r`: `Some((b', r'))`, where `b'` and then `r'` are equivalent to `r` and
/// then `b`; `None` if it is blocked.
fn comes_before(alloc: Global, r: &Seq, b: &Named) -> Result<Option<(Named, Seq)>, AllocError>
    ensures { IfOk result (FindsPair (λ b' left. PassesAll r.now (b.now ∷ []) (b' ∷ []) left)) }
{
    let single = one(alloc, b)?;
    let Some((before, left)) = past_all(r, &single)? else {
        return Ok(None);
    };
    let first = first_of(before.items())?;
    Ok(Some((first, left)))
}

/// Returns the element of a list of one.
fn first_of(list: &[Named]) -> Result<Named, AllocError>
    requires { length list.now ≡ 1 }
    ensures { IfOk result (λ first. list.now ≡ first ∷ []) }
{
    list[0].try_clone()
}

/// Dissolves a conflict with one patch: `[a] ([a^], {:a}, :q) <-> [q] ([q^], {:q}, :a)`.
fn conflict_dissolves(
    alloc: Global,
    a: &Named,
    k: &Conflictor,
) -> Result<Option<(Catch, Catch)>, AllocError>
    ensures { IfOk result (FindsPair (ConflictDissolves a.now k.now)) }
{
    if !is_against(alloc, a, k)? {
        return Ok(None);
    }
    let q = k.identity.patch();
    let first = against(alloc, q, a)?;
    let second = q.try_clone()?;
    Ok(Some((Catch::Plain(second), Catch::Conflictor(first))))
}

/// True if a conflictor is `([a^], {:a}, :q)`, where `q` is the patch of its identity.
fn is_against(alloc: Global, a: &Named, k: &Conflictor) -> Result<bool, AllocError>
    ensures { IfOk result (λ told. IsTrue told ↔ (k.now ≡ against a.now k.now.identity.patch)) }
{
    let both = against(alloc, a, k.identity.patch())?;
    Ok(k.is_same(&both))
}

/// Commutes a plain catch past a conflictor that conflicts with it and with others:
/// `[a] (s, Y, l) <-> (s', Y without a, l) ([], {l}, z)`, where `s ~ a^ s'`
fn plain_leaves_the_set(
    alloc: Global,
    a: &Named,
    k: &Conflictor,
    z: &Contexted,
) -> Result<Option<(Catch, Catch)>, AllocError>
    requires member { get k.now.conflicts (patch_key a.now) ≡ Some z.now }
    requires named { context_key z.now ≡ patch_key a.now }
    requires several { 2 ≤ len k.now.conflicts }
    ensures { IfOk result (FindsPair (PlainLeavesTheSet a.now k.now)) }
{
    let Some(rest) = without_inverse(a, &k.effect)? else {
        return Ok(None);
    };
    let second = without_member(&a.label().key(), rest, k)?;
    let first = in_conflict_with(alloc, &k.identity, z)?;
    Ok(Some((Catch::Conflictor(second), Catch::Conflictor(first))))
}

/// Moves the inverse of `a` to the front of a list, and returns the rest. `None` if it cannot be moved there, or if the
/// list does not contain it.
fn without_inverse(a: &Named, s: &Seq) -> Result<Option<Seq>, AllocError>
    ensures { IfOk result
        (Finds (λ rest. Fronts (label_of (inverse_of a.now)) s.now (inverse_of a.now) rest)) }
{
    let Some((back, rest)) = front(s, &a.label().opposite())? else {
        return Ok(None);
    };
    if !back.invert().is_same(a) {
        return Ok(None);
    }
    Ok(Some(rest))
}
