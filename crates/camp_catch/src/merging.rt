//! Merging two catches.
ghost use Rattle.std.specs.Prelude.{◌≡◌, IfOk};
ghost use Rattle.camp_base.specs.Answers.{FindsPair};
ghost use Rattle.camp_prim.specs.Commuting.{Commute};
ghost use Rattle.camp_prim.specs.Effect.{inverse_of};
ghost use Rattle.camp_prim.specs.declared.named.Named.{Named};
ghost use Rattle.camp_seq.specs.Merging.{Merges};
ghost use Rattle.camp_seq.specs.Running.{inverse_all};
ghost use Rattle.camp_ctx.specs.Adding.{AddsAll};
ghost use Rattle.camp_ctx.specs.Conflicts.{Conflict};
ghost use Rattle.camp_ctx.specs.Contexts.{ContextedPatch, bare};
ghost use Rattle.camp_catch.specs.Inside.TwoConflictors.{EffectsMerge, GainEachOther, DecidesConflict, DecidesPlainConflict};
ghost use Rattle.camp_catch.specs.Merging.{Clean, FirstConflict, MergeCatch, MergePlainConflictor, Mirror, PlainBesideConflictor, PlainJoinsConflictor, TwoConflictors};
ghost use Rattle.camp_catch.specs.declared.catches.Catch.TheVariants.{Plain};

use crate::seen::{against, both_added, in_conflict_with, joined, one_before, undo_and_join};
use crate::values::{bare, inverse};
use crate::{Catch, Conflictor};
use camp_ctx::{Contexted, conflict, conflict_after_adding, merge_after_common};
use camp_prim::{Named, commute};
use camp_seq::{Seq, invert_all, ordered, past};
use std::alloc::{AllocError, Global};

/// Merges two catches that begin in the same state: `Some((k', j'))`, where `k'` comes after `j`, and `j'` after `k`.
/// Two plain catches always merge. `None` if one of them is a conflictor and they neither conflict nor merge cleanly.
pub fn merge(alloc: Global, j: &Catch, k: &Catch) -> Result<Option<(Catch, Catch)>, AllocError>
    ensures exact { IfOk result (FindsPair (MergeCatch j.now k.now)) }
{
    match (j, k) {
        (Catch::Plain(a), Catch::Plain(b)) => both_plain(alloc, a, b),
        (Catch::Plain(a), Catch::Conflictor(k)) => plain_and_conflictor(alloc, a, k),
        (Catch::Conflictor(j), Catch::Plain(b)) => mirror(alloc, j, b),
        (Catch::Conflictor(j), Catch::Conflictor(k)) => two_conflictors(alloc, j, k),
    }
}

/// Merges two plain catches: cleanly, or as the first conflict of each.
fn both_plain(alloc: Global, a: &Named, b: &Named) -> Result<Option<(Catch, Catch)>, AllocError>
    ensures exact { IfOk result (FindsPair (MergeCatch (Plain a.now) (Plain b.now))) }
{
    match clean(a, b)? {
        Some(pair) => Ok(Some(pair)),
        None => Ok(Some(first_conflict(alloc, a, b)?)),
    }
}

/// Makes the first conflict of two plain catches: `[a] | [b] -> ([a^], {:a}, :b) | ([b^], {:b}, :a)`.
fn first_conflict(alloc: Global, a: &Named, b: &Named) -> Result<(Catch, Catch), AllocError>
    requires { (b' a' : Named) → ¬ (Merges a.now b.now b' a') }
    ensures { IfOk result (λ pair. FirstConflict a.now b.now pair.0 pair.1) }
{
    let after = against(alloc, a, b)?;
    let beside = against(alloc, b, a)?;
    Ok((Catch::Conflictor(after), Catch::Conflictor(beside)))
}

/// Merges two plain catches cleanly: `[a] | [b] -> [b'] | [a']`.
fn clean(a: &Named, b: &Named) -> Result<Option<(Catch, Catch)>, AllocError>
    ensures exact { IfOk result (FindsPair (Clean a.now b.now)) }
{
    let Some((b, back)) = before_inverse(a, b)? else {
        return Ok(None);
    };
    Ok(Some((Catch::Plain(b), Catch::Plain(back.invert()))))
}

/// Commutes the inverse of `a` past `b`: `a^ b <-> b' back`; `None` if the two do not commute.
fn before_inverse(a: &Named, b: &Named) -> Result<Option<(Named, Named)>, AllocError>
    ensures { IfOk result (FindsPair (Commute (inverse_of a.now) b.now)) }
{
    let back = inverse(a)?;
    commute(&back, b)
}

/// Merges a plain catch and a conflictor: the plain one joins the conflictor's set if it conflicts with the
/// conflictor's identity as seen before the effect.
fn plain_and_conflictor(
    alloc: Global,
    a: &Named,
    k: &Conflictor,
) -> Result<Option<(Catch, Catch)>, AllocError>
    ensures exact { IfOk result (FindsPair (MergePlainConflictor a.now k.now)) }
{
    if conflicts_with(alloc, a, k)? {
        let joined = plain_joins_conflictor(alloc, a, k)?;
        return Ok(Some(joined));
    }
    Ok(plain_beside_conflictor(a, k)?)
}

/// True if a patch conflicts with the identity of a conflictor as seen before the conflictor's effect.
pub(crate) fn conflicts_with(alloc: Global, a: &Named, k: &Conflictor) -> Result<bool, AllocError>
    ensures { IfOk result (DecidesPlainConflict a.now k.now) }
{
    if let Some(found) = conflict_after_adding(a, &k.effect, &k.identity)? {
        return Ok(found);
    }
    let own = bare(alloc, a)?;
    let seen = Contexted::add(&k.effect, &k.identity)?;
    conflict(&own, &seen)
}

/// Merges a plain catch and a conflictor that are not in conflict:
/// `[a] | (s, Y, l) -> (s', Y', l') | [a']`, where `a'^` added to `Y` and `l` gives `Y'` and `l'`
fn plain_beside_conflictor(a: &Named, k: &Conflictor) -> Result<Option<(Catch, Catch)>, AllocError>
    requires { (seen : ContextedPatch) × AddsAll k.now.effect k.now.identity seen × (¬ (Conflict (bare a.now) seen)) }
    ensures exact { IfOk result (FindsPair (PlainBesideConflictor a.now k.now)) }
{
    let Some((merged, back)) = past(&inverse(a)?, &k.effect)? else {
        return Ok(None);
    };
    let moved = one_before(&back, merged, k)?;
    Ok(Some((Catch::Conflictor(moved), Catch::Plain(back.invert()))))
}

/// Merges a plain catch and a conflictor that are in conflict:
/// `[a] | (s, Y, l) -> (a^ s, Y and z, l) | ([], {l}, z)`, where `z` is `:a` as seen after `s`
fn plain_joins_conflictor(
    alloc: Global,
    a: &Named,
    k: &Conflictor,
) -> Result<(Catch, Catch), AllocError>
    requires { (seen : ContextedPatch) × AddsAll k.now.effect k.now.identity seen × Conflict (bare a.now) seen }
    ensures { IfOk result (λ pair. PlainJoinsConflictor a.now k.now pair.0 pair.1) }
{
    let z = patch_after(alloc, &k.effect, a)?;
    let taken = undo_and_join(alloc, a, k, &z)?;
    let beside = in_conflict_with(alloc, &k.identity, &z)?;
    Ok((Catch::Conflictor(taken), Catch::Conflictor(beside)))
}

/// Merges `(r, X, i) | [b]` as `[b] | (r, X, i)` with the two results exchanged.
fn mirror(alloc: Global, j: &Conflictor, b: &Named) -> Result<Option<(Catch, Catch)>, AllocError>
    ensures exact { IfOk result (FindsPair (Mirror j.now b.now)) }
{
    match plain_and_conflictor(alloc, b, j)? {
        None => Ok(None),
        Some((beside, after)) => Ok(Some((after, beside))),
    }
}

/// Merges two conflictors:
/// `(r, X, i) | (s, Y, l) -> (s2, Y', l') | (r2, X', i')`, where `r2^` added to `Y` and `l` gives `Y'` and `l'`, and
/// `s2^` to `X` and `i` gives `X'` and `i'`
fn two_conflictors(
    alloc: Global,
    j: &Conflictor,
    k: &Conflictor,
) -> Result<Option<(Catch, Catch)>, AllocError>
    ensures exact { IfOk result (FindsPair (TwoConflictors j.now k.now)) }
{
    let Some((s2, r2)) = merged_effects(alloc, &j.effect, &k.effect)? else {
        return Ok(None);
    };
    let in_conflict = conflict_before(j, k)?;
    let moved = both_added(&r2, s2, k)?;
    let own = both_added(&moved.effect, r2, j)?;
    let pair = joined_where(in_conflict, moved, own)?;
    Ok(Some(pair))
}

/// Merges two effects after their common part, in normal order: `r | s -> s2 | r2`.
pub(crate) fn merged_effects(
    alloc: Global,
    r: &Seq,
    s: &Seq,
) -> Result<Option<(Seq, Seq)>, AllocError>
    ensures exact { IfOk result (FindsPair (EffectsMerge r.now s.now)) }
{
    let Some((merged, left)) = merge_after_common(alloc, r, s)? else {
        return Ok(None);
    };
    Ok(Some((ordered(merged), ordered(left))))
}

/// True if two conflictors conflict: if their identities do, as seen before the effects.
pub(crate) fn conflict_before(j: &Conflictor, k: &Conflictor) -> Result<bool, AllocError>
    ensures { IfOk result (DecidesConflict j.now k.now) }
{
    let x = Contexted::add(&j.effect, &j.identity)?;
    let y = Contexted::add(&k.effect, &k.identity)?;
    conflict(&x, &y)
}

/// Turns a contexted patch, as seen before a list, into what is seen after the list.
pub(crate) fn seen_after(list: &Seq, x: &Contexted) -> Result<Contexted, AllocError>
    ensures { IfOk result (AddsAll (inverse_all list.now) x.now) }
{
    let back = invert_all(list)?;
    Contexted::add_given(back, x)
}

/// Turns `:a`, as seen before a list, into what is seen after the list.
fn patch_after(alloc: Global, list: &Seq, a: &Named) -> Result<Contexted, AllocError>
    ensures { IfOk result (AddsAll (inverse_all list.now) (bare a.now)) }
{
    let own = bare(alloc, a)?;
    seen_after(list, &own)
}

/// Adds the identity of each of two conflictors to the set of the other if the two conflict.
fn joined_where(
    in_conflict: bool,
    moved: Conflictor,
    own: Conflictor,
) -> Result<(Catch, Catch), AllocError>
    ensures { IfOk result (λ pair. GainEachOther in_conflict moved own pair.0 pair.1) }
{
    if !in_conflict {
        return Ok((Catch::Conflictor(moved), Catch::Conflictor(own)));
    }
    let first = joined(moved, &own.identity)?;
    let second = joined(own, &first.identity)?;
    Ok((Catch::Conflictor(first), Catch::Conflictor(second)))
}
