//! Quick checks for catches that commute or merge unchanged.
ghost use Rattle.std.specs.Prelude.{IfOk, IsTrue};
ghost use Rattle.camp_ctx.specs.Adding.{AddsToContext, PassesBy};
ghost use Rattle.camp_seq.specs.NormalOrder.{Norm};
ghost use Rattle.camp_seq.specs.Passing.{Passes};
ghost use Rattle.camp_catch.specs.Commuting.{CommuteCatch, ConflictorPastPlain, PlainPastConflictor};
ghost use Rattle.camp_catch.specs.Conflictors.{Becomes};
ghost use Rattle.camp_catch.specs.Merging.{MergeCatch, MergePlainConflictor};
ghost use Rattle.camp_catch.specs.declared.catches.Catch.{Catch as AnyCatch};
ghost use Rattle.camp_catch.specs.declared.catches.Catch.TheVariants.{Plain};

use crate::merging::conflicts_with;
use crate::values::inverse;
use crate::{Catch, Conflictor};
use camp_prim::{Named, commutes_unchanged};
use camp_seq::{is_own_order, stays_past};
use std::alloc::{AllocError, Global};

/// True only if two catches, one after the other, commute unchanged, by a quick check. False decides nothing.
pub(crate) fn catches_commute_unchanged(j: &Catch, k: &Catch) -> Result<bool, AllocError>
    ensures { IfOk result (λ yes. IsTrue yes → CommuteCatch j.now k.now k.now j.now) }
{
    match (j, k) {
        (Catch::Plain(a), Catch::Plain(b)) => Ok(commutes_unchanged(a, b)),
        (Catch::Plain(a), Catch::Conflictor(k)) => Ok(plain_passes_unchanged(a, k)),
        (Catch::Conflictor(j), Catch::Plain(b)) => conflictor_passes_unchanged(j, b),
        _ => Ok(false),
    }
}

/// True only if `[a] (s, Y, l) <-> (s, Y, l) [a]`.
fn plain_passes_unchanged(a: &Named, k: &Conflictor) -> bool
    ensures { IsTrue result → PlainPastConflictor a.now k.now (AnyCatch.Conflictor k.now) (Plain a.now) }
{
    match k.conflicts.get(&a.label().key()) {
        Some(_) => false,
        None => stays_unchanged(a, k),
    }
}

/// True only if `(r, X, i) [b] <-> [b] (r, X, i)`.
fn conflictor_passes_unchanged(j: &Conflictor, b: &Named) -> Result<bool, AllocError>
    ensures { IfOk result (λ yes. IsTrue yes → ConflictorPastPlain j.now b.now (Plain b.now) (AnyCatch.Conflictor j.now)) }
{
    let back = inverse(b)?;
    Ok(stays_unchanged(&back, j))
}

/// True only if a plain catch and a conflictor of the same state merge unchanged. False decides nothing.
pub(crate) fn catches_merge_unchanged(
    alloc: Global,
    j: &Catch,
    k: &Catch,
) -> Result<bool, AllocError>
    ensures { IfOk result (λ yes. IsTrue yes → MergeCatch j.now k.now k.now j.now) }
{
    match (j, k) {
        (Catch::Plain(a), Catch::Conflictor(k)) => plain_merges_unchanged(alloc, a, k),
        (Catch::Conflictor(j), Catch::Plain(b)) => plain_merges_unchanged(alloc, b, j),
        _ => Ok(false),
    }
}

/// True only if `[a] | (s, Y, l) -> (s, Y, l) | [a]`.
fn plain_merges_unchanged(alloc: Global, a: &Named, k: &Conflictor) -> Result<bool, AllocError>
    ensures { IfOk result (λ yes. IsTrue yes → MergePlainConflictor a.now k.now (AnyCatch.Conflictor k.now) (Plain a.now)) }
{
    let back = inverse(a)?;
    if !stays_unchanged(&back, k) {
        return Ok(false);
    }
    let in_conflict = conflicts_with(alloc, a, k)?;
    Ok(!in_conflict)
}

/// True only if a conflictor is unchanged when `a` passes its effect, is added to each of its conflicts, and is added
/// to its identity or passes it.
fn stays_unchanged(a: &Named, k: &Conflictor) -> bool
    ensures passes { IsTrue result → Passes a.now k.now.effect k.now.effect a.now }
    ensures becomes { IsTrue result → Becomes (Norm k.now.effect) (AddsToContext a.now) (AddsToContext a.now) k.now k.now }
    ensures passed { IsTrue result → Becomes (Norm k.now.effect) (AddsToContext a.now) (PassesBy a.now) k.now k.now }
{
    let effect = k.effect.items();
    stays_past(a, effect)
        && is_own_order(effect)
        && k.identity.stays_unchanged(a)
        && k.conflicts.stays_unchanged(a)
}
