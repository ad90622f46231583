//! A quick check: conflictors without an effect that commute.
ghost use Rattle.std.specs.Prelude.{◌≡◌, ◌↔◌, [], IfOk, IsTrue, Some};
ghost use Rattle.std.specs.FinMap.{get};
ghost use Rattle.camp_ctx.specs.Contexts.{context_key, ContextedPatch};
ghost use Rattle.camp_catch.specs.Inside.QuickChecks.{IsCommuteCheck};
ghost use Rattle.camp_catch.specs.declared.catches.Catch.{Catch as AnyCatch};

use crate::conflictors::lacks_key;
use crate::{Catch, Conflictor};
use camp_ctx::Contexted;
use std::alloc::AllocError;

/// The result of a quick check of how a catch commutes past the one before it.
#[derive(Drop)]
pub(crate) enum CommuteCheck {
    /// Both stay unchanged.
    Aside,
    /// The second catch becomes the first value, and the first catch gains the second value as a conflict; nothing else
    /// changes.
    Leaves(Catch, Contexted),
    /// The quick check does not decide.
    Unknown,
}

/// Checks how `k` commutes past the `j` before it, whatever conflicts `j` has gained.
pub(crate) fn check_commute(j: &Catch, k: &Catch) -> Result<CommuteCheck, AllocError>
    ensures { IfOk result (IsCommuteCheck j.now k.now) }
{
    match (j, k) {
        (Catch::Conflictor(j), Catch::Conflictor(k)) => check_conflictor_commute(j, k),
        _ => Ok(CommuteCheck::Unknown),
    }
}

/// Checks how two conflictors without an effect commute: the first leaves the set of the second if it is in it; else
/// both stay unchanged.
fn check_conflictor_commute(j: &Conflictor, k: &Conflictor) -> Result<CommuteCheck, AllocError>
    ensures { IfOk result (IsCommuteCheck (AnyCatch.Conflictor j.now) (AnyCatch.Conflictor k.now)) }
{
    if !has_no_effect(j) {
        return Ok(CommuteCheck::Unknown);
    }
    if !has_no_effect(k) {
        return Ok(CommuteCheck::Unknown);
    }
    let key = j.identity.key();
    match k.conflicts.get(&key) {
        // Checks the case `([], X, i) ([], Y, l) <-> ([], Y, l) ([], X, i)`.
        None if lacks_key(k.identity.context().items(), &key) => Ok(CommuteCheck::Aside),
        None => Ok(CommuteCheck::Unknown),
        Some(_) => check_commute_leaving(j, k),
    }
}

/// Checks the case `([], X, i) ([], Y, l) <-> ([], Y without j, l) ([], X and l, i)`, in which `Y` has more
/// members than `j`.
fn check_commute_leaving(j: &Conflictor, k: &Conflictor) -> Result<CommuteCheck, AllocError>
    requires first { j.now.effect ≡ [] }
    requires second { k.now.effect ≡ [] }
    requires member { (z : ContextedPatch) × (get k.now.conflicts (context_key j.now.identity) ≡ Some z) }
    ensures { IfOk result (IsCommuteCheck (AnyCatch.Conflictor j.now) (AnyCatch.Conflictor k.now)) }
{
    if k.conflicts.len() < 2 {
        return Ok(CommuteCheck::Unknown);
    }
    let effect = k.effect.try_clone()?;
    let conflicts = k.conflicts.without(&j.identity.key())?;
    let identity = k.identity.try_clone()?;
    let left = Conflictor {
        effect,
        conflicts,
        identity,
    };
    let gained = k.identity.try_clone()?;
    Ok(CommuteCheck::Leaves(Catch::Conflictor(left), gained))
}

/// True if a conflictor has an empty effect.
pub(crate) fn has_no_effect(k: &Conflictor) -> bool
    ensures { IsTrue result ↔ (k.now.effect ≡ []) }
{
    k.effect.items().is_empty()
}
