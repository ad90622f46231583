//! Conflictors made from others: with another effect, other conflicts or another identity.
ghost use Rattle.std.specs.Prelude.{◌≡◌, ◌↔◌, IfOk, IsTrue};
ghost use Rattle.camp_base.specs.Answers.{Finds};
ghost use Rattle.camp_seq.specs.NormalOrder.{Norm};
ghost use Rattle.camp_seq.specs.Running.{inverse_all};
ghost use Rattle.camp_ctx.specs.Adding.{AddsToContext, AddsAll, PassesBy, PassesByAll};
ghost use Rattle.camp_ctx.specs.Contexts.{bare};
ghost use Rattle.camp_catch.specs.Conflictors.{Becomes, against, in_conflict_with, joined_by, with_conflicts};
ghost use Rattle.camp_catch.specs.Inside.Seen.{LeavesSet, InvertsPatch};

use crate::Conflictor;
use crate::values::{alone, alone_bare, bare, inverse_before};
use camp_ctx::{Contexted, CtxSet};
use camp_prim::{Key, Named};
use camp_seq::{Seq, invert_all, ordered};
use std::alloc::{AllocError, Global};

/// Makes `(s', X', i)`, where `s'` is `s` in normal order, and `a` added to `X` gives `X'`.
fn set_before(a: &Named, s: Seq, k: &Conflictor, i: Contexted) -> Result<Conflictor, AllocError>
    ensures { IfOk result (Becomes (Norm s) (AddsToContext a.now) (λ old new. new ≡ i) k.now) }
{
    let conflicts = CtxSet::add_one(a, &k.conflicts)?;
    let effect = ordered(s);
    Ok(Conflictor {
        effect,
        conflicts,
        identity: i,
    })
}

/// Makes `(s', X', i')`, where `s'` is `s` in normal order, `a` added to `X` gives `X'`, and `a` commuted past `i`
/// gives `i'`; `None` if `a` cannot pass `i`.
pub(crate) fn passes_before(
    a: &Named,
    s: Seq,
    k: &Conflictor,
) -> Result<Option<Conflictor>, AllocError>
    ensures { IfOk result (Finds (Becomes (Norm s) (AddsToContext a.now) (PassesBy a.now) k.now)) }
{
    let Some(identity) = Contexted::past_one(a, &k.identity)? else {
        return Ok(None);
    };
    let made = set_before(a, s, k, identity)?;
    Ok(Some(made))
}

/// Makes `(s', X', i')`, where `s'` is `s` in normal order, and `a` added to `X` and `i` gives `X'` and `i'`.
pub(crate) fn one_before(a: &Named, s: Seq, k: &Conflictor) -> Result<Conflictor, AllocError>
    ensures { IfOk result (Becomes (Norm s) (AddsToContext a.now) (AddsToContext a.now) k.now) }
{
    let identity = Contexted::add_one(a, &k.identity)?;
    set_before(a, s, k, identity)
}

/// Makes `(s, Z', i')`, where `r` added to the given conflicts `Z` and to `i` gives `Z'` and `i'`.
pub(crate) fn others_before(
    r: &Seq,
    s: Seq,
    k: &Conflictor,
    others: &CtxSet,
) -> Result<Conflictor, AllocError>
    ensures { IfOk result (Becomes (λ t. t ≡ s) (AddsAll r.now) (AddsAll r.now) (with_conflicts others.now k.now)) }
{
    let conflicts = CtxSet::add(r, others)?;
    let identity = Contexted::add(r, &k.identity)?;
    Ok(Conflictor {
        effect: s,
        conflicts,
        identity,
    })
}

/// Makes `(s, X', i')`, where `r^` added to `X` and `i` gives `X'` and `i'`.
pub(crate) fn both_added(r: &Seq, s: Seq, k: &Conflictor) -> Result<Conflictor, AllocError>
    ensures { IfOk result (Becomes (λ t. t ≡ s) (AddsAll (inverse_all r.now)) (AddsAll (inverse_all r.now)) k.now) }
{
    let back = invert_all(r)?;
    others_before(&back, s, k, &k.conflicts)
}

/// Makes `(s, X', i')`, where `r` added to `X` gives `X'`, and `r` commuted past `i` gives `i'`; `None` if `r` cannot
/// pass `i`.
pub(crate) fn all_pass_before(
    r: &Seq,
    s: Seq,
    k: &Conflictor,
) -> Result<Option<Conflictor>, AllocError>
    ensures { IfOk result (Finds (Becomes (λ t. t ≡ s) (AddsAll r.now) (PassesByAll r.now) k.now)) }
{
    let Some(identity) = Contexted::past(r, &k.identity)? else {
        return Ok(None);
    };
    let conflicts = CtxSet::add(r, &k.conflicts)?;
    Ok(Some(Conflictor {
        effect: s,
        conflicts,
        identity,
    }))
}

/// Makes `(r, X and l, i)`.
pub(crate) fn joined(k: Conflictor, l: &Contexted) -> Result<Conflictor, AllocError>
    ensures { IfOk result (λ made. made ≡ joined_by l.now k) }
{
    let conflicts = k.conflicts.insert(l)?;
    Ok(Conflictor {
        effect: k.effect,
        conflicts,
        identity: k.identity,
    })
}

/// Makes `(s', X and l, i)`, where `s'` is `a^ r` in normal order.
pub(crate) fn undo_and_join(
    alloc: Global,
    a: &Named,
    k: &Conflictor,
    l: &Contexted,
) -> Result<Conflictor, AllocError>
    ensures { IfOk result (InvertsPatch a.now k.now l.now) }
{
    let whole = inverse_before(alloc, a, k.effect.items())?;
    let conflicts = k.conflicts.insert(l)?;
    let identity = k.identity.try_clone()?;
    Ok(Conflictor {
        effect: ordered(whole),
        conflicts,
        identity,
    })
}

/// Makes `(s', X without a label, i)`, where `s'` is `s` in normal order.
pub(crate) fn without_member(key: &Key, s: Seq, k: &Conflictor) -> Result<Conflictor, AllocError>
    ensures { IfOk result (LeavesSet key.now s k.now) }
{
    let conflicts = k.conflicts.without(key)?;
    let identity = k.identity.try_clone()?;
    let effect = ordered(s);
    Ok(Conflictor {
        effect,
        conflicts,
        identity,
    })
}

/// Makes `([a^], {:a}, :b)`: the first conflict of `b`, with `a` alone.
pub(crate) fn against(alloc: Global, a: &Named, b: &Named) -> Result<Conflictor, AllocError>
    ensures { IfOk result (λ made. made ≡ against a.now b.now) }
{
    let effect = inverse_before(alloc, a, &[])?;
    let conflicts = alone_bare(alloc, a)?;
    let identity = bare(alloc, b)?;
    Ok(Conflictor {
        effect,
        conflicts,
        identity,
    })
}

/// Makes `([], {l}, i)`: a conflict with `l` alone, without an effect.
pub(crate) fn in_conflict_with(
    alloc: Global,
    l: &Contexted,
    i: &Contexted,
) -> Result<Conflictor, AllocError>
    ensures { IfOk result (λ made. made ≡ in_conflict_with l.now i.now) }
{
    let conflicts = alone(alloc, l)?;
    let identity = i.try_clone()?;
    Ok(Conflictor {
        effect: Seq::empty(alloc),
        conflicts,
        identity,
    })
}

/// True if a contexted patch has an empty context.
pub(crate) fn has_no_context(x: &Contexted) -> bool
    ensures { IsTrue result ↔ (x.now ≡ bare x.now.patch) }
{
    x.context().items().is_empty()
}
