//! Small lists, contexted patches and sets.
ghost use Rattle.std.specs.Prelude.{◌≡◌, ◌&&◌, [], ◌∷◌, IfOk};
ghost use Rattle.std.specs.FinMap.{contains_key};
ghost use Rattle.camp_prim.specs.Effect.{inverse_of};
ghost use Rattle.camp_ctx.specs.Contexts.{bare, only, patch_key};

use camp_ctx::{Contexted, CtxSet, join};
use camp_prim::Named;
use camp_seq::Seq;
use std::alloc::{AllocError, Global};
use std::slice;

/// Makes the list of one primitive.
pub(crate) fn one(alloc: Global, p: &Named) -> Result<Seq, AllocError>
    ensures { IfOk result (λ list. list ≡ p.now ∷ []) }
{
    join(alloc, slice::from_ref(p), &[])
}

/// Makes `p^`.
pub(crate) fn inverse(p: &Named) -> Result<Named, AllocError>
    ensures { IfOk result (λ back. back ≡ inverse_of p.now) }
{
    let copy = p.try_clone()?;
    Ok(copy.invert())
}

/// Makes the list of `p^` followed by `s`.
pub(crate) fn inverse_before(alloc: Global, p: &Named, s: &[Named]) -> Result<Seq, AllocError>
    ensures { IfOk result (λ list. list ≡ inverse_of p.now ∷ s.now) }
{
    let back = inverse(p)?;
    join(alloc, slice::from_ref(&back), s)
}

/// Makes `:p`.
pub(crate) fn bare(alloc: Global, p: &Named) -> Result<Contexted, AllocError>
    ensures { IfOk result (λ x. x ≡ bare p.now) }
{
    let p = p.try_clone()?;
    Contexted::new(alloc, Seq::empty(alloc), p)
}

/// Makes `{x}`.
pub(crate) fn alone(alloc: Global, x: &Contexted) -> Result<CtxSet, AllocError>
    ensures { IfOk result (λ set. set ≡ only x.now) }
{
    CtxSet::empty(alloc).insert(x)
}

/// Makes `{:p}`.
pub(crate) fn alone_bare(alloc: Global, p: &Named) -> Result<CtxSet, AllocError>
    ensures { IfOk result (λ set. set ≡ only (bare p.now)) }
{
    let x = bare(alloc, p)?;
    alone(alloc, &x)
}

/// True if a primitive is an inverse whose absolute label is in a set.
pub(crate) fn is_undone(p: &Named, ys: &CtxSet) -> bool
    ensures { result ≡ (p.now.inverse && contains_key ys.now (patch_key p.now)) }
{
    p.inverse && ys.get(&p.label().key()).is_some()
}
