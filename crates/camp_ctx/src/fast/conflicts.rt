//! Quick checks of conflicts and merges.
ghost use Rattle.std.specs.Prelude.{◌≡◌, ◌↔◌, List, [], ◌∷◌, IfOk, IfSome, IsTrue};
ghost use Rattle.camp_base.specs.Answers.{FindsPair};
ghost use Rattle.camp_prim.specs.Labels.{label_of};
ghost use Rattle.camp_prim.specs.declared.named.Named.{Named as AnyNamed};
ghost use Rattle.camp_seq.specs.Merging.{CleanMerge};
ghost use Rattle.camp_seq.specs.NormalOrder.{Norm};
ghost use Rattle.camp_ctx.specs.Conflicts.{has_label, Conflict, MergesCleanlyAfterCommon};
ghost use Rattle.camp_ctx.specs.Contexts.{whole};
ghost use Rattle.camp_ctx.specs.Inside.Apart.{LacksLabels, MergesAsOrdered, NoCleanMerge};

use crate::Contexted;
use crate::conflicts::has_label;
use camp_prim::{Label, Named};
use camp_seq::{Seq, can_commute, clean_merge, has_room_to_merge, is_own_order, stays_past};
use std::alloc::AllocError;
use std::slice;

/// True only if two contexted patches conflict because they need not be put in normal order and their first primitives
/// do not merge. False decides nothing.
pub(crate) fn conflict_by_first(x: &Contexted, y: &Contexted) -> Result<bool, AllocError>
    ensures { IfOk result (λ yes. IsTrue yes → Conflict x.now y.now) }
{
    let first = slice::from_ref(first_of(x));
    let second = slice::from_ref(first_of(y));
    if !firsts_do_not_merge(first, second)? {
        return Ok(false);
    }
    Ok(can_merge_unordered(x, y))
}

/// True if two contexted patches conflict; `first` and `second` are their contexts followed by their patches. `None` if
/// they have a common label, or may have to be put in normal order first.
pub(crate) fn conflict_in_any_order(
    x: &Contexted,
    y: &Contexted,
    first: &Seq,
    second: &Seq,
) -> Result<Option<bool>, AllocError>
    requires first { first.now ≡ whole x.now }
    requires second { second.now ≡ whole y.now }
    ensures { IfOk result (λ told. IfSome told (λ found. IsTrue found ↔ Conflict x.now y.now)) }
{
    if !can_merge_unordered(x, y) {
        return Ok(None);
    }
    match clean_merge(first, second)? {
        None => Ok(Some(true)),
        Some(_) => Ok(Some(false)),
    }
}

/// True only if two contexted patches can be merged as they are, without ordering, to decide whether they conflict:
/// they have no common label, and each is its own normal order or both have headroom. False decides nothing.
fn can_merge_unordered(x: &Contexted, y: &Contexted) -> bool
    ensures labels { IsTrue result → LacksLabels (whole x.now) (whole y.now) }
    ensures orders { IsTrue result → MergesAsOrdered (whole x.now) (whole y.now) }
{
    if !have_no_common_label(x, y) {
        return false;
    }
    if are_ordered(x, y) {
        return true;
    }
    has_room_to_merge(
        x.context().items(),
        x.patch(),
        y.context().items(),
        y.patch(),
    )
}

/// True only if each of two contexted patches is its own normal order, by the quick check.
fn are_ordered(x: &Contexted, y: &Contexted) -> bool
    ensures first { IsTrue result → Norm (whole x.now) (whole x.now) }
    ensures second { IsTrue result → Norm (whole y.now) (whole y.now) }
{
    x.whole_is_ordered() && y.whole_is_ordered()
}

/// Returns the first primitive of the context, or the patch if there is none.
fn first_of(x: &Contexted) -> &Named
    ensures { (rest : List AnyNamed) × (whole x.now ≡ result.now ∷ rest) }
{
    match x.context().items().first() {
        Some(p) => p,
        None => x.patch(),
    }
}

/// True if no label of one contexted patch is in the other.
fn have_no_common_label(x: &Contexted, y: &Contexted) -> bool
    ensures { IsTrue result → LacksLabels (whole x.now) (whole y.now) }
{
    if names(y, x.patch()) {
        return false;
    }
    names_none(y, x.context().items())
}

/// True if a contexted patch has none of the labels of a list.
fn names_none(y: &Contexted, s: &[Named]) -> bool
    ensures { IsTrue result → LacksLabels s.now (whole y.now) }
{
    for at in (0..s.len()).rev() {
        if names(y, &s[at]) {
            return false;
        }
    }
    true
}

/// True if a contexted patch has the label of a primitive.
fn names(y: &Contexted, p: &Named) -> bool
    ensures { result ≡ has_label (whole y.now) (label_of p.now) }
{
    let label = p.label();
    if has_label(y.context().items(), &label) {
        return true;
    }
    has_label(slice::from_ref(y.patch()), &label)
}

/// True only if a patch without a context and a list merge, and both stay unchanged. False decides nothing.
pub(crate) fn are_independent(x: &Contexted, t: &Seq) -> Result<bool, AllocError>
    ensures { IfOk result (λ yes. IsTrue yes → MergesCleanlyAfterCommon (whole x.now) t.now t.now (whole x.now)) }
{
    if !has_no_context(x) {
        return Ok(false);
    }
    let patch = x.patch().try_clone()?;
    let back = patch.invert();
    if !stays_past(&back, t.items()) {
        return Ok(false);
    }
    Ok(is_own_order(t.items()))
}

/// True only if two lists have no common label and each is its own normal order, by a quick check.
pub(crate) fn are_apart(common: &[Label], s: &Seq, t: &Seq) -> bool
    ensures none { IsTrue result → common.now ≡ [] }
    ensures first { IsTrue result → Norm s.now s.now }
    ensures second { IsTrue result → Norm t.now t.now }
{
    common.is_empty() && is_own_order(s.items()) && is_own_order(t.items())
}

/// Merges two lists. Copies neither list if the first primitives do not merge.
pub(crate) fn merge_apart(s: &Seq, t: &Seq) -> Result<Option<(Seq, Seq)>, AllocError>
    ensures exact { IfOk result (FindsPair (CleanMerge s.now t.now)) }
{
    if firsts_do_not_merge(s.items(), t.items())? {
        return Ok(None);
    }
    clean_merge(s, t)
}

/// True if the first primitives of two lists do not merge.
pub(crate) fn firsts_do_not_merge(s: &[Named], t: &[Named]) -> Result<bool, AllocError>
    ensures { IfOk result (λ yes. IsTrue yes → NoCleanMerge s.now t.now) }
{
    match (s.first(), t.first()) {
        (Some(p), Some(q)) => {
            let p = p.try_clone()?;
            Ok(!can_commute(&p.invert(), q))
        }
        _ => Ok(false),
    }
}

/// True if a contexted patch has an empty context.
fn has_no_context(x: &Contexted) -> bool
    ensures { IsTrue result ↔ (x.now.context ≡ []) }
{
    x.context().items().is_empty()
}
