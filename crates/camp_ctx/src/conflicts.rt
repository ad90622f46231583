//! Conflicts between contexted patches.
ghost use Rattle.std.specs.Prelude.{◌≡◌, ◌↔◌, IfOk, IsTrue};
ghost use Rattle.camp_base.specs.Answers.{FindsPair};
ghost use Rattle.camp_ctx.specs.Conflicts.{common_labels, has_label, Conflict, MergesCleanlyAfterCommon};
ghost use Rattle.camp_ctx.specs.Contexts.{whole};

use crate::fast::{
    are_apart, are_elsewhere, are_independent, conflict_by_first, conflict_in_any_order,
    merge_apart,
};
use crate::{Contexted, join};
use camp_prim::{Label, Named};
use camp_seq::{Seq, clean_merge, split};
use std::alloc::{AllocError, Global};
use std::slice;

/// True if two contexted patches that are seen from the same state conflict.
pub fn conflict(x: &Contexted, y: &Contexted) -> Result<bool, AllocError>
    ensures exact { IfOk result (λ found. IsTrue found ↔ Conflict x.now y.now) }
{
    if are_elsewhere(x, y) {
        return Ok(false);
    }
    if conflict_by_first(x, y)? {
        return Ok(true);
    }
    let second = whole(y)?;
    if are_independent(x, &second)? {
        return Ok(false);
    }
    let first = whole(x)?;
    if let Some(found) = conflict_in_any_order(x, y, &first, &second)? {
        return Ok(found);
    }
    match merge_after_common(x.allocator(), &first, &second)? {
        None => Ok(true),
        Some(_) => Ok(false),
    }
}

/// Merges two lists of the same state after their common part: `Some((t', s'))`, where `t'` comes after `s`, and `s'`
/// after `t`; `None` if what remains of them does not merge cleanly.
pub fn merge_after_common(alloc: Global, s: &Seq, t: &Seq) -> Result<Option<(Seq, Seq)>, AllocError>
    ensures exact { IfOk result (FindsPair (MergesCleanlyAfterCommon s.now t.now)) }
{
    let common = common_labels(alloc, s.items(), t.items())?;
    let labels = common.as_slice();
    if are_apart(labels, s, t) {
        return merge_apart(s, t);
    }
    let Some((common, rest)) = split(s, labels)? else {
        return Ok(None);
    };
    let Some((other, beside)) = split(t, labels)? else {
        return Ok(None);
    };
    if !common.is_same(&other) {
        return Ok(None);
    }
    Ok(clean_merge(&rest, &beside)?)
}

/// Joins the context and the patch to one list.
fn whole(x: &Contexted) -> Result<Seq, AllocError>
    ensures { IfOk result (λ list. list ≡ whole x.now) }
{
    join(
        x.allocator(),
        x.context().items(),
        slice::from_ref(x.patch()),
    )
}

/// Returns the labels that elements of both lists have.
fn common_labels(alloc: Global, s: &[Named], t: &[Named]) -> Result<Vec<Label>, AllocError>
    ensures { IfOk result (λ labels. labels.items ≡ common_labels s.now t.now) }
{
    s.iter()
        .map(|p| p.label())
        .filter(|label| has_label(t, label))
        .collect(alloc)
}

/// True if an element of the list has the label.
pub(crate) fn has_label(s: &[Named], label: &Label) -> bool
    ensures { result ≡ has_label s.now label.now }
{
    s.iter().any(|p| p.label().cmp(label).is_eq())
}
