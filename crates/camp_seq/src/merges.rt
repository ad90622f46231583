//! The inverse of a list, and the clean merge of two.
ghost use Rattle.std.specs.Prelude.{◌≡◌, IfOk};
ghost use Rattle.camp_base.specs.Answers.{FindsPair};
ghost use Rattle.camp_seq.specs.Merging.{CleanMerge};
ghost use Rattle.camp_seq.specs.Running.{inverse_all};

use crate::Seq;
use crate::passes::commute_past_all;
use std::alloc::AllocError;

/// Returns the inverse of a list: the inverses of its primitives, in reverse order.
pub fn invert_all(s: &Seq) -> Result<Seq, AllocError>
    ensures exact { IfOk result (λ inverse. inverse ≡ inverse_all s.now) }
{
    let mut items = Vec::with_capacity(*s.items.allocator(), s.items.len())?;
    for p in &s.items {
        let copy = p.try_clone()?;
        items.push(copy.invert())?;
    }
    items.reverse();
    Ok(Seq { items })
}

/// Merges two lists that begin in the same state: `Some((b', a'))`, where `a` and then `b'` lead to the same
/// state as `b` and then `a'`. The inverse of each primitive of `a` is commuted past all of `b`; `None` if
/// one cannot pass.
#[tactic(auto, using(crate::proofs::MergeGrid::passing_merges))]
pub fn clean_merge(a: &Seq, b: &Seq) -> Result<Option<(Seq, Seq)>, AllocError>
    ensures exact { IfOk result (FindsPair (CleanMerge a.now b.now)) }
{
    let mut back = invert_all(a)?;
    let mut after = b.try_clone()?;
    if !commute_past_all(&mut back, &mut after) {
        return Ok(None);
    }
    let beside = invert_all(&back)?;
    Ok(Some((after, beside)))
}
