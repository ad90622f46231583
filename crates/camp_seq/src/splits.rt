//! Splitting a list by labels.
ghost use Rattle.std.specs.Prelude.{◌<◌, ◌↔◌, length, option_map, Contains, IfOk, IsTrue};
ghost use Rattle.std.specs.Bool.{then_some};
ghost use Rattle.camp_base.specs.Answers.{Finds, FindsPair};
ghost use Rattle.camp_prim.specs.Labels.{label_of};
ghost use Rattle.camp_seq.specs.Inside.InPlace.{FirstPasses, PartsInPlace};
ghost use Rattle.camp_seq.specs.NormalOrder.{Splits};

use crate::Seq;
use crate::fronts::has_label;
use crate::orders::order;
use crate::passes::pass;
use camp_prim::{Label, Named};
use std::alloc::AllocError;

/// Splits a list: `Some((f, t))`, where `f` and then `t` are equivalent to `s`, `f` has the primitives with
/// these labels, `t` the others, and both are in normal order; `None` if one cannot be moved in front of the
/// others.
pub fn split(s: &Seq, labels: &[Label]) -> Result<Option<(Seq, Seq)>, AllocError>
    ensures exact { IfOk result (FindsPair (Splits labels.now s.now)) }
{
    let mut named = s.try_clone()?;
    let Some(count) = gather(&mut named.items, labels) else {
        return Ok(None);
    };
    let mut others = Seq {
        items: named.items.split_off(count)?,
    };
    order(&mut named.items);
    order(&mut others.items);
    Ok(Some((named, others)))
}

/// Commutes the elements with these labels to the front, in their order and in place. Returns their number,
/// or `None` if one is blocked; the list is then partly commuted.
fn gather(items: &mut [Named], labels: &[Label]) -> Option<usize>
    ensures exact { FindsPair (PartsInPlace labels.now items.old)
        (option_map (λ count. (count, items.new)) result) }
{
    let mut count = 0;
    for at in (0..items.len()).rev() {
        if is_named(&items[at], labels) {
            count += 1;
        } else if !pass_first(&mut items[at..at + 1 + count]) {
            return None;
        }
    }
    Some(count)
}

/// Commutes the first element past all others, in place. False if it cannot pass; they are then partly commuted.
fn pass_first(items: &mut [Named]) -> bool
    ensures exact { Finds (FirstPasses items.old) (then_some result items.new) }
{
    let Some((first, rest)) = items.split_first_mut() else {
        return false;
    };
    if !pass(first, rest) {
        return false;
    }
    items.rotate_left(1);
    true
}

fn is_named(p: &Named, labels: &[Label]) -> bool
    ensures { IsTrue result ↔ Contains labels.now (label_of p.now) }
{
    labels.iter().any(|label| has_label(p, label))
}
