//! Commuting a primitive to the front of a list.
ghost use Rattle.std.specs.Prelude.{◌≡◌, ◌↔◌, Contains, IfErr, IfOk, IsTrue, MatchOption, map};
ghost use Rattle.camp_base.specs.Answers.{Changes, FindsPair};
ghost use Rattle.camp_prim.specs.Labels.{label_of};
ghost use Rattle.camp_seq.specs.Inside.InPlace.{FirstWithLabel, FrontsInPlace, LacksLabel};
ghost use Rattle.camp_seq.specs.Passing.{Fronts};

use crate::Seq;
use crate::passes::commute_before_all;
use camp_prim::{Label, Named};
use std::alloc::AllocError;

/// Commutes the first primitive of `s` with this label to the front: `Some((y, t))`, where `y` and then `t` are
/// equivalent to `s`. `None` if it cannot be moved there, or if no primitive has the label. Does not run out of memory
/// if no primitive has it.
#[tactic(auto, using(crate::proofs::FrontSteps::first_contained, crate::proofs::FrontSteps::none_fronts))]
pub fn front(s: &Seq, label: &Label) -> Result<Option<(Named, Seq)>, AllocError>
    ensures exact { IfOk result (FindsPair (Fronts label.now s.now)) }
    ensures memory { IfErr result (λ error. Contains (map label_of s.now) label.now) }
{
    let Some(_) = index_of(&s.items, label) else {
        return Ok(None);
    };
    let mut rest = s.try_clone()?;
    if !move_to_front(&mut rest.items, label) {
        return Ok(None);
    }
    let first = rest.items.remove(0);
    Ok(Some((first, rest)))
}

/// Commutes the first element with a label to the front, in place. False if there is none or it cannot be
/// moved there; the elements are then unchanged.
#[tactic(auto, using(crate::proofs::FrontSteps::none_fronts))]
pub(crate) fn move_to_front(items: &mut [Named], label: &Label) -> bool
    ensures exact { Changes (FrontsInPlace label.now) items.old result items.new }
{
    let Some(at) = index_of(items, label) else {
        return false;
    };
    let (before, rest) = items.split_at_mut(at);
    if !commute_before_all(before, &mut rest[0]) {
        return false;
    }
    items[..at + 1].rotate_right(1);
    true
}

/// Finds the index of the first element with a label.
#[tactic(auto, using(crate::proofs::FrontSteps::first_with))]
fn index_of(items: &[Named], label: &Label) -> Option<usize>
    ensures { MatchOption result (LacksLabel label.now items.now) (FirstWithLabel label.now items.now) }
{
    for (at, p) in items.iter().enumerate() {
        if has_label(p, label) {
            return Some(at);
        }
    }
    None
}

pub(crate) fn has_label(p: &Named, label: &Label) -> bool
    ensures { IsTrue result ↔ (label_of p.now ≡ label.now) }
{
    p.label() == *label
}
