//! Quick checks of whether lists are in normal order, and of what stays unchanged. They do not allocate.
ghost use Rattle.std.specs.Prelude.{◌<◌, List, [], ◌∷◌, ◌++◌, length, IfSome, IsTrue};
ghost use Rattle.camp_prim.specs.Labels.{label_of};
ghost use Rattle.camp_prim.specs.declared.named.Named.{Named};
ghost use Rattle.camp_seq.specs.Chains.{Chain};
ghost use Rattle.camp_seq.specs.Inside.FirstInOrder.{StaysAfterFirst};
ghost use Rattle.camp_seq.specs.Inside.NextInOrder.{IsInOrder, StaysInOrder};
ghost use Rattle.camp_seq.specs.NormalOrder.{Norm};
ghost use Rattle.camp_seq.specs.Passing.{Passes};

use crate::chains::can_commute;
use camp_prim::{Named, commutes_unchanged, has_less_label};

/// True only if the label of each element is not less than any label before it, or the element does not commute with
/// the one before it; the list is then its own normal order. False decides nothing. Visits each element once; does not
/// allocate.
pub fn is_own_order(items: &[Named]) -> bool
    ensures sound { IsTrue result → Norm items.now items.now }
{
    if items.is_empty() {
        return true;
    }
    greatest_in_order(items).is_some()
}

/// Makes the quick check of normal order for a list, and for the list followed by one more element.
pub fn are_own_orders(items: &[Named], last: &Named) -> (bool, bool)
    ensures list { IsTrue result.0 → Norm items.now items.now }
    ensures with_last { IsTrue result.1 → Norm (items.now ++ last.now ∷ []) (items.now ++ last.now ∷ []) }
{
    let Some((previous, _)) = items.split_last() else {
        return (true, true);
    };
    match greatest_in_order(items) {
        None => (false, false),
        Some(greatest) => (true, greatest_with(greatest, previous, last).is_some()),
    }
}

/// Makes the checks of `are_own_orders` for a list in which no two neighbours commute. If its last element does not
/// commute with the added one, no other element is visited.
pub fn are_own_orders_of_chain(items: &[Named], last: &Named) -> (bool, bool)
    requires { Chain items.now }
    ensures list { IsTrue result.0 → Norm items.now items.now }
    ensures with_last { IsTrue result.1 → Norm (items.now ++ last.now ∷ []) (items.now ++ last.now ∷ []) }
{
    let Some((previous, _)) = items.split_last() else {
        return (true, true);
    };
    if can_commute(previous, last) {
        return are_own_orders(items, last);
    }
    (true, true)
}

/// Returns the element with the greatest label if the quick check finds the list in normal order, else
/// `None`.
fn greatest_in_order(items: &[Named]) -> Option<&Named>
    requires { 0 < length items.now }
    ensures { IfSome result (λ greatest. IsInOrder items.now (label_of greatest.now)) }
{
    let mut greatest = &items[0];
    for at in 1..items.len() {
        greatest = greatest_with(greatest, &items[at - 1], &items[at])?;
    }
    Some(greatest)
}

/// Checks one step of normal order: returns `x` if its label is not less than that of `greatest`; else `greatest` if
/// `x` does not commute with `last`, the element before it; else `None`.
fn greatest_with<'a>(greatest: &'a Named, last: &Named, x: &'a Named) -> Option<&'a Named>
    ensures { IfSome result (λ more. StaysInOrder (label_of greatest.now) last.now x.now (label_of more.now)) }
{
    if !has_less_label(x, greatest) {
        return Some(x);
    }
    if can_commute(last, x) {
        return None;
    }
    Some(greatest)
}

/// True only if a list in normal order stays in it with `x` inserted before it. An element cannot be moved in front of
/// `x` if an element before it has a greater label, if it does not commute with the element before it, or if its label
/// or one before it is not less than that of `x`. Checks that one of these holds for each element. False decides
/// nothing.
pub(crate) fn stays_first(x: &Named, s: &[Named]) -> bool
    requires { Norm s.now s.now }
    ensures { IsTrue result → Norm (x.now ∷ s.now) (x.now ∷ s.now) }
{
    let Some((mut greatest, _)) = s.split_first() else {
        return true;
    };
    let mut last = x;
    for at in 0..s.len() {
        let p = &s[at];
        if !has_less_label(p, x) {
            return true;
        }
        match greatest_after_first(greatest, last, p) {
            None => return false,
            Some(next) => greatest = next,
        }
        last = p;
    }
    true
}

/// Checks one step of `stays_first`: returns `greatest` if the label of `p` is less; else `p` if it does not commute
/// with `last`, the element before it; else `None`.
fn greatest_after_first<'a>(greatest: &'a Named, last: &Named, p: &'a Named) -> Option<&'a Named>
    ensures { IfSome result (λ more. StaysAfterFirst (label_of greatest.now) last.now p.now (label_of more.now)) }
{
    if has_less_label(p, greatest) {
        return Some(greatest);
    }
    if can_commute(last, p) {
        return None;
    }
    Some(p)
}

/// True only if a primitive commutes past a list and all elements stay unchanged. False decides nothing. Does
/// not allocate.
pub fn stays_past(p: &Named, s: &[Named]) -> bool
    ensures sound { IsTrue result → Passes p.now s.now s.now p.now }
{
    for at in (0..s.len()).rev() {
        if !commutes_unchanged(p, &s[at]) {
            return false;
        }
    }
    true
}

/// True if the first element of a list blocks `p`.
pub(crate) fn is_blocked_by_head(p: &Named, s: &[Named]) -> bool
    ensures { IsTrue result → (s' : List Named) (p' : Named) → ¬ (Passes p.now s.now s' p') }
{
    match s.first() {
        None => false,
        Some(q) => !can_commute(p, q),
    }
}
