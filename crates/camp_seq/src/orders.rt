//! The normal order of a list.
ghost use Rattle.std.specs.Prelude.{List, ◌∷◌, ◌≡◌, ◌<◌, ◌≤◌, ◌↔◌, length, drop, IfOk, IsTrue};
ghost use Rattle.std.specs.Ordering.{is_lt};
ghost use Rattle.std.specs.declared.cmp.Ordering.TheVariants.{Less};
ghost use Rattle.camp_prim.specs.declared.named.Named.{Named};
ghost use Rattle.camp_prim.specs.Labels.{label_cmp};
ghost use Rattle.camp_seq.specs.Inside.FirstInOrder.{CommutedRightInOrder, OrderedFrom};
ghost use Rattle.camp_seq.specs.Inside.LeastLabels.{is_above, LeastAbove, MovesLeastToFront, StartsAbove};
ghost use Rattle.camp_seq.specs.Equivalence.{◌~◌};
ghost use Rattle.camp_seq.specs.NormalOrder.{Norm};
ghost use Rattle.camp_seq.specs.Room.{HasRoom};

use crate::Seq;
use crate::fast::{commute_right_in_order, is_own_order, order_by_insertion, stays_first};
use crate::fronts::move_to_front;
use crate::rooms::has_small_reach;
use camp_prim::{Label, Named};
use std::alloc::AllocError;

/// Puts a list in normal order: first the least label that can be moved to the front, then the rest in normal
/// order. If the list has headroom, it is the normal order of every equivalent list.
#[tactic(auto, using(crate::proofs::NormalForms::normal_form))]
pub fn norm(s: &Seq) -> Result<Seq, AllocError>
    ensures order { IfOk result (λ ordered. Norm s.now ordered) }
    ensures normal_form { IfOk result (λ ordered.
        HasRoom s.now → (t : List Named) → s.now ~ t → Norm t ordered) }
{
    Ok(ordered(s.try_clone()?))
}

/// Puts a list in normal order, in place; does not allocate.
pub fn ordered(mut s: Seq) -> Seq
    ensures exact { Norm s result }
{
    order(&mut s.items);
    s
}

/// Puts a list in normal order, in place; does not allocate. True only if the result is its own normal order: a quick
/// check says so, or the list has headroom.
pub fn put_in_order(s: &mut Seq) -> bool
    ensures order { Norm s.old s.new }
    ensures own { IsTrue result → Norm s.new s.new }
{
    order(&mut s.items)
}

/// Inserts a primitive before a list and puts the list in normal order, in place. `ordered` is true only if the list is
/// its own normal order; the result says the same of the new list.
pub fn put_first(a: Named, s: &mut Seq, ordered: bool) -> Result<bool, AllocError>
    requires { IsTrue ordered → Norm s.old s.old }
    ensures order { IfOk result (λ told. Norm (a ∷ s.old) s.new) }
    ensures own { IfOk result (λ told. IsTrue told → Norm s.new s.new) }
{
    if ordered {
        return put_before(a, s);
    }
    s.items.insert(0, a)?;
    Ok(order(&mut s.items))
}

/// Inserts a primitive before a list that is in normal order: commutes it to its position, and orders the elements
/// after it only if one of them may be moved in front of it.
fn put_before(mut a: Named, s: &mut Seq) -> Result<bool, AllocError>
    requires { Norm s.old s.old }
    ensures order { IfOk result (λ told. Norm (a ∷ s.old) s.new) }
    ensures own { IfOk result (λ told. IsTrue told → Norm s.new s.new) }
{
    let (at, stays) = insert_first(&mut a, &mut s.items);
    s.items.insert(at, a)?;
    order_from(&mut s.items, at, stays);
    Ok(has_small_reach(&s.items))
}

/// Commutes `a`, which comes before `s`, to its position in normal order. Returns the index of that position, and
/// whether no element after it can be moved in front of `a`.
fn insert_first(a: &mut Named, s: &mut [Named]) -> (usize, bool)
    requires { Norm s.old s.old }
    ensures place { CommutedRightInOrder s.old a.old result.0 s.new a.new }
    ensures stays { IsTrue result.1 → Norm (a.new ∷ drop result.0 s.old) (a.new ∷ drop result.0 s.old) }
{
    let at = commute_right_in_order(a, s);
    let (_, rest) = s.split_at_mut(at);
    let stays = stays_first(a, rest);
    (at, stays)
}

/// Puts the elements from index `at` on in normal order, unless the caller knows that they are.
fn order_from(items: &mut [Named], at: usize, known: bool)
    requires { at ≤ length items.old }
    ensures { OrderedFrom items.old at known items.new }
{
    if known {
        return;
    }
    order_unordered(&mut items[at..]);
}

/// Puts a list in normal order, in place; does not allocate. True only if the result is its own normal order.
///
/// A list that is its own normal order is unchanged. One with headroom is ordered by insertion: n elements take at most
/// n * (n - 1) commuting steps. Any other list, with hunks near the limit of 2^30, is ordered by selection.
pub(crate) fn order(items: &mut [Named]) -> bool
    ensures order { Norm items.old items.new }
    ensures own { IsTrue result → Norm items.new items.new }
{
    if is_own_order(items) {
        return true;
    }
    order_unordered(items);
    has_small_reach(items)
}

/// Orders a list that the quick check did not find in normal order.
fn order_unordered(items: &mut [Named])
    ensures { Norm items.old items.new }
{
    if has_small_reach(items) {
        order_by_insertion(items);
    } else {
        order_by_selection(items);
    }
}

/// Selects, for each index, the least label that can be moved to the front of the rest, trying the labels in ascending
/// order. If the first label is never blocked, n elements take at most n * (n - 1) / 2 commuting steps. A label that is
/// blocked was commuted up to the element that blocks it, and is commuted back; in the worst case, with nearly all
/// labels blocked at each index, it takes n^3 / 3 steps. A blocked label is tried again at each index, since near the
/// limit of a hunk's line other labels may be blocked there.
fn order_by_selection(items: &mut [Named])
    ensures { Norm items.old items.new }
{
    for at in 0..items.len() {
        move_least_to_front(&mut items[at..]);
    }
}

/// Moves to the front the element with the least label that can be moved there.
#[tactic(auto, using(crate::proofs::LabelSteps::starts_above))]
fn move_least_to_front(items: &mut [Named])
    requires { 0 < length items.old }
    ensures { MovesLeastToFront items.old items.new }
{
    let mut tried = None;
    loop {
        let label = least_above(items, &tried);
        if move_to_front(items, &label) {
            return;
        }
        tried = Some(label);
    }
}

/// Finds the least label of the list that is above the last one that was tried.
fn least_above(items: &[Named], tried: &Option<Label>) -> Label
    requires { StartsAbove tried.now items.now }
    ensures { LeastAbove tried.now items.now result }
{
    let mut least = items[0].label();
    for p in items {
        let label = p.label();
        if comes_before(tried, &label, &least) {
            least = label;
        }
    }
    least
}

/// True if a label is above the last one that was tried and below the least so far.
fn comes_before(tried: &Option<Label>, label: &Label, least: &Label) -> bool
    ensures { IsTrue result
        ↔ (IsTrue (is_above tried.now label.now) × (label_cmp label.now least.now ≡ Less)) }
{
    if !is_above(tried, label) {
        return false;
    }
    is_less(label, least)
}

fn is_above(tried: &Option<Label>, label: &Label) -> bool
    ensures { result ≡ is_above tried.now label.now }
{
    match tried {
        None => true,
        Some(tried) => is_less(tried, label),
    }
}

pub(crate) fn is_less(a: &Label, b: &Label) -> bool
    ensures { result ≡ is_lt (label_cmp a.now b.now) }
{
    a < b
}
