//! The normal order of a list with headroom, by insertion.
ghost use Rattle.std.specs.Prelude.{List, [], ◌∷◌, ◌++◌, ◌-◌, length, take, drop};
ghost use Rattle.camp_prim.specs.declared.named.Named.{Named};
ghost use Rattle.camp_seq.specs.Inside.FirstInOrder.{CommutedLeftInOrder, CommutedRightInOrder};
ghost use Rattle.camp_seq.specs.NormalOrder.{Norm};
ghost use Rattle.camp_seq.specs.Passing.{Passes};
ghost use Rattle.camp_seq.specs.Room.{HasRoom};

use crate::passes::commute_left;
use camp_prim::{Named, commute_in_place, has_less_label};

/// Puts a list with headroom in normal order, by inserting each of its n elements among those before it. Takes at
/// most n * (n - 1) commuting steps.
pub(crate) fn order_by_insertion(items: &mut [Named])
    requires { HasRoom items.old }
    ensures { Norm items.old items.new }
{
    for last in 0..items.len() {
        insert_last(&mut items[..last + 1]);
    }
}

/// Commutes the last element to its position among the others, which are in normal order: to the left as far
/// as it can be moved, and back to the right past lesser labels.
fn insert_last(items: &mut [Named])
    requires room { HasRoom items.old }
    requires own { Norm (take (length items.old - 1) items.old) (take (length items.old - 1) items.old) }
    ensures { Norm items.old items.new }
{
    let Some((last, others)) = items.split_last_mut() else {
        return;
    };
    let at = commute_left_in_order(others, last);
    items[at..].rotate_right(1);
}

/// Commutes `x`, which comes after `s`, to its position in normal order among the elements of `s`, in place. Returns
/// the number of elements of `s` that then come before `x`.
fn commute_left_in_order(s: &mut [Named], x: &mut Named) -> usize
    requires room { HasRoom (s.old ++ x.old ∷ []) }
    requires own { Norm s.old s.old }
    ensures { CommutedLeftInOrder s.old x.old result s.new x.new }
{
    let from = commute_left(s, x);
    let at = commute_right_in_order(x, &mut s[from..]);
    from + at
}

/// Commutes `a`, which comes before `s`, to the right past elements with lesser labels, as far as it can be moved, in
/// place. Returns the number of elements of `s` that then come before `a`. If `a` can pass all of `s`, those after it
/// are unchanged.
pub(crate) fn commute_right_in_order(a: &mut Named, s: &mut [Named]) -> usize
    requires { Norm s.old s.old }
    ensures place { CommutedRightInOrder s.old a.old result s.new a.new }
    ensures stays { (t : List Named) (p : Named) → Passes a.old s.old t p
        → Norm (a.new ∷ drop result s.old) (a.new ∷ drop result s.old) }
{
    for at in 0..s.len() {
        if !has_less_label(&s[at], a) {
            return at;
        }
        if !commute_in_place(a, &mut s[at]) {
            return at;
        }
    }
    s.len()
}
