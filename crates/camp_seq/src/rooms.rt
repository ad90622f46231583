//! Headroom: lists whose hunks stay in range in any order.
ghost use Rattle.std.specs.Prelude.{◌≡◌, ◌<◌, ◌≤◌, ◌+◌, ◌↔◌, [], ◌∷◌, ◌++◌, IsTrue, MatchOption};
ghost use Rattle.camp_base.specs.Limits.{greatest_reach};
ghost use Rattle.camp_prim.specs.Effect.{InRange};
ghost use Rattle.camp_seq.specs.Inside.Reach.{ReachGrowsTo};
ghost use Rattle.camp_seq.specs.Room.{HasRoom, HasRoomToMerge, ReachGivesRoom};
ghost use Rattle.camp_seq.specs.Shapes.{all_sides, line_of, sides_of, reach_of};

use crate::Seq;
use camp_prim::{Named, Primitive};

/// The greatest sum of a hunk's line and the counts of its old and of its new lines.
const MAX_REACH: usize = 1 << 30;

/// A list of primitives in range has headroom if its reach, the greatest line plus all old and new lines, is
/// at most 2^30.
#[tactic(auto, using(crate::proofs::Reaching::room_within))]
pub fn reach_gives_room()
    ensures law { ReachGivesRoom }
{}

/// True only if a list has headroom: the greatest line of its hunks and the counts of all their lines add up to at most
/// 2^30. False decides nothing.
pub fn has_room(s: &Seq) -> bool
    ensures exact { IsTrue result ↔ (reach_of s.now ≤ greatest_reach) }
    ensures room { IsTrue result → HasRoom s.now }
{
    has_small_reach(&s.items)
}

/// True only if the greatest line of a list's hunks and the counts of all their lines are together in the range of one
/// hunk; then no commuting brings a hunk out of range. False decides nothing. Visits each element once.
pub(crate) fn has_small_reach(items: &[Named]) -> bool
    ensures exact { IsTrue result ↔ (reach_of items.now ≤ greatest_reach) }
    ensures room { IsTrue result → HasRoom items.now }
{
    match shape_from(items, 0, 0) {
        Some((greatest, sides)) => greatest + sides <= MAX_REACH,
        None => false,
    }
}

/// True only if two lists that begin in the same state, each followed by one more element, have headroom to merge in
/// any order of their elements: the greatest line and the counts of all their lines add up to at most 2^30. False
/// decides nothing. Visits each element once.
pub fn has_room_to_merge(s: &[Named], p: &Named, t: &[Named], q: &Named) -> bool
    ensures exact { IsTrue result ↔ (reach_of ((s.now ++ p.now ∷ []) ++ (t.now ++ q.now ∷ [])) ≤ greatest_reach) }
    ensures room { IsTrue result → HasRoomToMerge (s.now ++ p.now ∷ []) (t.now ++ q.now ∷ []) }
{
    match (shape_with(s, p), shape_with(t, q)) {
        (Some(one), Some(other)) => one.0.max(other.0) + one.1 + other.1 <= MAX_REACH,
        _ => false,
    }
}

/// Computes the greatest line of the hunks of a list followed by one more element, and the count of all their
/// lines; `None` if the count is more than 2^30.
fn shape_with(items: &[Named], last: &Named) -> Option<(usize, usize)>
    ensures { MatchOption result (greatest_reach < all_sides (items.now ++ last.now ∷ []))
        (λ shape. ReachGrowsTo (items.now ++ last.now ∷ []) 0 0 shape.0 shape.1) }
{
    shape_from(items, line_of(&last.prim), sides_of(&last.prim))
}

/// Computes the greater of `line` and the greatest line of a list's hunks, and `more` plus the count of all
/// their lines; `None` if that sum is more than 2^30.
fn shape_from(items: &[Named], line: usize, more: usize) -> Option<(usize, usize)>
    requires line { line ≤ greatest_reach }
    requires more { more ≤ greatest_reach }
    ensures { MatchOption result (greatest_reach < more + all_sides items.now)
        (λ shape. ReachGrowsTo items.now line more shape.0 shape.1) }
{
    let mut greatest = line;
    let mut sides = more;
    for p in items {
        greatest = line_of(&p.prim).max(greatest);
        sides += sides_of(&p.prim);
        if sides > MAX_REACH {
            return None;
        }
    }
    Some((greatest, sides))
}

/// Returns the line of a hunk, or 0 for an add or a remove.
fn line_of(p: &Primitive) -> usize
    ensures value { result ≡ line_of p.now }
    ensures in_range { InRange p.now }
{
    match p {
        Primitive::Hunk(hunk) => hunk.line() as usize,
        Primitive::Add(_) | Primitive::Remove(_) => 0,
    }
}

/// Returns the count of a hunk's old and new lines, or 0 for an add or a remove.
fn sides_of(p: &Primitive) -> usize
    ensures { result ≡ sides_of p.now }
{
    match p {
        Primitive::Hunk(hunk) => hunk.old().len() + hunk.new().len(),
        Primitive::Add(_) | Primitive::Remove(_) => 0,
    }
}
