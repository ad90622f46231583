//! Chains: lists in which no two neighbours commute.
ghost use Rattle.std.specs.Prelude.{◌↔◌, IsTrue};
ghost use Rattle.camp_seq.specs.Chains.{CanCommute, Chain, IsBlockedByFirst};

use camp_prim::{Named, commutes};

/// True if no two neighbours of a list commute; does not allocate.
pub fn is_chain(items: &[Named]) -> bool
    ensures exact { IsTrue result ↔ Chain items.now }
{
    for at in (0..items.len()).rev() {
        if !is_blocked_by_first(&items[at], &items[at + 1..]) {
            return false;
        }
    }
    true
}

/// True if two neighbours commute; does not allocate.
pub fn can_commute(p: &Named, q: &Named) -> bool
    ensures exact { IsTrue result ↔ CanCommute p.now q.now }
{
    commutes(p, q)
}

/// True if `p` does not commute with the first element of the list after it, or that list is empty.
fn is_blocked_by_first(p: &Named, s: &[Named]) -> bool
    ensures { IsTrue result ↔ IsBlockedByFirst p.now s.now }
{
    match s.first() {
        None => true,
        Some(q) => !can_commute(p, q),
    }
}
