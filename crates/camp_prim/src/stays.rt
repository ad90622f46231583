//! Quick checks of whether two primitives commute.
ghost use Rattle.std.specs.Prelude.{◌≡◌, ◌↔◌, IsTrue};
ghost use Rattle.camp_prim.specs.Inside.Targets.{moved};
ghost use Rattle.camp_prim.specs.Commuting.{Commute};
ghost use Rattle.camp_prim.specs.declared.named.Named.{Named as AnyNamed};

use crate::commuting::targets_of;
use crate::labels::have_same_key;
use crate::{Named, Primitive};

/// True if `p` and then `q` commute unchanged: `p q <-> q p`. Does not allocate.
pub fn commutes_unchanged(p: &Named, q: &Named) -> bool
    ensures exact { IsTrue result ↔ Commute p.now q.now q.now p.now }
{
    if have_same_key(p, q) {
        return false;
    }
    match targets_of(&p.prim, &q.prim) {
        None => false,
        Some(targets) => {
            if !is_at_line(&q.prim, targets.second) {
                return false;
            }
            is_at_line(&p.prim, targets.first)
        }
    }
}

/// True if `p` and then `q` commute, changed or not: if `commute` returns a pair. Does not allocate.
pub fn commutes(p: &Named, q: &Named) -> bool
    ensures exact { IsTrue result ↔ ((q' : AnyNamed) × ((p' : AnyNamed) × Commute p.now q.now q' p')) }
{
    if have_same_key(p, q) {
        return false;
    }
    match targets_of(&p.prim, &q.prim) {
        None => false,
        Some(_) => true,
    }
}

/// True if a primitive is already at a line, if one is given.
fn is_at_line(p: &Primitive, line: Option<u32>) -> bool
    ensures { IsTrue result ↔ (moved line p.now ≡ p.now) }
{
    match (p, line) {
        (Primitive::Hunk(hunk), Some(line)) => hunk.line() == line,
        _ => true,
    }
}
