//! Commuting two primitives in place.
ghost use Rattle.std.specs.Prelude.{◌≡◌, ℕ, Some};
ghost use Rattle.camp_base.specs.Answers.{Changes};
ghost use Rattle.camp_prim.specs.Effect.{InRange};
ghost use Rattle.camp_prim.specs.Inside.Targets.{moved};
ghost use Rattle.camp_prim.specs.Commuting.{CommutesInPlace};

use crate::commuting::targets_of;
use crate::labels::have_same_key;
use crate::{Named, Primitive};

/// Commutes `p` and then `q` in place: `p` becomes what it is after `q`, and `q` what it is before `p`; the caller
/// exchanges the two. False if they do not commute; both are then unchanged. Does not allocate.
pub fn commute_in_place(p: &mut Named, q: &mut Named) -> bool
    ensures exact { Changes CommutesInPlace (p.old, q.old) result (p.new, q.new) }
{
    if have_same_key(p, q) {
        return false;
    }
    match targets_of(&p.prim, &q.prim) {
        None => false,
        Some(targets) => {
            move_to(&mut q.prim, targets.second);
            move_to(&mut p.prim, targets.first);
            true
        }
    }
}

/// Moves a hunk to another line, if one is given.
fn move_to(p: &mut Primitive, line: Option<u32>)
    requires { InRange (moved line p.old) }
    ensures { p.new ≡ moved line p.old }
{
    if let Some(line) = line {
        if let Primitive::Hunk(hunk) = p {
            hunk.move_to(line);
        }
    }
}
