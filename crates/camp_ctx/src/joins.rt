//! Joining lists.
ghost use Rattle.std.specs.Prelude.{◌≡◌, ◌++◌, IfOk};

use camp_prim::Named;
use camp_seq::Seq;
use std::alloc::{AllocError, Global};

/// Copies a list and then another into one list.
pub fn join(alloc: Global, s: &[Named], t: &[Named]) -> Result<Seq, AllocError>
    ensures exact { IfOk result (λ joined. joined ≡ s.now ++ t.now) }
{
    let mut joined = Seq::with_room(alloc, s.len().saturating_add(t.len()))?;
    push_all(&mut joined, s)?;
    push_all(&mut joined, t)?;
    Ok(joined)
}

/// Appends copies of `items` to a list.
pub(crate) fn push_all(list: &mut Seq, items: &[Named]) -> Result<(), AllocError>
    ensures { IfOk result (λ _. list.new ≡ list.old ++ items.now) }
{
    for p in items {
        list.push(p.try_clone()?)?;
    }
    Ok(())
}
