//! Callers of `camp_prim`.
ghost use Rattle.std.specs.Prelude.{◌≡◌, OnOk, IfOk, IfSome};
ghost use Rattle.camp_prim.specs.Effect.{Leads};

use camp_base::{Apply, Tree};
use camp_prim::{Named, applied_is_applies, commute, inverse_leads_back};

/// Applies a patch and then its inverse: the tree is as it was.
pub fn do_and_undo(patch: &Named, tree: &mut Tree) -> Result<(), Apply>
    ensures unchanged { OnOk result (tree.new ≡ tree.old) }
{
    let inverse = patch.try_clone()?.invert();
    patch.apply(tree)?;
    inverse_leads_back();
    applied_is_applies();
    inverse.apply(tree)
}

/// Returns the trees after two patches in their two orders, if they commute: they are the same tree.
pub fn in_both_orders(p: &Named, q: &Named, tree: &Tree) -> Result<Option<(Tree, Tree)>, Apply>
    ensures same { IfOk result (λ found. IfSome found (λ both. both.0 ≡ both.1)) }
{
    let Some((second, first)) = commute(p, q)? else {
        return Ok(None);
    };
    applied_is_applies();
    let here = after(p, q, tree)?;
    let there = after(&second, &first, tree)?;
    Ok(Some((here, there)))
}

fn after(p: &Named, q: &Named, tree: &Tree) -> Result<Tree, Apply>
    ensures { IfOk result (Leads p.now.prim q.now.prim tree.now) }
{
    let mut changed = tree.try_clone()?;
    p.apply(&mut changed)?;
    q.apply(&mut changed)?;
    Ok(changed)
}
