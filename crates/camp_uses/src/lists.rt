//! Callers of `camp_seq`.
ghost use Rattle.std.specs.Prelude.{◌≡◌, OnOk, IfOk, IfSome};
ghost use Rattle.camp_base.specs.Trees.{Files};
ghost use Rattle.camp_seq.specs.Equivalence.{◌~◌};
ghost use Rattle.camp_seq.specs.Merging.{CleanMerge};
ghost use Rattle.camp_seq.specs.NormalOrder.{Norm};
ghost use Rattle.camp_seq.specs.Room.{HasRoom};
ghost use Rattle.camp_seq.specs.Running.{AppliesAll};

use camp_base::{Apply, Tree};
use camp_prim::applied_is_applies;
use camp_seq::{
    Seq, apply_all, clean_merge, clean_merge_closes, inverse_of_a_list_leads_back, invert_all,
    lists_of_results_are_equivalent, norm, results_of_lists_are_determined,
};
use std::alloc::AllocError;

/// Applies a list and then its inverse: the tree is as it was.
pub fn do_and_undo(list: &Seq, tree: &mut Tree) -> Result<(), Apply>
    ensures unchanged { OnOk result (tree.new ≡ tree.old) }
{
    let inverse = invert_all(list)?;
    apply_all(list, tree)?;
    inverse_of_a_list_leads_back();
    applied_is_applies();
    apply_all(&inverse, tree)
}

/// Returns the normal orders of two equivalent lists: with headroom they are the same list.
pub fn in_order_either_way(s: &Seq, t: &Seq) -> Result<(Seq, Seq), AllocError>
    requires room { HasRoom s.now }
    requires equivalent { s.now ~ t.now }
    ensures order { IfOk result (λ both. Norm s.now both.0 × Norm t.now both.1) }
    ensures same { IfOk result (λ both. both.0 ≡ both.1) }
{
    results_of_lists_are_determined();
    Ok((norm(s)?, norm(t)?))
}

/// Puts a list in normal order in order again: with headroom it is unchanged.
pub fn in_order_twice(list: &Seq) -> Result<(Seq, Seq), AllocError>
    requires { HasRoom list.now }
    ensures same { IfOk result (λ both. both.0 ≡ both.1) }
{
    lists_of_results_are_equivalent();
    results_of_lists_are_determined();
    let once = norm(list)?;
    let twice = norm(&once)?;
    Ok((once, twice))
}

/// Returns the trees after two lists that merge cleanly, in both orders: they are the same tree.
pub fn merged_in_both_orders(a: &Seq, b: &Seq, tree: &Tree) -> Result<Option<(Tree, Tree)>, Apply>
    ensures same { IfOk result (λ found. IfSome found (λ both. both.0 ≡ both.1)) }
{
    let Some((behind_a, behind_b)) = clean_merge(a, b)? else {
        return Ok(None);
    };
    let both = trees_of_merged(a, b, &behind_a, &behind_b, tree)?;
    Ok(Some(both))
}

/// Returns the trees after two lists and what they merge to, in both orders.
fn trees_of_merged(
    a: &Seq,
    b: &Seq,
    behind_a: &Seq,
    behind_b: &Seq,
    tree: &Tree,
) -> Result<(Tree, Tree), Apply>
    requires { CleanMerge a.now b.now behind_a.now behind_b.now }
    ensures same { IfOk result (λ both. both.0 ≡ both.1) }
{
    clean_merge_closes();
    applied_is_applies();
    let here = after_both(a, behind_a, tree)?;
    let there = after_both(b, behind_b, tree)?;
    Ok((here, there))
}

/// Returns the tree after two lists, one after the other.
fn after_both(first: &Seq, second: &Seq, tree: &Tree) -> Result<Tree, Apply>
    ensures { IfOk result (λ after. (between : Files) × AppliesAll first.now tree.now between × AppliesAll second.now between after) }
{
    let mut changed = tree.try_clone()?;
    apply_all(first, &mut changed)?;
    apply_all(second, &mut changed)?;
    Ok(changed)
}
