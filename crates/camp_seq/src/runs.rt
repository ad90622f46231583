//! Applying a list to a tree.
ghost use Rattle.camp_base.specs.Answers.{AnswersByTrial};
ghost use Rattle.camp_seq.specs.Running.{AppliesAll};

use crate::Seq;
use camp_base::{Apply, Tree};

/// Applies the primitives of a list to a tree, one after the other. If one of them fails, the tree is unchanged.
#[tactic(auto, using(crate::proofs::ListRuns::run_more))]
pub fn apply_all(s: &Seq, tree: &mut Tree) -> Result<(), Apply>
    ensures exact { AnswersByTrial (AppliesAll s.now) tree.old result tree.new }
{
    let mut changed = tree.try_clone()?;
    for p in &s.items {
        p.apply(&mut changed)?;
    }
    *tree = changed;
    Ok(())
}
