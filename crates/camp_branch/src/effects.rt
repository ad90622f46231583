//! The effects of catches on trees.
ghost use Rattle.std.specs.Prelude.{IfOk, OnOk};
ghost use Rattle.std.specs.List.{flat_map};
ghost use Rattle.camp_base.specs.Answers.{AnswersByTrial};
ghost use Rattle.camp_base.specs.Trees.{Files};
ghost use Rattle.camp_prim.specs.Effect.{Applies, inverse_of};
ghost use Rattle.camp_seq.specs.Running.{AppliesAll};
ghost use Rattle.camp_catch.specs.Catches.{FitsAll, effect_of};

use camp_base::{Apply, Tree};
use camp_catch::Catch;
use camp_prim::Named;
use camp_share::Shared;
use std::alloc::AllocError;

/// Applies the effects of catches that fit the tree.
pub(crate) fn tree_after(tree: &Tree, catches: &[Shared<Catch>]) -> Result<Tree, AllocError>
    requires fits { (after : Files) × FitsAll catches.now tree.now after }
    ensures { IfOk result (λ after. FitsAll catches.now tree.now after) }
{
    let mut after = tree.try_clone()?;
    for catch in catches {
        apply_effect(catch.effect(), &mut after)?;
    }
    Ok(after)
}

/// Undoes the effects of catches; `tree` is the tree after them. Returns the tree before them.
pub(crate) fn tree_before(tree: &Tree, catches: &[Shared<Catch>]) -> Result<Tree, AllocError>
    requires led { (before : Files) × AppliesAll (flat_map effect_of catches.now) before tree.now }
    ensures { IfOk result (λ before. AppliesAll (flat_map effect_of catches.now) before tree.now) }
{
    let mut before = tree.try_clone()?;
    for at in (0..catches.len()).rev() {
        undo_effect(catches[at].effect(), &mut before)?;
    }
    Ok(before)
}

/// Applies an effect whose changes are known to apply.
fn apply_effect(effect: &[Named], tree: &mut Tree) -> Result<(), AllocError>
    requires runs { (after : Files) × AppliesAll effect.now tree.old after }
    ensures { OnOk result (AppliesAll effect.now tree.old tree.new) }
{
    for p in effect {
        match p.apply(tree) {
            Ok(()) => {}
            Err(Apply::DoesNotApply) => unreachable!(),
            Err(Apply::Memory) => return Err(AllocError),
        }
    }
    Ok(())
}

/// Undoes an effect; `tree` is the tree after its last change.
fn undo_effect(effect: &[Named], tree: &mut Tree) -> Result<(), AllocError>
    requires ran { (before : Files) × AppliesAll effect.now before tree.old }
    ensures { OnOk result (AppliesAll effect.now tree.new tree.old) }
{
    for at in (0..effect.len()).rev() {
        match apply_inverse(&effect[at], tree) {
            Ok(()) => {}
            Err(Apply::DoesNotApply) => unreachable!(),
            Err(Apply::Memory) => return Err(AllocError),
        }
    }
    Ok(())
}

fn apply_inverse(p: &Named, tree: &mut Tree) -> Result<(), Apply>
    ensures { AnswersByTrial (Applies (inverse_of p.now).prim) tree.old result tree.new }
{
    let inverse = p.try_clone()?.invert();
    inverse.apply(tree)
}
