//! The trees that the catches of a branch lead to, patch by patch.
ghost use Rattle.std.specs.Prelude.{◌≡◌, ◌≤◌, ◌+◌, drop, length, IfOk};
ghost use Rattle.camp_base.specs.Trees.{Files};
ghost use Rattle.camp_seq.specs.Running.{AppliesAll};
ghost use Rattle.camp_catch.specs.Catches.{FitsAll};
ghost use Rattle.camp_catch.specs.Laws.{keys_of};
ghost use Rattle.camp_git.specs.Inside.Steps.{StaysBeside, StaysBesideNew, led_by};

use camp_base::{Apply, Path, Tree};
use camp_catch::Catch;
use camp_prim::Named;
use camp_share::{Shared, SharedList, SharedMap};
use std::alloc::{AllocError, Global};

/// The tree after a patch, and the paths at which it may differ from the tree before the patch.
#[derive(Drop)]
pub(crate) struct Step {
    pub(crate) tree: Tree,
    pub(crate) paths: SharedMap<Path, ()>,
}

/// Returns the index at which the next patch begins: `from` plus the number of catches from there on that belong to the
/// patch before `from`.
pub(crate) fn patch_end(catches: &SharedList<Shared<Catch>>, from: usize) -> usize
    requires { from ≤ length catches.now }
    ensures exact { result ≡ from + led_by (keys_of (drop from catches.now)) }
    ensures within { result ≤ length catches.now }
{
    let last = catches.len();
    let mut end = from;
    for catch in catches.iter_from(from) {
        if catch.place() == 1 {
            return end;
        }
        end += 1;
    }
    last
}

/// Makes the step from a tree to the one after the catches of a patch.
pub(crate) fn step_over(
    alloc: Global,
    tree: &Tree,
    catches: &[Shared<Catch>],
) -> Result<Step, AllocError>
    requires fits { (after : Files) × FitsAll catches.now tree.now after }
    ensures fits { IfOk result (λ step. FitsAll catches.now tree.now step.tree) }
    ensures stays { IfOk result (λ step. StaysBeside step.paths tree.now step.tree) }
{
    let mut after = tree.try_clone()?;
    let mut paths = SharedMap::new(alloc);
    for catch in catches {
        run(catch.effect(), &mut after, &mut paths)?;
    }
    Ok(Step { tree: after, paths })
}

/// Applies the changes of an effect, which are known to apply, and adds their paths to a list.
fn run(effect: &[Named], tree: &mut Tree, paths: &mut SharedMap<Path, ()>) -> Result<(), AllocError>
    requires runs { (after : Files) × AppliesAll effect.now tree.old after }
    ensures runs { IfOk result (λ _. AppliesAll effect.now tree.old tree.new) }
    ensures stays { IfOk result (λ _. StaysBesideNew paths.old paths.new tree.old tree.new) }
{
    for p in effect {
        let own = p.prim.path().try_clone()?;
        *paths = paths.inserted(own, ())?;
        match p.apply(tree) {
            Ok(()) => {}
            Err(Apply::DoesNotApply) => unreachable!(),
            Err(Apply::Memory) => return Err(AllocError),
        }
    }
    Ok(())
}
