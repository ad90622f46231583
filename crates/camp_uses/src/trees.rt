//! Callers of `camp_base`.
ghost use Rattle.std.specs.Prelude.{◌≡◌, IfOk, OnOk, IsErrOf, IsSome};
ghost use Rattle.std.specs.FinMap.{get, keys};
ghost use Rattle.camp_base.specs.declared.faults.Apply.TheVariants as apply;

use camp_base::{Apply, Path, Tree};
use camp_prim::{applied_is_applies, inverse_leads_back};
use std::alloc::{AllocError, Global};

/// Adds a file and removes it again: the tree is as before.
pub fn add_and_remove(tree: &mut Tree, path: &Path) -> Result<(), Apply>
    ensures same { OnOk result (tree.new ≡ tree.old) }
    ensures fault { IsErrOf result apply.DoesNotApply → IsSome (get tree.old path.now) }
{
    inverse_leads_back();
    applied_is_applies();
    match tree.add_file(path) {
        Ok(()) => tree.remove_file(path),
        Err(fault) => Err(fault),
    }
}

/// Returns the paths of the files of a tree, in the order of their bytes.
pub fn paths(alloc: Global, tree: &Tree) -> Result<Vec<Path>, AllocError>
    ensures exact { IfOk result (λ paths. paths.items ≡ keys tree.now) }
{
    let mut paths = Vec::with_capacity(alloc, tree.len())?;
    for (path, _) in tree.iter() {
        paths.push(path.try_clone()?)?;
    }
    Ok(paths)
}
