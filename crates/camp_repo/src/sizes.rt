//! The sizes of a record, and the tree that it leads to.
ghost use Rattle.std.specs.Prelude.{◌≡◌};
ghost use Rattle.std.specs.List.{list_any};
ghost use Rattle.camp_call.specs.Patches.{IsPatchSized};
ghost use Rattle.camp_base.specs.Trees.{Files};
ghost use Rattle.camp_prim.specs.Effect.{Applies};
ghost use Rattle.camp_prim.specs.Commuting.{path_of};
ghost use Rattle.camp_catch.specs.Making.{GivesOrRunsOut};
ghost use Rattle.camp_repo.specs.Steps.{changed, has_long_file, has_long_side, is_too_large};

use crate::{Branch, Limits, MAX_FILE_LINES, MAX_SIDE_LINES, Refusal};
use camp_base::{Apply, Path, Tree};
use camp_catch::Unmade;
use camp_prim::Primitive;

/// True if a record is too large for a branch.
pub(crate) fn is_too_large(limits: Limits, branch: &Branch, changes: &[Primitive]) -> bool
    requires { IsPatchSized changes.now }
    ensures { result ≡ is_too_large limits.catches branch.now changes.now }
{
    branch.catches().len().saturating_add(changes.len()) > limits.catches()
        || has_long_side(changes)
}

fn has_long_side(changes: &[Primitive]) -> bool
    ensures { result ≡ list_any has_long_side changes.now }
{
    changes.iter().any(is_long)
}

fn is_long(change: &Primitive) -> bool
    ensures { result ≡ has_long_side change.now }
{
    match change {
        Primitive::Add(_) | Primitive::Remove(_) => false,
        Primitive::Hunk(hunk) => {
            hunk.old().len() > MAX_SIDE_LINES || hunk.new().len() > MAX_SIDE_LINES
        }
    }
}

/// Returns the tree after all changes, applied one after the other, or the refusal of the first that can't be applied.
pub(crate) fn changed(tree: &Tree, changes: &[Primitive]) -> Result<Tree, Unmade<Refusal>>
    ensures { GivesOrRunsOut (λ led. led ≡ changed changes.now tree.now) result }
{
    let mut next = tree.try_clone()?;
    for change in changes {
        match change.apply(&mut next) {
            Ok(()) => {}
            Err(Apply::DoesNotApply) => return Err(Unmade::Blocked(Refusal::DoesNotApply)),
            Err(Apply::Memory) => return Err(Unmade::Memory),
        }
        if leaves_long_file(change, &next) {
            return Err(Unmade::Blocked(Refusal::TooLarge));
        }
    }
    Ok(next)
}

/// True if the file of a hunk is too long in the tree after it; false for an add or a remove.
fn leaves_long_file(change: &Primitive, tree: &Tree) -> bool
    requires led { (old : Files) × Applies change.now old tree.now }
    ensures { result ≡ has_long_file (path_of change.now) tree.now }
{
    let Primitive::Hunk(hunk) = change else {
        return false;
    };
    has_long_file(hunk.path(), tree)
}

fn has_long_file(path: &Path, tree: &Tree) -> bool
    ensures { result ≡ has_long_file path.now tree.now }
{
    match tree.file(path) {
        Some(lines) => lines.len() > MAX_FILE_LINES,
        None => false,
    }
}
