//! The change at which a record stops, and why.
ghost use Rattle.std.specs.Prelude.{◌≡◌, IfOk, None, Some};
ghost use Rattle.camp_prim.specs.Applied.{applied};
ghost use Rattle.std.specs.FinMap.{get};
ghost use Rattle.camp_why.specs.Stops.{first_stop, hindrance, long_file};

use crate::misfits::{Misfit, find_misfit};
use camp_base::{Apply, Path, Tree};
use camp_prim::Primitive;
use camp_repo::MAX_FILE_LINES;
use std::alloc::AllocError;

/// The change at which a record stops.
#[derive(Debug, Drop)]
pub struct Stop {
    /// The number of the change, counted from 1.
    pub change: usize,
    /// The path of its file.
    pub path: Path,
    pub why: Hindrance,
}

/// Why a record stops at a change.
#[derive(Debug, Drop)]
pub enum Hindrance {
    /// The change does not apply to the tree that the changes before it give.
    Misfit(Misfit),
    /// The file would have this number of lines, more than a record allows.
    TooLong(usize),
}

/// Returns the first of some changes at which a record stops, applied one after the other; `None` if all can be made.
pub(crate) fn first_stop(tree: &Tree, changes: &[Primitive]) -> Result<Option<Stop>, AllocError>
    ensures { IfOk result (λ found. found ≡ first_stop 1 changes.now tree.now) }
{
    let mut next = tree.try_clone()?;
    for (at, change) in changes.iter().enumerate() {
        if let Some(why) = make(change, &mut next)? {
            let path = change.path().try_clone()?;
            return Ok(Some(Stop {
                change: at + 1,
                path,
                why,
            }));
        }
    }
    Ok(None)
}

// Applies a change to a tree, or returns why a record stops at it.
fn make(change: &Primitive, tree: &mut Tree) -> Result<Option<Hindrance>, AllocError>
    ensures reports { IfOk result (λ found. found ≡ hindrance change.now tree.old) }
    ensures makes { IfOk result (λ found. found ≡ None → applied change.now tree.old ≡ Some tree.new) }
{
    let path = change.path();
    if let Some(why) = find_misfit(change, tree)? {
        return Ok(Some(Hindrance::Misfit(why)));
    }
    match change.apply(tree) {
        Ok(()) => {}
        Err(Apply::DoesNotApply) => unreachable!(),
        Err(Apply::Memory) => return Err(AllocError),
    }
    Ok(long_file(path, tree))
}

// Returns the number of lines of the file of a path if it is above the limit of a record.
fn long_file(path: &Path, tree: &Tree) -> Option<Hindrance>
    ensures { result ≡ long_file (get tree.now path.now) }
{
    let lines = tree.file(path)?;
    if lines.len() > MAX_FILE_LINES {
        return Some(Hindrance::TooLong(lines.len()));
    }
    None
}
