//! The changes between two trees.

ghost use Rattle.std.specs.Prelude.{IfOk};
ghost use Rattle.std.specs.List.{AllByRecursion};
ghost use Rattle.camp_import.specs.TreeChanges.{DifferWithin, GivesChanges, HasShortSides, IsOfDifference};

use crate::edits::ChangeFault;
use crate::file_changes::append_file_changes;
use camp_base::{Path, Tree};
use camp_prim::Primitive;
use camp_share::SharedMap;
use std::alloc::Global;

/// Returns the changes that lead from one tree to another, in the order of their paths. The two trees may differ only
/// at the given paths; a file that is the same in both has no change.
pub fn changes_between(
    alloc: Global,
    paths: &SharedMap<Path, ()>,
    old: &Tree,
    new: &Tree,
) -> Result<Vec<Primitive>, ChangeFault>
    requires within { DifferWithin paths.now old.now new.now }
    ensures exact { GivesChanges old.now new.now result }
    ensures short { IfOk result (λ changes. AllByRecursion HasShortSides changes.items) }
    // A file that is the same in both trees, or in neither, has no change.
    ensures needed { IfOk result (λ changes. AllByRecursion (IsOfDifference old.now new.now) changes.items) }
{
    let mut changes = Vec::new(alloc);
    'paths: for entry in paths.iter() {
        let path = &entry.0;
        append_file_changes(alloc, &mut changes, path, old.file(path), new.file(path))?;
    }
    Ok(changes)
}
