//! The paths at which two trees differ.

ghost use Rattle.std.specs.Prelude.{◌≡◌, ◌↔◌, Some, IfOk, IsTrue};
ghost use Rattle.std.specs.FinMap as map;
ghost use Rattle.camp_import.specs.Inside.Changing.{AddsDifferences, AddsOther};
ghost use Rattle.camp_import.specs.TreeChanges.{DifferWithin, HasDifferencesOnly};

use camp_base::{Line, Path, Tree};
use camp_share::{Share, Shared, SharedList, SharedMap};
use std::alloc::{AllocError, Global};

/// Returns the paths at which the files of two trees differ.
pub fn differing_paths(
    alloc: Global,
    old: &Tree,
    new: &Tree,
) -> Result<SharedMap<Path, ()>, AllocError>
    ensures exact { IfOk result (λ paths. DifferWithin paths old.now new.now) }
    ensures only { IfOk result (λ paths. HasDifferencesOnly paths old.now new.now) }
{
    let removed = with_others(alloc, SharedMap::new(alloc), old, new)?;
    let both = with_others(alloc, removed, new, old)?;
    Ok(both)
}

/// Adds the paths of those files of a tree that another one does not have, or has with other lines.
pub(crate) fn with_others(
    alloc: Global,
    paths: SharedMap<Path, ()>,
    tree: &Tree,
    other: &Tree,
) -> Result<SharedMap<Path, ()>, AllocError>
    ensures { IfOk result (λ found. AddsDifferences tree.now other.now paths found) }
{
    let mut found = paths;
    'files: for file in tree.iter() {
        found = with_other(found, file, other)?;
    }
    Ok(found)
}

/// Adds the path of a file unless another tree has the same file.
fn with_other(
    paths: SharedMap<Path, ()>,
    file: &(Path, Shared<SharedList<Line>>),
    other: &Tree,
) -> Result<SharedMap<Path, ()>, AllocError>
    ensures { IfOk result (λ found. AddsOther file.now.0 file.now.1 other.now paths found) }
{
    if has_same_file(other, file) {
        return Ok(paths);
    }
    let path = file.0.share()?;
    let more = paths.inserted(path, ())?;
    Ok(more)
}

fn has_same_file(tree: &Tree, file: &(Path, Shared<SharedList<Line>>)) -> bool
    ensures { IsTrue result ↔ (map.get tree.now file.now.0 ≡ Some file.now.1) }
{
    match tree.file(&file.0) {
        Some(lines) => are_same(lines, &file.1),
        None => false,
    }
}

fn are_same(lines: &SharedList<Line>, other: &SharedList<Line>) -> bool
    ensures { IsTrue result ↔ (lines.now ≡ other.now) }
{
    *lines == *other
}
