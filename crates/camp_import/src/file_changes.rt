//! The changes of one file.

ghost use Rattle.std.specs.Prelude.{◌≡◌, None, Some, option_map};
ghost use Rattle.camp_import.specs.Inside.Growing.{GrowsByFileOr};

use crate::edits::{ChangeFault, append_edits};
use camp_base::{Line, Path};
use camp_prim::Primitive;
use camp_share::SharedList;
use std::alloc::Global;

/// Appends the changes that lead from one state of the file at a path to another; in either state there may be no file.
pub(crate) fn append_file_changes(
    alloc: Global,
    changes: &mut Vec<Primitive>,
    path: &Path,
    old: Option<&SharedList<Line>>,
    new: Option<&SharedList<Line>>,
) -> Result<(), ChangeFault>
    ensures { GrowsByFileOr path.now (option_map (λ lines. lines.now) old.entry) (option_map (λ lines. lines.now) new.entry) changes.old.items result changes.new.items }
{
    match old {
        Some(old) => append_changed(alloc, changes, path, old, new),
        None => append_made(alloc, changes, path, new),
    }
}

fn append_changed(
    alloc: Global,
    changes: &mut Vec<Primitive>,
    path: &Path,
    old: &SharedList<Line>,
    new: Option<&SharedList<Line>>,
) -> Result<(), ChangeFault>
    ensures { GrowsByFileOr path.now (Some old.now) (option_map (λ lines. lines.now) new.entry) changes.old.items result changes.new.items }
{
    match new {
        Some(new) => append_edited(alloc, changes, path, old, new),
        None => append_removed(alloc, changes, path, old),
    }
}

#[tactic(auto, using(crate::proofs::FileLemmas::grows_none))]
fn append_made(
    alloc: Global,
    changes: &mut Vec<Primitive>,
    path: &Path,
    new: Option<&SharedList<Line>>,
) -> Result<(), ChangeFault>
    ensures { GrowsByFileOr path.now None (option_map (λ lines. lines.now) new.entry) changes.old.items result changes.new.items }
{
    match new {
        Some(new) => append_added(alloc, changes, path, new),
        None => Ok(()),
    }
}

fn append_edited(
    alloc: Global,
    changes: &mut Vec<Primitive>,
    path: &Path,
    old: &SharedList<Line>,
    new: &SharedList<Line>,
) -> Result<(), ChangeFault>
    ensures { GrowsByFileOr path.now (Some old.now) (Some new.now) changes.old.items result changes.new.items }
{
    append_edits(alloc, changes, path, &old.to_vec()?, &new.to_vec()?)
}

fn append_removed(
    alloc: Global,
    changes: &mut Vec<Primitive>,
    path: &Path,
    old: &SharedList<Line>,
) -> Result<(), ChangeFault>
    ensures { GrowsByFileOr path.now (Some old.now) None changes.old.items result changes.new.items }
{
    append_edits(alloc, changes, path, &old.to_vec()?, &[])?;
    changes.push(Primitive::Remove(path.try_clone()?))?;
    Ok(())
}

fn append_added(
    alloc: Global,
    changes: &mut Vec<Primitive>,
    path: &Path,
    new: &SharedList<Line>,
) -> Result<(), ChangeFault>
    ensures { GrowsByFileOr path.now None (Some new.now) changes.old.items result changes.new.items }
{
    changes.push(Primitive::Add(path.try_clone()?))?;
    append_edits(alloc, changes, path, &[], &new.to_vec()?)
}
