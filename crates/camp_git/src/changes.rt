//! The changes of a commit as commands.
ghost use Rattle.std.specs.Prelude.{◌≡◌, OnOk, [], ◌∷◌, ◌&&◌, not};
ghost use Rattle.std.specs.List.{flat_map};
ghost use Rattle.std.specs.FinMap.{contains_key};
ghost use Rattle.camp_git.specs.Exports.{content_of};
ghost use Rattle.camp_git.specs.FastImport.{FileDelete, FileModify};
ghost use Rattle.camp_git.specs.Inside.Commits.{GrowsBy, differences_of, deletion_of, modification_of, paths_in};

use crate::texts::{append_content, append_path};
use camp_base::{Line, Path, Tree};
use camp_share::{SharedList, SharedMap};
use std::alloc::AllocError;

/// Appends the changes from one tree to another that differs only at these paths. Deletions come first, since a new
/// file may have the path of a folder that deleted files were in.
pub(crate) fn append_changes(
    text: &mut Vec<u8>,
    paths: &SharedMap<Path, ()>,
    old: &Tree,
    new: &Tree,
) -> Result<(), AllocError>
    ensures { OnOk result (GrowsBy text.old.items (differences_of old.now new.now (paths_in paths.now)) text.new.items) }
{
    append_deletions(text, paths, old, new)?;
    append_modifications(text, paths, new)
}

fn append_deletions(
    text: &mut Vec<u8>,
    paths: &SharedMap<Path, ()>,
    old: &Tree,
    new: &Tree,
) -> Result<(), AllocError>
    ensures { OnOk result (GrowsBy text.old.items (flat_map (deletion_of old.now new.now) (paths_in paths.now)) text.new.items) }
{
    for entry in paths.iter() {
        append_deletion(text, &entry.0, old, new)?;
    }
    Ok(())
}

fn append_deletion(
    text: &mut Vec<u8>,
    path: &Path,
    old: &Tree,
    new: &Tree,
) -> Result<(), AllocError>
    ensures { OnOk result (GrowsBy text.old.items (deletion_of old.now new.now path.now) text.new.items) }
{
    if goes(path, old, new) {
        append_gone(text, path)
    } else {
        Ok(())
    }
}

/// True if a change deletes the file at a path.
fn goes(path: &Path, old: &Tree, new: &Tree) -> bool
    ensures { result ≡ (contains_key old.now path.now && not (contains_key new.now path.now)) }
{
    old.file(path).is_some() && new.file(path).is_none()
}

fn append_gone(text: &mut Vec<u8>, path: &Path) -> Result<(), AllocError>
    ensures { OnOk result (GrowsBy text.old.items (FileDelete path.now ∷ []) text.new.items) }
{
    text.extend_from_slice(b"D ")?;
    append_path(text, path)?;
    Ok(text.push(b'\n')?)
}

fn append_modifications(
    text: &mut Vec<u8>,
    paths: &SharedMap<Path, ()>,
    new: &Tree,
) -> Result<(), AllocError>
    ensures { OnOk result (GrowsBy text.old.items (flat_map (modification_of new.now) (paths_in paths.now)) text.new.items) }
{
    for entry in paths.iter() {
        append_modification(text, &entry.0, new)?;
    }
    Ok(())
}

fn append_modification(text: &mut Vec<u8>, path: &Path, new: &Tree) -> Result<(), AllocError>
    ensures { OnOk result (GrowsBy text.old.items (modification_of new.now path.now) text.new.items) }
{
    match new.file(path) {
        Some(lines) => append_file(text, path, lines),
        None => Ok(()),
    }
}

fn append_file(text: &mut Vec<u8>, path: &Path, lines: &SharedList<Line>) -> Result<(), AllocError>
    ensures { OnOk result (GrowsBy text.old.items (FileModify path.now (content_of lines.now) ∷ []) text.new.items) }
{
    text.extend_from_slice(b"M 100644 inline ")?;
    append_path(text, path)?;
    text.push(b'\n')?;
    append_content(text, lines)
}
