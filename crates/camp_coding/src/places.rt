//! The files of camp that store one file of git: its own, and those of its attributes.

ghost use Rattle.std.specs.Prelude.{◌≡◌, ◌↔◌, true, false, IfOk, OnOk, None, Some, MatchOption, option_map};
ghost use Rattle.std.specs.FinMap as map;
ghost use Rattle.camp_base.specs.Bytes.{is_path};
ghost use Rattle.camp_coding.specs.Attributes.{MakesPath};
ghost use Rattle.camp_coding.specs.GitTrees.{file_at, place_path};
ghost use Rattle.camp_coding.specs.Inside.Placing.{Refuses, SetsFile, SetsPlace};

use crate::trees::EncodeFault;
use crate::{Attribute, encode_attribute_path, encode_path};
use camp_base::{Apply, BaseFault, Line, Path, Tree};
use std::alloc::{AllocError, Global};

/// Sets the lines of the file that stores a path of git, or an attribute of that path; or removes that file. `BadPath`
/// if there are lines, and the path is not valid in camp.
pub(crate) fn set_place(
    alloc: Global,
    tree: &mut Tree,
    place: Option<Attribute>,
    path: &[u8],
    lines: Option<&[Line]>,
) -> Result<(), EncodeFault>
    ensures { SetsPlace (place_path place path.now) (option_map (λ lines. lines.now) lines.entry) tree.old result tree.new }
{
    let found = find_path(alloc, place, path)?;
    let camp_path = match found {
        Some(camp_path) => camp_path,
        None => return refuse(lines),
    };
    set_file(tree, &camp_path, lines)?;
    Ok(())
}

/// Returns `BadPath` if there are lines.
fn refuse(lines: Option<&[Line]>) -> Result<(), EncodeFault>
    ensures { Refuses (option_map (λ lines. lines.now) lines.entry) result }
{
    if lines.is_some() {
        return Err(EncodeFault::BadPath);
    }
    Ok(())
}

/// Returns the lines of the file of a path of git or of its attribute; `None` if there is no file.
pub(crate) fn lines_at(
    alloc: Global,
    tree: &Tree,
    place: Option<Attribute>,
    path: &[u8],
) -> Result<Option<Vec<Line>>, AllocError>
    ensures { IfOk result (λ found. option_map (λ lines. lines.items) found ≡ file_at tree.now place path.now) }
{
    let camp_path = match find_path(alloc, place, path)? {
        Some(camp_path) => camp_path,
        None => return Ok(None),
    };
    lines_of(tree, &camp_path)
}

fn lines_of(tree: &Tree, path: &Path) -> Result<Option<Vec<Line>>, AllocError>
    ensures { IfOk result (λ found. option_map (λ lines. lines.items) found ≡ map.get tree.now path.now) }
{
    match tree.file(path) {
        Some(lines) => Ok(Some(lines.to_vec()?)),
        None => Ok(None),
    }
}

/// Returns the path in camp of a path of git or of its attribute; `None` if it is not valid there.
fn find_path(
    alloc: Global,
    place: Option<Attribute>,
    path: &[u8],
) -> Result<Option<Path>, AllocError>
    ensures { IfOk result (λ found. MatchOption found
        (is_path (place_path place path.now) ≡ false)
        (λ camp_path. (camp_path ≡ place_path place path.now) × (is_path (place_path place path.now) ≡ true))) }
{
    match make_path(alloc, place, path) {
        Ok(camp_path) => Ok(Some(camp_path)),
        Err(BaseFault::BadPath) => Ok(None),
        Err(_) => Err(AllocError),
    }
}

fn make_path(alloc: Global, place: Option<Attribute>, path: &[u8]) -> Result<Path, BaseFault>
    ensures { MakesPath (place_path place path.now) result }
{
    match place {
        Some(attribute) => encode_attribute_path(alloc, attribute, path),
        None => encode_path(alloc, path),
    }
}

fn set_file(tree: &mut Tree, path: &Path, lines: Option<&[Line]>) -> Result<(), Apply>
    ensures { OnOk result (SetsFile path.now (option_map (λ lines. lines.now) lines.entry) tree.old tree.new) }
{
    clear_file(tree, path)?;
    let lines = match lines {
        Some(lines) => lines,
        None => return Ok(()),
    };
    write_file(tree, path, lines)?;
    Ok(())
}

/// Removes the file at a path, if there is one.
fn clear_file(tree: &mut Tree, path: &Path) -> Result<(), Apply>
    ensures { OnOk result (SetsFile path.now None tree.old tree.new) }
{
    let old = match tree.file(path) {
        Some(lines) => lines.to_vec()?,
        None => return Ok(()),
    };
    tree.splice(path, 1, &old, &[])?;
    tree.remove_file(path)?;
    Ok(())
}

/// Makes a file at a path that has none.
fn write_file(tree: &mut Tree, path: &Path, lines: &[Line]) -> Result<(), Apply>
    ensures { OnOk result (SetsFile path.now (Some lines.now) tree.old tree.new) }
{
    tree.add_file(path)?;
    tree.splice(path, 1, &[], lines)?;
    Ok(())
}
