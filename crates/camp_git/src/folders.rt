//! Files that git can't store: a component of the path is `.git`, or the path is also a folder of another file.
ghost use Rattle.std.specs.Prelude.{◌≡◌, ◌↔◌, ◌<◌, ℕ, List, IsTrue, true, false, IfOk, MatchOption, Some, length, slice_get};
ghost use Rattle.std.specs.Ordering.{nat_cmp};
ghost use Rattle.std.specs.Cmp.Lexicographic.{slice_cmp};
ghost use Rattle.std.specs.declared.cmp.Ordering.TheVariants.{Less};
ghost use Rattle.std.specs.FinMap as map;
ghost use Rattle.camp_base.specs.Trees.{Lines};
ghost use Rattle.camp_share.specs.Maps.{map_of};
ghost use Rattle.camp_git.specs.Inside.Finding.{IsStartOfPath, IsFree, IsFreeIfNew, IsPlaceOf, HasInside, IsAround, IsNoneAround};
ghost use Rattle.camp_git.specs.FastImport.{is_inside};
ghost use Rattle.camp_git.specs.Holding.{CanHold, CannotHold, has_git_part, is_git_part};

use camp_base::{Path, Tree};
use camp_share::SharedMap;
use std::alloc::{AllocError, Global};

/// Returns a file of the new tree that git can't store, or `None`. The new tree was made from the old one by changes at
/// these paths, and git can store the old one, so only these paths are checked.
pub(crate) fn first_unheld(
    alloc: Global,
    paths: &SharedMap<Path, ()>,
    old: &Tree,
    new: &Tree,
) -> Result<Option<Path>, AllocError>
    requires held { CanHold old.now }
    requires others { (path : List ℕ) → map.contains_key (map_of (slice_cmp nat_cmp) paths.now) path ≡ false → map.contains_key new.now path ≡ map.contains_key old.now path }
    ensures { IfOk result (λ found. MatchOption found
        (CanHold new.now)
        (λ path. (map.contains_key new.now path ≡ true) × CannotHold new.now path)) }
{
    for entry in paths.iter() {
        match unheld_if_new(alloc, &entry.0, old, new)? {
            Some(path) => return Ok(Some(path)),
            None => {}
        }
    }
    Ok(None)
}

/// Returns the file at a path, if that file is new and git can't store it, or another one that git can't store because
/// of it.
fn unheld_if_new(
    alloc: Global,
    path: &Path,
    old: &Tree,
    new: &Tree,
) -> Result<Option<Path>, AllocError>
    ensures { IfOk result (λ found. MatchOption found
        (IsFreeIfNew old.now new.now path.now)
        (λ path. (map.contains_key new.now path ≡ true) × CannotHold new.now path)) }
{
    if old.file(path).is_some() || new.file(path).is_none() {
        return Ok(None);
    }
    unheld_at(alloc, path, new)
}

/// Returns the file at a path if git can't store it, or another one that it can't store because of this one.
fn unheld_at(alloc: Global, path: &Path, tree: &Tree) -> Result<Option<Path>, AllocError>
    requires { map.contains_key tree.now path.now ≡ true }
    ensures { IfOk result (λ found. MatchOption found
        (IsFree tree.now path.now)
        (λ path. (map.contains_key tree.now path ≡ true) × CannotHold tree.now path)) }
{
    if has_git_part(path) || has_file_inside(alloc, path, tree)? {
        return Ok(Some(path.try_clone()?));
    }
    file_around(path, tree)
}

/// True if a component of a path is `.git`, in capital or small letters.
fn has_git_part(path: &Path) -> bool
    ensures { result ≡ has_git_part path.now }
{
    path.bytes()
        .split(|byte| *byte == b'/')
        .any(|part| is_git_part(part))
}

fn is_git_part(part: &[u8]) -> bool
    ensures { result ≡ is_git_part part.now }
{
    part.eq_ignore_ascii_case(b".git")
}

/// True if a file is in the folder of a path.
fn has_file_inside(alloc: Global, path: &Path, tree: &Tree) -> Result<bool, AllocError>
    ensures { IfOk result (λ found. IsTrue found ↔ HasInside tree.now path.now) }
{
    let mut folder = Vec::from_slice(alloc, path.bytes())?;
    folder.push(b'/')?;
    Ok(begins_some(tree, &folder))
}

/// True if the path of some file of the tree begins with these bytes.
fn begins_some(tree: &Tree, bytes: &[u8]) -> bool
    ensures { IsTrue result ↔ IsStartOfPath tree.now bytes.now }
{
    match tree.at(place_of(tree, bytes)) {
        Some(file) => file.0.bytes().starts_with(bytes),
        None => false,
    }
}

/// Returns a file that is a folder of a path.
fn file_around(path: &Path, tree: &Tree) -> Result<Option<Path>, AllocError>
    ensures { IfOk result (λ found. MatchOption found
        (IsNoneAround tree.now path.now)
        (λ file. IsAround tree.now path.now file)) }
{
    let bytes = path.bytes();
    for at in 0..bytes.len() {
        if let Some(file) = folder_to(bytes, at, tree) {
            return Ok(Some(file.try_clone()?));
        }
    }
    Ok(None)
}

/// Returns the file, if there is one, whose path is the first `at` bytes of a path that continues with `/`.
fn folder_to<'a>(path: &[u8], at: usize, tree: &'a Tree) -> Option<&'a Path>
    requires { at < length path.now }
    ensures { MatchOption result
        ((file : List ℕ) → length file ≡ at → map.contains_key tree.now file ≡ true → is_inside file path.now ≡ false)
        (λ file. IsAround tree.now path.now file.now) }
{
    if path[at] == b'/' {
        file_of(tree, &path[..at])
    } else {
        None
    }
}

/// Returns the path of the file at these bytes, if there is one.
fn file_of<'a>(tree: &'a Tree, bytes: &[u8]) -> Option<&'a Path>
    ensures { MatchOption result
        (map.contains_key tree.now bytes.now ≡ false)
        (λ file. (file.now ≡ bytes.now) × (map.contains_key tree.now bytes.now ≡ true)) }
{
    let Some(file) = tree.at(place_of(tree, bytes)) else {
        return None;
    };
    if file.0.bytes() == bytes {
        Some(file.0)
    } else {
        None
    }
}

/// Returns the index of the first file whose path is not less than these bytes.
fn place_of(tree: &Tree, bytes: &[u8]) -> usize
    ensures { IsPlaceOf tree.now bytes.now result }
{
    let (mut low, mut high) = (0, tree.len());
    while low < high {
        let middle = low + (high - low) / 2;
        if stands_before(tree, middle, bytes) {
            low = middle + 1;
        } else {
            high = middle;
        }
    }
    low
}

/// True if the path of the file at an index is less than these bytes.
fn stands_before(tree: &Tree, place: usize, bytes: &[u8]) -> bool
    ensures { (file : List ℕ × Lines) → slice_get (map.entries tree.now) place ≡ Some file →
        IsTrue result ↔ (slice_cmp nat_cmp file.0 bytes.now ≡ Less) }
{
    tree.at(place)
        .is_some_and(|file| file.0.bytes().cmp(&bytes).is_lt())
}
