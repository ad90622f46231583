//! The tree of a commit: that of its first parent, with the changes of its entries.

ghost use Rattle.std.specs.Prelude.{◌≡◌, IfOk, Ok, None, is_some};
ghost use Rattle.std.specs.FinMap as map;
ghost use Rattle.camp_coding.specs.GitPaths.{AreBytes};
ghost use Rattle.camp_coding.specs.GitTrees.{EncodesTree, GitEntries, file_at};
ghost use Rattle.camp_import.specs.CommitTrees.{GivesTree, folder_prefix};
ghost use Rattle.camp_import.specs.Inside.Changing.{RemovesEntry, RemovesFolder, RemovesIfBelow, StepsOr, StepsTo};
ghost use Rattle.camp_import.specs.declared.entry_changes.EntryChange.TheVariants as change;

use crate::EntryChange;
use crate::differences::with_others;
use crate::touched::with_places;
use camp_base::{BaseFault, Path, Tree};
use camp_coding::{EncodeFault, Mode, encode_path, put_file, remove_file, unescape_path};
use camp_share::{Share, SharedMap};
use std::alloc::{AllocError, Global};

/// A tree, and the paths of camp at which it may differ from the tree that it was made from.
#[derive(Drop)]
pub struct ChangedTree {
    pub tree: Tree,
    pub paths: SharedMap<Path, ()>,
}

/// Why camp can't store the tree after some changes of entries.
#[derive(Clone, Copy, PartialEq, Eq, Debug)]
pub struct EntryFault {
    /// The index of the first change after which it can't.
    pub index: usize,
    /// What is wrong with the entry that the change sets.
    pub why: EncodeFault,
}

/// Returns the tree after changes of entries, each applied to the tree that those before it give.
pub fn tree_after(
    alloc: Global,
    old: &Tree,
    changes: &[EntryChange],
) -> Result<ChangedTree, EntryFault>
    ensures exact { GivesTree old.now changes.now result }
{
    let mut changed = match unchanged(alloc, old) {
        Ok(changed) => changed,
        Err(_) => return Err(fault_at(0, EncodeFault::Memory)),
    };
    'changes: for index in 0..changes.len() {
        match change_tree(alloc, &changed, &changes[index]) {
            Ok(next) => changed = next,
            Err(why) => return Err(fault_at(index, why)),
        }
    }
    Ok(changed)
}

fn fault_at(index: usize, why: EncodeFault) -> EntryFault
    ensures { result ≡ record { index = index; why = why } }
{
    EntryFault { index, why }
}

fn unchanged(alloc: Global, tree: &Tree) -> Result<ChangedTree, AllocError>
    ensures { IfOk result (λ changed. changed.tree ≡ tree.now) }
{
    Ok(ChangedTree {
        tree: tree.try_clone()?,
        paths: SharedMap::new(alloc),
    })
}

fn change_tree(
    alloc: Global,
    changed: &ChangedTree,
    change: &EntryChange,
) -> Result<ChangedTree, EncodeFault>
    ensures { StepsOr change.now changed.now result }
{
    match change {
        EntryChange::Set {
            mode,
            content,
            path,
        } => set_entry(alloc, changed, *mode, content, path),
        EntryChange::Delete(path) => Ok(delete(alloc, changed, path)?),
        EntryChange::DeleteAll => Ok(delete_all(alloc, changed)?),
    }
}

fn set_entry(
    alloc: Global,
    changed: &ChangedTree,
    mode: Mode,
    content: &Vec<u8>,
    path: &Vec<u8>,
) -> Result<ChangedTree, EncodeFault>
    ensures { StepsOr (change.Set mode content.now path.now) changed.now result }
{
    let tree = put_file(alloc, &changed.tree, path, mode, content)?;
    let paths = with_places(alloc, &changed.paths, path)?;
    Ok(ChangedTree { tree, paths })
}

fn delete(alloc: Global, changed: &ChangedTree, path: &Vec<u8>) -> Result<ChangedTree, AllocError>
    ensures { IfOk result (λ new. StepsOr (change.Delete path.now) changed.now (Ok new)) }
{
    are_bytes(path);
    if has_entry(alloc, &changed.tree, path)? {
        let without = remove_entry(alloc, changed, path)?;
        return Ok(without);
    }
    let emptied = remove_below(alloc, changed, path)?;
    Ok(emptied)
}

fn remove_entry(
    alloc: Global,
    changed: &ChangedTree,
    path: &[u8],
) -> Result<ChangedTree, AllocError>
    ensures { IfOk result (λ new. RemovesEntry path.now changed.now new) }
{
    let tree = remove_file(alloc, &changed.tree, path)?;
    let paths = with_places(alloc, &changed.paths, path)?;
    Ok(ChangedTree { tree, paths })
}

/// Removes the entries in a folder.
fn remove_below(alloc: Global, old: &ChangedTree, folder: &[u8]) -> Result<ChangedTree, AllocError>
    ensures { IfOk result (λ new. (git : GitEntries) → EncodesTree git old.now.tree → RemovesFolder folder.now git old.now new) }
{
    let prefix = prefix_of(alloc, folder)?;
    let mut changed = copy_of(old)?;
    'files: for file in old.tree.iter() {
        changed = remove_if_below(alloc, &changed, &file.0, &prefix)?;
    }
    Ok(changed)
}

fn prefix_of(alloc: Global, folder: &[u8]) -> Result<Vec<u8>, AllocError>
    ensures { IfOk result (λ prefix. prefix.items ≡ folder_prefix folder.now) }
{
    let mut prefix = Vec::from_slice(alloc, folder)?;
    prefix.push(b'/')?;
    Ok(prefix)
}

/// Removes the git entry that a path of camp stores, if the entry's own path begins with `prefix`.
fn remove_if_below(
    alloc: Global,
    changed: &ChangedTree,
    camp_path: &Path,
    prefix: &[u8],
) -> Result<ChangedTree, AllocError>
    ensures { IfOk result (λ new. (git : GitEntries) → EncodesTree git changed.now.tree → RemovesIfBelow camp_path.now prefix.now git changed.now new) }
{
    let found = unescape_path(alloc, camp_path.bytes())?;
    let path = match found {
        Some(path) => path,
        None => {
            let same = copy_of(changed)?;
            return Ok(same);
        }
    };
    are_bytes(&path);
    if !path.starts_with(prefix) {
        let same = copy_of(changed)?;
        return Ok(same);
    }
    let without = remove_entry(alloc, changed, &path)?;
    Ok(without)
}

fn copy_of(changed: &ChangedTree) -> Result<ChangedTree, AllocError>
    ensures { IfOk result (λ copy. copy ≡ changed.now) }
{
    Ok(ChangedTree {
        tree: changed.tree.try_clone()?,
        paths: changed.paths.share()?,
    })
}

fn delete_all(alloc: Global, changed: &ChangedTree) -> Result<ChangedTree, AllocError>
    ensures { IfOk result (λ new. (git : GitEntries) → EncodesTree git changed.now.tree → StepsTo map.empty changed.now new) }
{
    let tree = Tree::empty(alloc);
    let paths = with_others(alloc, changed.paths.share()?, &changed.tree, &tree)?;
    Ok(ChangedTree { tree, paths })
}

/// Shows the prover that the elements of a slice of `u8` are bytes.
fn are_bytes(_bytes: &[u8])
    ensures { AreBytes _bytes.now }
{}

/// True if there is a file at the path in camp of a path of git.
fn has_entry(alloc: Global, tree: &Tree, path: &[u8]) -> Result<bool, AllocError>
    ensures { IfOk result (λ has. has ≡ is_some (file_at tree.now None path.now)) }
{
    match encode_path(alloc, path) {
        Ok(camp_path) => Ok(tree.file(&camp_path).is_some()),
        Err(BaseFault::BadPath) => Ok(false),
        Err(_) => Err(AllocError),
    }
}
