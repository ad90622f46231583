//! The tree of a commit, and the changes that lead to it.

ghost use Rattle.std.specs.Prelude.{◌≡◌, ◌⊎◌, ◌∷◌, [], IfOk};
ghost use Rattle.camp_base.specs.Trees.{Files};
ghost use Rattle.camp_import.specs.TreeChanges.{HasLongFile, LeadThrough};
ghost use Rattle.camp_prim.specs.declared.primitives.Primitive.TheVariants as primitive;
ghost use Rattle.camp_importer.specs.Parts.{HasFileAt, HasLongTree, HasNoMark, IsMarkTaken, IsThere, LeadsAtLeastOnce, LeadsFrom, OrNoChanges};

use crate::Reason;
use camp_base::{BaseFault, Name, Path, Tree};
use camp_coding::{Attribute, encode_attribute_path};
use camp_import::{ChangeFault, changes_between, differing_paths};
use camp_prim::Primitive;
use camp_repo::{Book, State};
use std::alloc::{AllocError, Global};

/// Returns changes that lead from the tree of a branch to another one; there is at least one.
pub(crate) fn changes_to(
    alloc: Global,
    book: &Book<State>,
    branch: &Name,
    name: &Name,
    tree: &Tree,
) -> Result<Vec<Primitive>, Reason>
    requires there { IsThere book.now branch.now }
    ensures { OrNoChanges (LeadsFrom book.now branch.now tree.now) (HasLongTree book.now branch.now tree.now) (HasNoMark book.now name.now branch.now tree.now) result }
{
    match book.state().branch(branch) {
        Some(found) => lead(alloc, found.tree(), name, tree),
        None => unreachable!(),
    }
}

fn lead(alloc: Global, old: &Tree, name: &Name, tree: &Tree) -> Result<Vec<Primitive>, Reason>
    ensures { OrNoChanges (LeadsAtLeastOnce old.now tree.now) (HasLongFile old.now ⊎ HasLongFile tree.now) ((old.now ≡ tree.now) × IsMarkTaken name.now tree.now) result }
{
    let paths = differing_paths(alloc, old, tree)?;
    match changes_between(alloc, &paths, old, tree) {
        Ok(changes) => marked_if_empty(alloc, changes, name, tree),
        Err(ChangeFault::TooManyLines) => Err(Reason::TooManyLines),
        Err(ChangeFault::Memory) => Err(Reason::Memory),
    }
}

/// Returns the changes or, if there are none, those that mark an empty commit.
fn marked_if_empty(
    alloc: Global,
    changes: Vec<Primitive>,
    name: &Name,
    tree: &Tree,
) -> Result<Vec<Primitive>, Reason>
    ensures { (old : Files) → LeadThrough changes.items old tree.now → OrNoChanges (LeadsAtLeastOnce old tree.now) ⊥ ((old ≡ tree.now) × IsMarkTaken name.now tree.now) result }
{
    if changes.is_empty() {
        return mark(alloc, name, tree);
    }
    Ok(changes)
}

/// Returns the changes of a commit that changes nothing: they add and remove a file of its name.
fn mark(alloc: Global, name: &Name, tree: &Tree) -> Result<Vec<Primitive>, Reason>
    ensures { OrNoChanges (LeadsAtLeastOnce tree.now tree.now) ⊥ (IsMarkTaken name.now tree.now) result }
{
    match encode_attribute_path(alloc, Attribute::EmptyCommit, name.bytes()) {
        Ok(path) => mark_at(alloc, path, tree),
        Err(BaseFault::BadPath) => Err(Reason::NoMark),
        Err(_) => Err(Reason::Memory),
    }
}

fn mark_at(alloc: Global, path: Path, tree: &Tree) -> Result<Vec<Primitive>, Reason>
    ensures { OrNoChanges (LeadsAtLeastOnce tree.now tree.now) ⊥ (HasFileAt path tree.now) result }
{
    match tree.file(&path) {
        Some(_) => Err(Reason::NoMark),
        None => Ok(add_and_remove(alloc, path)?),
    }
}

fn add_and_remove(alloc: Global, path: Path) -> Result<Vec<Primitive>, AllocError>
    ensures { IfOk result (λ changes. changes.items ≡ primitive.Add path ∷ (primitive.Remove path ∷ [])) }
{
    let mut changes = Vec::new(alloc);
    changes.push(Primitive::Add(path.try_clone()?))?;
    changes.push(Primitive::Remove(path))?;
    Ok(changes)
}
