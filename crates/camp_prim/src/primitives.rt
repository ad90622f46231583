//! The primitive: one change to a tree.
ghost use Rattle.std.specs.Prelude.{◌≡◌, ◌↔◌, IfOk, IsTrue, MatchOption};
ghost use Rattle.camp_base.specs.Answers.{Answers};
ghost use Rattle.camp_prim.specs.Effect.{Applies, InRange, inverted};
ghost use Rattle.camp_prim.specs.Commuting.{path_of};
ghost use Rattle.camp_prim.specs.Hunks.{IsInRange, hunk_of};

use crate::{Hunk, SideLines};
use camp_base::{Apply, Line, Path, Tree};
use std::alloc::{AllocError, Global};

/// The smallest change to a tree.
#[derive(Debug, Drop)]
pub enum Primitive {
    /// Adds an empty file at a path that has none.
    Add(Path),
    /// Removes an empty file.
    Remove(Path),
    /// Replaces lines of a file.
    Hunk(Hunk),
}

impl Primitive {
    /// Makes the hunk that replaces old lines by new ones at a line of a file, counted from 1. `None` if the line is 0,
    /// if both sides are empty, or if the line and the counts of old and of new lines add up to more than 2^30. Does
    /// not allocate: the hunk takes over the vectors.
    pub fn hunk(path: Path, line: u32, old: Vec<Line>, new: Vec<Line>) -> Option<Primitive>
        ensures exact { MatchOption result (¬ (IsInRange (hunk_of path line old.items new.items)))
            (λ made. IsInRange (hunk_of path line old.items new.items) × (made ≡ Primitive.Hunk (hunk_of path line old.items new.items))) }
    {
        let hunk = Hunk::of_vectors(path, line, old, new)?;
        Some(Primitive::Hunk(hunk))
    }

    /// Makes the hunk as `hunk` does, of sides. It is reference counted, so that no copy of it allocates.
    pub fn of_sides(
        alloc: Global,
        path: Path,
        line: u32,
        old: SideLines,
        new: SideLines,
    ) -> Result<Option<Primitive>, AllocError>
        ensures exact { IfOk result (λ found. MatchOption found (¬ (IsInRange (hunk_of path line old new)))
            (λ made. IsInRange (hunk_of path line old new) × (made ≡ Primitive.Hunk (hunk_of path line old new)))) }
    {
        match Hunk::of_sides(alloc, path, line, old, new)? {
            Some(made) => Ok(Some(Primitive::Hunk(made))),
            None => Ok(None),
        }
    }

    /// Makes the change reference counted, so that no copy of it allocates. If memory runs out, the change is dropped.
    pub fn into_shared(self, alloc: Global) -> Result<Primitive, AllocError>
        ensures exact { IfOk result (λ shared. shared ≡ self) }
    {
        match self {
            Primitive::Hunk(hunk) => Ok(Primitive::Hunk(hunk.into_shared(alloc)?)),
            other => Ok(other),
        }
    }

    /// Returns the path of the file that the primitive changes.
    pub fn path(&self) -> &Path
        ensures value { result.now ≡ path_of self.now }
        ensures in_range { InRange self.now }
    {
        match self {
            Primitive::Add(path) => path,
            Primitive::Remove(path) => path,
            Primitive::Hunk(hunk) => hunk.path(),
        }
    }

    /// Returns the inverse: adding a file and removing it are inverse, and the sides of a hunk are exchanged.
    pub fn invert(self) -> Primitive
        ensures exact { result ≡ inverted self }
    {
        match self {
            Primitive::Add(path) => Primitive::Remove(path),
            Primitive::Remove(path) => Primitive::Add(path),
            Primitive::Hunk(hunk) => Primitive::Hunk(hunk.flip()),
        }
    }

    /// Copies the change. Allocates only for a hunk that is not yet reference counted.
    pub fn try_clone(&self) -> Result<Primitive, AllocError>
        ensures exact { IfOk result (λ copy. copy ≡ self.now) }
    {
        match self {
            Primitive::Add(path) => Ok(Primitive::Add(path.try_clone()?)),
            Primitive::Remove(path) => Ok(Primitive::Remove(path.try_clone()?)),
            Primitive::Hunk(hunk) => Ok(Primitive::Hunk(hunk.try_clone()?)),
        }
    }

    /// True if the two are the same change.
    pub fn is_same(&self, other: &Primitive) -> bool
        ensures exact { IsTrue result ↔ (self.now ≡ other.now) }
    {
        match (self, other) {
            (Primitive::Add(path), Primitive::Add(other)) => path == other,
            (Primitive::Remove(path), Primitive::Remove(other)) => path == other,
            (Primitive::Hunk(hunk), Primitive::Hunk(other)) => hunk.is_same(other),
            _ => false,
        }
    }

    /// Applies the primitive to a tree. After an error the tree is unchanged.
    pub fn apply(&self, tree: &mut Tree) -> Result<(), Apply>
        ensures exact { Answers (Applies self.now) tree.old result tree.new }
    {
        match self {
            Primitive::Add(path) => tree.add_file(path),
            Primitive::Remove(path) => tree.remove_file(path),
            Primitive::Hunk(hunk) => {
                tree.splice(hunk.path(), hunk.line(), hunk.old(), hunk.new())
            }
        }
    }
}
