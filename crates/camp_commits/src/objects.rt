//! What the commands of a stream have defined.

ghost use Rattle.std.specs.Prelude.{◌≡◌, IfOk};
ghost use Rattle.std.specs.Option.{option_copied};
ghost use Rattle.std.specs.FinMap as map;
ghost use Rattle.std.specs.Map.Iter.{ShowsInOrder, deref};
ghost use Rattle.camp_commits.specs.Objects.{Objects, with_marked, with_reference, with_tree};

use camp_base::{Name, Path, Tree};
use camp_share::{Iter, Share, SharedMap};
use std::alloc::{AllocError, Global};
use std::marker::Model;

/// The content of a blob: a slice of the stream.
#[derive(Drop)]
pub struct BlobContent<'a> {
    bytes: &'a [u8],
}

impl<'a> Model for BlobContent<'a> {
    ghost use Rattle.std.specs.Prelude.{List, ℕ};

    ghost Value = { List ℕ };

    ghost view = { λ content. content.bytes.now };
}

impl<'a> BlobContent<'a> {
    /// Takes a slice of the stream as the content of a blob.
    pub fn new(bytes: &'a [u8]) -> BlobContent<'a>
        ensures exact { result ≡ bytes.now }
    {
        BlobContent { bytes }
    }

    /// Returns the bytes of the content.
    pub fn bytes(&self) -> &'a [u8]
        ensures exact { result.now ≡ self.now }
    {
        self.bytes
    }
}

impl<'a> Share for BlobContent<'a> {
    fn share(&self) -> Result<BlobContent<'a>, AllocError> {
        Ok(BlobContent { bytes: self.bytes })
    }
}

/// What a mark stands for.
#[derive(Drop)]
pub enum MarkedObject<'a> {
    /// A blob, by its content.
    Blob(BlobContent<'a>),
    /// A commit, by its id.
    Commit(Name),
}

impl<'a> Share for MarkedObject<'a> {
    fn share(&self) -> Result<MarkedObject<'a>, AllocError> {
        match self {
            MarkedObject::Blob(content) => Ok(MarkedObject::Blob(content.share()?)),
            MarkedObject::Commit(id) => Ok(MarkedObject::Commit(*id)),
        }
    }
}

/// Where a reference stands.
#[derive(Clone, Copy, Debug)]
pub enum ReferencePosition {
    /// Its next commit has no parent.
    Unborn,
    /// At a commit, by its id.
    At(Name),
}

impl Share for ReferencePosition {
    fn share(&self) -> Result<ReferencePosition, AllocError> {
        Ok(*self)
    }
}

/// What the commands of a stream have defined: the object of each mark, the tree of each commit, and the position of
/// each reference. A reference is stored under its path in camp, a mark under its digits.
#[derive(Drop)]
pub struct StreamObjects<'a> {
    marks: SharedMap<Name, MarkedObject<'a>>,
    trees: SharedMap<Name, Tree>,
    references: SharedMap<Path, ReferencePosition>,
}

impl<'a> Model for StreamObjects<'a> {
    ghost use Rattle.std.specs.Cmp.Lexicographic.{slice_cmp};
    ghost use Rattle.std.specs.Ordering.{nat_cmp};
    ghost use Rattle.camp_share.specs.Maps.{map_of};
    ghost use Rattle.camp_commits.specs.Objects.{Objects, objects_code};

    ghost Value = { Objects };

    ghost coded = { objects_code };

    ghost view = { λ objects. record {
      marks = map_of (slice_cmp nat_cmp) objects.marks;
      trees = map_of (slice_cmp nat_cmp) objects.trees;
      references = map_of (slice_cmp nat_cmp) objects.references;
    } };
}

impl<'a> StreamObjects<'a> {
    /// Nothing is defined.
    pub fn new(alloc: Global) -> StreamObjects<'a>
        ensures exact { result ≡ record { marks = map.empty; trees = map.empty; references = map.empty } }
    {
        StreamObjects {
            marks: SharedMap::new(alloc),
            trees: SharedMap::new(alloc),
            references: SharedMap::new(alloc),
        }
    }

    /// Defines a commit that the stream may name by its id, such as one that a repository has.
    pub fn with_tree(&self, id: Name, tree: &Tree) -> Result<StreamObjects<'a>, AllocError>
        ensures exact { IfOk result (λ new. new ≡ with_tree self.now id tree.now) }
    {
        Ok(StreamObjects {
            marks: self.marks.share()?,
            trees: self.trees.inserted(id, tree.try_clone()?)?,
            references: self.references.share()?,
        })
    }

    /// Sets what a mark stands for.
    pub(crate) fn with_marked(
        &self,
        mark: Name,
        object: MarkedObject<'a>,
    ) -> Result<StreamObjects<'a>, AllocError>
        ensures { IfOk result (λ new. new ≡ with_marked self.now mark object.entry) }
    {
        Ok(StreamObjects {
            marks: self.marks.inserted(mark, object)?,
            trees: self.trees.share()?,
            references: self.references.share()?,
        })
    }

    /// Sets the position of a reference.
    pub(crate) fn with_reference(
        &self,
        key: Path,
        position: ReferencePosition,
    ) -> Result<StreamObjects<'a>, AllocError>
        ensures { IfOk result (λ new. new ≡ with_reference self.now key position) }
    {
        Ok(StreamObjects {
            marks: self.marks.share()?,
            trees: self.trees.share()?,
            references: self.references.inserted(key, position)?,
        })
    }

    pub(crate) fn copy(&self) -> Result<StreamObjects<'a>, AllocError>
        ensures { IfOk result (λ new. new ≡ self.now) }
    {
        Ok(StreamObjects {
            marks: self.marks.share()?,
            trees: self.trees.share()?,
            references: self.references.share()?,
        })
    }

    /// Returns what a mark stands for.
    pub(crate) fn marked(&self, mark: &Name) -> Option<&MarkedObject<'a>>
        ensures { option_copied result ≡ map.get self.now.marks mark.now }
    {
        self.marks.get(mark)
    }

    /// Returns where a reference stands.
    pub(crate) fn position(&self, key: &Path) -> Option<&ReferencePosition>
        ensures { option_copied result ≡ map.get self.now.references key.now }
    {
        self.references.get(key)
    }

    /// Returns the tree of a commit; `None` if there is no such commit.
    pub fn tree(&self, id: Name) -> Option<&Tree>
        ensures exact { option_copied result ≡ map.get self.now.trees id }
    {
        self.trees.get(&id)
    }

    /// Iterates over the references, each by its path in camp, with its position.
    pub fn references(&self) -> Iter<'_, (Path, ReferencePosition)>
        ensures rest { result ≡ map.entries self.now.references }
        ensures runs { ShowsInOrder (deref {X = Path × ReferencePosition}) }
    {
        self.references.iter()
    }
}
