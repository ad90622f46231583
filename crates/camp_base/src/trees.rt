//! The tree: the files of a branch.
ghost use Rattle.std.specs.Prelude.{◌≡◌, ◌==◌, ◌↔◌, IfOk, IsTrue, MatchOption, None, Some, slice_get};
ghost use Rattle.std.specs.FinMap as map;
ghost use Rattle.std.specs.Map.Iter.{ShowsInOrder, deref};
ghost use Rattle.camp_base.specs.Trees.{Adds, Removes, Splices};
ghost use Rattle.camp_base.specs.Answers.{Answers};
ghost use Rattle.camp_base.specs.Inside.Steps.{Steps, StandsAt};

use crate::{Apply, Line, Path};
use camp_share::{Iter, Share, Shared, SharedList, SharedMap};
use std::alloc::{AllocError, Global};
use std::marker::Model;

/// The files of a branch: each path with its lines, sorted by the bytes of the path. A tree shares its files
/// with the trees that it was made from.
#[derive(Drop)]
pub struct Tree {
    files: SharedMap<Path, Shared<SharedList<Line>>>,
}

impl Model for Tree {
    ghost use Rattle.std.specs.Ordering.{nat_cmp};
    ghost use Rattle.std.specs.Cmp.Lexicographic.{slice_cmp};
    ghost use Rattle.std.specs.FinMap as map;
    ghost use Rattle.std.specs.Coded.{coded_ℕ, coded_list};
    ghost use Rattle.camp_share.specs.Maps.{map_of};
    ghost use Rattle.camp_base.specs.Trees.{Files};

    ghost Value = { Files };

    ghost coded = { map.code (coded_list coded_ℕ) (coded_list (coded_list coded_ℕ)) };

    ghost view = { λ tree. map_of (slice_cmp nat_cmp) tree.files };
}

impl Tree {
    /// Makes a tree without files.
    pub fn empty(alloc: Global) -> Tree
        ensures exact { result ≡ map.empty }
    {
        Tree {
            files: SharedMap::new(alloc),
        }
    }

    /// Returns the number of files.
    pub fn len(&self) -> usize
        ensures exact { result ≡ map.len self.now }
    {
        self.files.len()
    }

    /// True if the tree has no files.
    pub fn is_empty(&self) -> bool
        ensures exact { result ≡ (map.len self.now == 0) }
    {
        self.len() == 0
    }

    /// Returns the lines of the file at a path, or `None` if there is no file.
    pub fn file(&self, path: &Path) -> Option<&SharedList<Line>>
        ensures exact { MatchOption result
            (map.get self.now path.now ≡ None)
            (λ lines. map.get self.now path.now ≡ Some lines.now) }
    {
        let lines: &SharedList<Line> = self.files.get(path)?;
        Some(lines)
    }

    /// Returns the file at `index` in the order of the paths, with its path; `None` past the end. Each call searches
    /// the tree from its start; `iter` visits all files in one pass.
    pub fn at(&self, index: usize) -> Option<(&Path, &SharedList<Line>)>
        ensures exact { MatchOption result
            (slice_get (map.entries self.now) index ≡ None)
            (λ file. slice_get (map.entries self.now) index ≡ Some (file.0.now, file.1.now)) }
    {
        let file = self.files.at(index)?;
        let lines: &SharedList<Line> = &file.1;
        Some((&file.0, lines))
    }

    /// Iterates over the files in the order of their paths, each with its lines.
    pub fn iter(&self) -> Iter<'_, (Path, Shared<SharedList<Line>>)>
        ensures rest { result ≡ map.entries self.now }
        ensures runs { ShowsInOrder (deref {X = Path × Shared (SharedList Line)}) }
    {
        self.files.iter()
    }

    /// Adds an empty file. The path must not have a file.
    pub fn add_file(&mut self, path: &Path) -> Result<(), Apply>
        ensures exact { Answers (Adds path.now) self.old result self.new }
    {
        if self.files.contains_key(path) {
            return Err(Apply::DoesNotApply);
        }
        let lines = SharedList::new(self.files.allocator());
        self.write(path, lines)
    }

    /// Removes an empty file.
    pub fn remove_file(&mut self, path: &Path) -> Result<(), Apply>
        ensures exact { Answers (Removes path.now) self.old result self.new }
    {
        match self.file(path) {
            Some(lines) if lines.is_empty() => self.erase(path),
            _ => Err(Apply::DoesNotApply),
        }
    }

    /// Replaces the lines `old` of the file at a path by `new`, from line `line` on (counted from 1). The
    /// file must have `old` there.
    pub fn splice(
        &mut self,
        path: &Path,
        line: u32,
        old: &[Line],
        new: &[Line],
    ) -> Result<(), Apply>
        ensures exact { Answers (Splices path.now line old.now new.now) self.old result self.new }
    {
        let Some(lines) = self.file(path) else {
            return Err(Apply::DoesNotApply);
        };
        if !stands_at(lines, line, old) {
            return Err(Apply::DoesNotApply);
        }
        let start = line as usize - 1;
        match lines.spliced(start, start + old.len(), new) {
            Ok(lines) => self.write(path, lines),
            Err(_) => Err(Apply::Memory),
        }
    }

    /// True if the two trees have the same files with the same lines; does not allocate.
    pub fn is_same(&self, other: &Tree) -> bool
        ensures exact { IsTrue result ↔ (self.now ≡ other.now) }
    {
        if self.files.len() != other.files.len() {
            return false;
        }
        self.files == other.files
    }

    /// Copies the tree, which shares all its files with the copy.
    pub fn try_clone(&self) -> Result<Tree, AllocError>
        ensures exact { IfOk result (λ copy. copy ≡ self.now) }
    {
        let files = self.files.share()?;
        Ok(Tree { files })
    }

    // Sets the lines of the file at a path, which may be new.
    fn write(&mut self, path: &Path, lines: SharedList<Line>) -> Result<(), Apply>
        ensures { Steps (map.insert self.old path.now lines) self.old result self.new }
    {
        let lines = Shared::new(self.files.allocator(), lines)?;
        self.files = self.files.inserted(path.try_clone()?, lines)?;
        Ok(())
    }

    // Removes the file at a path.
    fn erase(&mut self, path: &Path) -> Result<(), Apply>
        ensures { Steps (map.remove self.old path.now) self.old result self.new }
    {
        self.files = self.files.without(path)?;
        Ok(())
    }
}

impl Share for Tree {
    fn share(&self) -> Result<Tree, AllocError> {
        self.try_clone()
    }
}

// True if `old` are the lines from line `line` on (counted from 1).
fn stands_at(lines: &SharedList<Line>, line: u32, old: &[Line]) -> bool
    ensures { IsTrue result ↔ StandsAt line old.now lines.now }
{
    if line == 0 {
        return false;
    }
    let from = line as usize - 1;
    if from > lines.len() {
        return false;
    }
    old.is_empty() || lines.has_at(from, old)
}
