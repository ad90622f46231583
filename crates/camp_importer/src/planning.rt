//! The branches of the commits of a stream.

use crate::lines::{Indices, find_lines, indices_of, line_at};
use crate::{Moments, Place};
use camp_base::Name;
use camp_import::{Commit, Tip};
use camp_repo::{Book, State};
use std::alloc::{AllocError, Global};
use std::collections::BTreeMap;

/// Finds a place for each commit of a stream, in which each commit comes after its parents, so that each pull and each
/// copy takes a branch that ends with the intended commit. A line of commits has one branch: that of the first tip that
/// it leads to or, if there is none, one named by the id of its last commit. Before a branch continues, while the
/// commit at its end is still needed, it is copied under the id of that commit.
pub fn plan_places(
    alloc: Global,
    book: &Book<State>,
    moments: &Moments,
    commits: &[Commit],
    tips: &[Tip],
) -> Result<Vec<Place>, AllocError> {
    let indices = indices_of(alloc, commits)?;
    let lines = find_lines(alloc, commits, &indices, tips)?;
    let mut planner = Planner::new(alloc, book, commits)?;
    let mut places = Vec::with_capacity(alloc, commits.len())?;
    for index in 0..commits.len() {
        let commit = &commits[index];
        let line = line_at(&lines, index).unwrap_or(commit.id);
        let place = match moments.find(&commit.id) {
            Some(_) => no_place(alloc, commit.id),
            None => planner.next_place(alloc, index, commit, line)?,
        };
        places.push(place)?;
    }
    add_copies(&mut planner, &mut places, &indices, tips)?;
    Ok(places)
}

/// The place of a commit that is imported already, which needs no call.
fn no_place(alloc: Global, id: Name) -> Place {
    Place {
        branch: id,
        first: id,
        others: Vec::new(alloc),
        spares: Vec::new(alloc),
        copies: Vec::new(alloc),
    }
}

/// Adds the copies for tips that are not the end of a line, where there is no branch of their name.
fn add_copies(
    planner: &mut Planner,
    places: &mut [Place],
    indices: &Indices,
    tips: &[Tip],
) -> Result<(), AllocError> {
    for tip in tips {
        if let Some(index) = indices.get(&tip.id) {
            if let Some(place) = places.get_mut(*index) {
                if planner.is_free(&tip.branch) && place.first != tip.id {
                    planner.branches.insert(tip.branch, ())?;
                    place.copies.push(tip.branch)?;
                }
            }
        }
    }
    Ok(())
}

/// The branches that exist, and the uses of commits, while places are found.
#[derive(Drop)]
struct Planner {
    /// The branch that ends with a commit, by the id of the commit.
    ends: BTreeMap<Name, Name>,
    /// The names of all branches.
    branches: BTreeMap<Name, ()>,
    /// The index of the last commit that has this parent.
    uses: BTreeMap<Name, usize>,
    /// A branch without patches.
    empty: Name,
    /// The index of the last commit without parents.
    last_root: usize,
}

impl Planner {
    fn new(alloc: Global, book: &Book<State>, commits: &[Commit]) -> Result<Planner, AllocError> {
        let mut planner = Planner {
            ends: BTreeMap::new(alloc),
            branches: BTreeMap::new(alloc),
            uses: BTreeMap::new(alloc),
            empty: main_name(),
            last_root: 0,
        };
        planner.add_branches(book)?;
        planner.add_uses(commits)?;
        Ok(planner)
    }

    /// Adds the branches that are there.
    fn add_branches(&mut self, book: &Book<State>) -> Result<(), AllocError> {
        for name in book.state().names() {
            self.branches.insert(*name, ())?;
            if let Some(branch) = book.state().branch(name) {
                let catches = branch.catches();
                match catches.get(catches.len().saturating_sub(1)) {
                    Some(last) => {
                        self.ends.insert(*last.name(), *name)?;
                    }
                    None => self.empty = *name,
                }
            }
        }
        Ok(())
    }

    /// Stores for each parent the index of the last commit that has it, and the index of the last commit without
    /// parents.
    fn add_uses(&mut self, commits: &[Commit]) -> Result<(), AllocError> {
        for index in 0..commits.len() {
            let commit = &commits[index];
            if commit.parents.is_empty() {
                self.last_root = index;
            }
            for parent in &commit.parents {
                self.uses.insert(*parent, index)?;
            }
        }
        Ok(())
    }

    fn is_free(&self, name: &Name) -> bool {
        !self.branches.contains_key(name)
    }

    /// The branch that ends with a commit; if there is none, the id of the commit, which names no branch.
    fn end_of(&self, id: Name) -> Name {
        match self.ends.get(&id) {
            Some(branch) => *branch,
            None => id,
        }
    }

    fn next_place(
        &mut self,
        alloc: Global,
        index: usize,
        commit: &Commit,
        line: Name,
    ) -> Result<Place, AllocError> {
        let first = self.first_branch(commit);
        let branch = self.branch_for(commit, first, line);
        let mut spares = Vec::new(alloc);
        if branch == first {
            self.add_spare(&mut spares, index, commit)?;
        }
        let mut others = Vec::new(alloc);
        for parent in commit.parents.iter().skip(1) {
            others.push(self.end_of(*parent))?;
        }
        self.branches.insert(branch, ())?;
        self.ends.insert(commit.id, branch)?;
        Ok(Place {
            branch,
            first,
            others,
            spares,
            copies: Vec::new(alloc),
        })
    }

    /// The branch of the first parent; for a commit without parents, an empty one.
    fn first_branch(&self, commit: &Commit) -> Name {
        match commit.parents.first() {
            Some(parent) => self.end_of(*parent),
            None => self.empty,
        }
    }

    /// The branch of a commit: that of its line, if this is the branch of its first parent or a new one; else the
    /// branch of its first parent.
    fn branch_for(&self, commit: &Commit, first: Name, line: Name) -> Name {
        if first == line || self.is_free(&line) {
            return line;
        }
        if commit.parents.is_empty() {
            return commit.id;
        }
        first
    }

    /// Adds a copy of a branch before it continues, if the commit at its end is needed later.
    fn add_spare(
        &mut self,
        spares: &mut Vec<Name>,
        index: usize,
        commit: &Commit,
    ) -> Result<(), AllocError> {
        let Some(parent) = commit.parents.first() else {
            return self.add_empty(spares, index);
        };
        let last_use = self.uses.get(parent).copied().unwrap_or(0);
        if last_use > index {
            self.branches.insert(*parent, ())?;
            self.ends.insert(*parent, *parent)?;
            spares.push(*parent)?;
        }
        Ok(())
    }

    /// Adds an empty branch, if another commit without parents comes later.
    fn add_empty(&mut self, spares: &mut Vec<Name>, index: usize) -> Result<(), AllocError> {
        if index < self.last_root {
            let empty = empty_name();
            self.empty = empty;
            self.branches.insert(empty, ())?;
            spares.push(empty)?;
        }
        Ok(())
    }
}

/// The name of the branch that a new repository has.
fn main_name() -> Name {
    match Name::new(b"main") {
        Ok(name) => name,
        Err(_) => unreachable!(),
    }
}

/// The name of a branch without patches.
fn empty_name() -> Name {
    match Name::new(b"empty") {
        Ok(name) => name,
        Err(_) => unreachable!(),
    }
}
