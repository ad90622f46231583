//! A file with the unresolved sides of its conflicts.
ghost use Rattle.std.specs.Prelude.{◌≡◌, ◌++◌, [], ℕ, List, IfOk, OnOk};
ghost use Rattle.std.specs.FinMap.{get};
ghost use Rattle.camp_branch.specs.Branches.{LeadsTo};
ghost use Rattle.camp_ctx.specs.Contexts.{AreValid, ContextedPatches};
ghost use Rattle.camp_questions.specs.Answers.{ReportsAnswerOrMemory};
ghost use Rattle.camp_questions.specs.Marks.{AreMarked, AreVersions, MakesVersion, MarksAt, names_in_pairs, with_made};
ghost use Rattle.camp_questions.specs.OpenConflicts.{AreUnresolvedAmong};
ghost use Rattle.camp_questions.specs.Sides.{AreSeen};

use crate::Unanswered;
use crate::contents::file_at;
use crate::dependencies::in_order;
use crate::finding::branch_of;
use crate::mark_hunks::with_marks;
use crate::open_conflicts::unresolved_among;
use crate::reporting::answer_or_memory;
use crate::sides::{labels_seen, side_among};
use camp_base::{Apply, Line, Name, Path, Tree};
use camp_branch::set_of;
use camp_ctx::CtxSet;
use camp_repo::{Branch, Names, State};
use camp_seq::apply_all;
use camp_share::SharedList;
use std::alloc::{AllocError, Global};
use std::marker::Model;

/// The answer to a question for a file with marks.
#[derive(Drop)]
pub enum Marked {
    File(MarkedFile),
    /// The branch has no file of this path.
    NoFile,
}

/// A file as hunks, and the lines after the last hunk.
#[derive(Drop)]
pub struct MarkedFile {
    pub(crate) places: Vec<MarkedHunk>,
    pub(crate) rest: SharedList<Line>,
}

impl Model for MarkedFile {
    ghost use Rattle.camp_questions.specs.MarkHunks.{File};

    ghost Value = { File };

    ghost view = { λ file. record { places = file.places.items; rest = file.rest } };
}

impl MarkedFile {
    /// Returns the hunks, from the top.
    pub fn places(&self) -> &[MarkedHunk]
        ensures value { result.now ≡ self.now.places }
    {
        &self.places
    }

    /// Returns the lines after the last hunk.
    pub fn rest(&self) -> &SharedList<Line>
        ensures value { result.now ≡ self.now.rest }
    {
        &self.rest
    }
}

/// A hunk: the context lines between the hunk above and this one, its lines in the file, and the lines of each side in
/// their place.
#[derive(Drop)]
pub struct MarkedHunk {
    pub(crate) before: SharedList<Line>,
    pub(crate) lines: SharedList<Line>,
    pub(crate) sides: Vec<Version>,
}

impl Model for MarkedHunk {
    ghost use Rattle.camp_questions.specs.MarkHunks.{MarkedHunk};

    ghost Value = { MarkedHunk };

    ghost view = { λ place. record { before = place.before; lines = place.lines; sides = place.sides.items } };
}

impl MarkedHunk {
    /// Returns the context lines after the hunk above.
    pub fn before(&self) -> &SharedList<Line>
        ensures value { result.now ≡ self.now.before }
    {
        &self.before
    }

    /// Returns its lines; empty if the sides only insert lines.
    pub fn lines(&self) -> &SharedList<Line>
        ensures value { result.now ≡ self.now.lines }
    {
        &self.lines
    }

    /// Returns the sides: the lines that each has in place of the hunk's lines, in the order of the patches in the
    /// branch.
    pub fn sides(&self) -> &[Version]
        ensures value { result.now ≡ self.now.sides }
    {
        &self.sides
    }
}

/// The lines of one side, under the name of its patch: a whole file, or what stands in place of a hunk's lines.
#[derive(Drop)]
pub struct Version {
    pub name: Name,
    pub lines: SharedList<Line>,
}

/// Returns a file of a branch with its unresolved sides.
pub fn marks(state: &State, branch: &Name, path: &Path) -> Result<Marked, Unanswered>
    ensures exact { ReportsAnswerOrMemory (AreMarked state.now branch.now path.now) result }
{
    let branch = branch_of(state, branch)?;
    answer_or_memory(marks_at(branch, branch.tree(), path))
}

/// Makes the answer for a path, given a branch and its tree.
fn marks_at(branch: &Branch, tree: &Tree, path: &Path) -> Result<Marked, AllocError>
    requires { LeadsTo branch.now tree.now }
    ensures { IfOk result (MarksAt branch.now tree.now path.now (get tree.now path.now)) }
{
    let Some(lines) = tree.file(path) else {
        return Ok(Marked::NoFile);
    };
    let versions = versions_at(branch, tree, path, lines)?;
    let file = with_marks(lines, &versions)?;
    Ok(Marked::File(file))
}

/// Returns the versions of a file that the branch's patches in unresolved conflicts would make, in their order.
fn versions_at(
    branch: &Branch,
    tree: &Tree,
    path: &Path,
    lines: &SharedList<Line>,
) -> Result<Vec<Version>, AllocError>
    requires { LeadsTo branch.now tree.now }
    ensures { IfOk result (λ versions. (seen : ContextedPatches) × (pairs : List (List ℕ × List ℕ)) × AreSeen branch.now seen
        × AreUnresolvedAmong branch.now seen pairs
        × AreVersions seen tree.now path.now lines.now (names_in_pairs branch.now pairs) versions.items) }
{
    let seen = labels_seen(branch)?;
    let names = names_in_unresolved(branch, &seen)?;
    versions_of(&seen, tree, path, lines, names.as_slice())
}

/// Returns the names of the patches of a branch that are in an unresolved conflict, given its labels in
/// conflict.
fn names_in_unresolved(branch: &Branch, seen: &CtxSet) -> Result<Names, AllocError>
    ensures { IfOk result (λ names. (pairs : List (List ℕ × List ℕ)) × AreUnresolvedAmong branch.now seen.now pairs
        × (names ≡ names_in_pairs branch.now pairs)) }
{
    let pairs = unresolved_among(branch.catches(), seen)?;
    names_in_pairs(branch, &pairs)
}

/// Returns the names of the patches of a branch that are in one of some pairs.
fn names_in_pairs(branch: &Branch, pairs: &[(Name, Name)]) -> Result<Names, AllocError>
    ensures { IfOk result (λ names. names ≡ names_in_pairs branch.now pairs.now) }
{
    let alloc = branch.catches().allocator();
    let mut names = Vec::new(alloc);
    for pair in pairs {
        names.extend_from_slice(&[pair.0, pair.1])?;
    }
    let set = set_of(alloc, &names)?;
    in_order(branch, &set)
}

/// Returns the versions that patches would make of a file, in their order.
fn versions_of(
    seen: &CtxSet,
    tree: &Tree,
    path: &Path,
    lines: &SharedList<Line>,
    names: &[Name],
) -> Result<Vec<Version>, AllocError>
    requires { AreValid tree.now seen.now }
    ensures { IfOk result (λ versions. AreVersions seen.now tree.now path.now lines.now names.now versions.items) }
{
    let alloc = lines.allocator();
    let mut versions = Vec::new(alloc);
    for name in names {
        let made = made_by(alloc, seen, tree, path, name)?;
        push_made(&mut versions, lines, name, made)?;
    }
    Ok(versions)
}

/// Appends the version that a patch would make of a file, if it differs from the file.
fn push_made(
    versions: &mut Vec<Version>,
    lines: &SharedList<Line>,
    name: &Name,
    made: Option<SharedList<Line>>,
) -> Result<(), AllocError>
    ensures { OnOk result (versions.new.items ≡ versions.old.items ++ with_made lines.now name.now made []) }
{
    let Some(made) = made else {
        return Ok(());
    };
    if *lines == made {
        return Ok(());
    }
    versions.push(Version {
        name: *name,
        lines: made,
    })?;
    Ok(())
}

/// Returns the version of a file that a patch would make: the file after the changes of its side.
fn made_by(
    alloc: Global,
    seen: &CtxSet,
    tree: &Tree,
    path: &Path,
    name: &Name,
) -> Result<Option<SharedList<Line>>, AllocError>
    requires { AreValid tree.now seen.now }
    ensures { IfOk result (MakesVersion seen.now tree.now path.now name.now) }
{
    let side = side_among(alloc, seen, name)?;
    let mut next = tree.try_clone()?;
    match apply_all(&side, &mut next) {
        Ok(()) => {}
        Err(Apply::Memory) => return Err(AllocError),
        Err(Apply::DoesNotApply) => unreachable!(),
    }
    file_at(&next, path)
}
