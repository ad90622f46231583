//! The contents of a repository and its branches.
ghost use Rattle.std.specs.FinMap.{get};
ghost use Rattle.std.specs.Prelude.{◌≡◌, IfOk};
ghost use Rattle.camp_questions.specs.Answers.{ReportsAnswer};
ghost use Rattle.camp_questions.specs.Files.{IsFile, branch_names};

use crate::Unanswered;
use crate::finding::branch_of;
use crate::reporting::answer_or_memory;
use camp_base::{Line, Name, Path, Tree};
use camp_repo::{Names, State};
use camp_share::{Share, SharedList};
use std::alloc::{AllocError, Global};

/// Returns the names of the branches, in order of creation.
pub fn branches(alloc: Global, state: &State) -> Result<Names, AllocError>
    ensures exact { IfOk result (λ names. names ≡ branch_names state.now) }
{
    let names = Vec::from_slice(alloc, state.names())?;
    Ok(Names::new(names))
}

/// Returns the lines of the file of a path, shared with the tree of the branch; `None` if the branch has no
/// such file.
pub fn file(
    state: &State,
    branch: &Name,
    path: &Path,
) -> Result<Option<SharedList<Line>>, Unanswered>
    ensures exact { ReportsAnswer (IsFile state.now branch.now path.now) result }
{
    let branch = branch_of(state, branch)?;
    answer_or_memory(file_at(branch.tree(), path))
}

/// Returns the lines of a file of a tree, shared with the tree.
pub(crate) fn file_at(tree: &Tree, path: &Path) -> Result<Option<SharedList<Line>>, AllocError>
    ensures { IfOk result (λ lines. lines ≡ get tree.now path.now) }
{
    match tree.file(path) {
        Some(lines) => Ok(Some(lines.share()?)),
        None => Ok(None),
    }
}
