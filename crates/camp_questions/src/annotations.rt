//! Annotation: which patch added each line of a file.
ghost use Rattle.std.specs.FinMap.{get};
ghost use Rattle.std.specs.Prelude.{◌≡◌, IfOk};
ghost use Rattle.camp_branch.specs.Branches.{LeadsTo};
ghost use Rattle.camp_questions.specs.Annotations.{AreAnnotated, annotated, names_of_lines};
ghost use Rattle.camp_questions.specs.Answers.{ReportsAnswer};

use crate::Unanswered;
use crate::finding::branch_of;
use crate::reporting::answer_or_memory;
use crate::walks::names_of_lines;
use camp_base::{Line, Name, Path, Tree};
use camp_catch::Catch;
use camp_repo::State;
use camp_share::{Share, Shared, SharedList};
use std::alloc::AllocError;

/// The answer for the lines of a path.
#[derive(Drop)]
pub enum Annotated {
    /// The lines of its file, each with the name of the patch that added it.
    File {
        lines: SharedList<Line>,
        names: SharedList<Name>,
    },
    /// The branch has no file of this path.
    NoFile,
}

/// Returns the lines of the file at a path, each with the name of the patch that added it. The lines are shared with
/// the tree of the branch.
pub fn annotate(state: &State, branch: &Name, path: &Path) -> Result<Annotated, Unanswered>
    ensures exact { ReportsAnswer (AreAnnotated state.now branch.now path.now) result }
{
    let branch = branch_of(state, branch)?;
    answer_or_memory(with_names(branch.catches(), branch.tree(), path))
}

/// Makes the answer for a path, given the catches of a branch and the tree that they lead to.
fn with_names(
    catches: &SharedList<Shared<Catch>>,
    tree: &Tree,
    path: &Path,
) -> Result<Annotated, AllocError>
    requires { LeadsTo catches.now tree.now }
    ensures { IfOk result (λ told. told ≡ annotated (get tree.now path.now) (names_of_lines path.now catches.now)) }
{
    let Some(lines) = tree.file(path) else {
        return Ok(Annotated::NoFile);
    };
    let names = names_of_lines(catches, path)?;
    let lines = lines.share()?;
    Ok(Annotated::File { lines, names })
}
