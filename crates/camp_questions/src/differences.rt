//! The patches that one branch has and another lacks.
ghost use Rattle.std.specs.Prelude.{◌≡◌, IfOk};
ghost use Rattle.camp_questions.specs.Answers.{ReportsAnswer};
ghost use Rattle.camp_questions.specs.Differences.{IsMissing, missing_in};

use crate::Unanswered;
use crate::finding::branch_of;
use crate::keeping::keep_lacked;
use crate::reporting::answer_or_memory;
use camp_base::Name;
use camp_repo::{Branch, Names, State};
use std::alloc::AllocError;

/// Returns the names of the patches that the branch `from` has and `to` lacks, in the order of `from`; none if both are
/// the same branch. A pull without names pulls these, unless it is refused.
pub fn missing(state: &State, from: &Name, to: &Name) -> Result<Names, Unanswered>
    ensures exact { ReportsAnswer (IsMissing state.now from.now to.now) result }
{
    let theirs = branch_of(state, from)?;
    let ours = branch_of(state, to)?;
    answer_or_memory(missing_in(ours, theirs))
}

/// Returns the names of the patches that one branch has and another lacks, in the order of the first.
fn missing_in(ours: &Branch, theirs: &Branch) -> Result<Names, AllocError>
    ensures { IfOk result (λ names. names ≡ missing_in ours.now theirs.now) }
{
    let mut names = theirs.names()?;
    keep_lacked(&mut names, ours);
    Ok(Names::new(names))
}
