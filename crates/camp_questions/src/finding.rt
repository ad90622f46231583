//! The branch that a question is about.
ghost use Rattle.std.specs.Prelude.{◌≡◌, None, Some};
ghost use Rattle.std.specs.Result.{MatchResult};
ghost use Rattle.camp_repo.specs.States.{catches_of};
ghost use Rattle.camp_questions.specs.Inside.Finding.{IsFound, IsRefused};

use camp_base::Name;
use camp_repo::{Branch, Refusal, State};

/// Returns the branch of a name, or the refusal if there is none.
pub(crate) fn branch_of<'a>(state: &'a State, name: &Name) -> Result<&'a Branch, Refusal>
    ensures { MatchResult result
        (λ branch. catches_of state.now.branches name.now ≡ Some branch.now)
        (λ refusal. (catches_of state.now.branches name.now ≡ None) × (refusal ≡ Refusal.NoBranch name.now)) }
{
    match state.branch(name) {
        Some(branch) => Ok(branch),
        None => Err(Refusal::NoBranch(*name)),
    }
}

/// Returns the branch of a name that has the patches of these names, or the refusal if there is none or it
/// lacks one of them.
pub(crate) fn branch_with<'a>(
    state: &'a State,
    name: &Name,
    names: &[Name],
) -> Result<&'a Branch, Refusal>
    ensures { MatchResult result
        (λ branch. IsFound state.now name.now names.now branch.now)
        (λ refusal. IsRefused state.now name.now names.now refusal) }
{
    let branch = branch_of(state, name)?;
    match branch.first_lacked(names) {
        Some(name) => Err(Refusal::NoPatch(name)),
        None => Ok(branch),
    }
}
