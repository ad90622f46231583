//! The patches of the parents of a commit.

ghost use Rattle.std.specs.Prelude.{◌≡◌};
ghost use Rattle.camp_branch.specs.Branches.{first_lacked};
ghost use Rattle.camp_importer.specs.Parts.{IsThere};
ghost use Rattle.camp_importer.specs.Parents.{ChecksParents, ChecksParentsIn, parents_to_have};

use crate::Reason;
use camp_base::Name;
use camp_repo::{Book, Branch, State};

/// Checks that a branch has the patches of all parents of a commit or, if a pull was blocked, that of the first parent.
/// The branch of a commit without parents has to be empty.
pub(crate) fn check_parents(
    book: &Book<State>,
    branch: &Name,
    parents: &[Name],
    pulled: bool,
) -> Result<(), Reason>
    requires there { IsThere book.now branch.now }
    ensures { ChecksParents book.now branch.now parents.now pulled result }
{
    match book.state().branch(branch) {
        Some(found) => check_parents_in(found, parents, pulled),
        None => unreachable!(),
    }
}

fn check_parents_in(branch: &Branch, parents: &[Name], pulled: bool) -> Result<(), Reason>
    ensures { ChecksParentsIn branch.now parents.now pulled result }
{
    if parents.is_empty() {
        if !branch.catches().is_empty() {
            return Err(Reason::NotEmpty);
        }
    }
    match lacked_parent(branch, parents, pulled) {
        Some(name) => Err(Reason::LacksParent(name)),
        None => Ok(()),
    }
}

/// Returns the first parent whose patch a branch lacks; if a pull was blocked, looks only for that of the first parent.
pub(crate) fn lacked_parent(branch: &Branch, parents: &[Name], pulled: bool) -> Option<Name>
    ensures exact { result ≡ first_lacked branch.now (parents_to_have pulled parents.now) }
{
    branch.first_lacked(parents_to_have(parents, pulled))
}

fn parents_to_have(parents: &[Name], pulled: bool) -> &[Name]
    ensures { result.now ≡ parents_to_have pulled parents.now }
{
    if pulled || parents.is_empty() {
        return parents;
    }
    &parents[..1]
}
