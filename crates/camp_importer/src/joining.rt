//! Joining the patches of a commit's parents on one branch.

ghost use Rattle.camp_importer.specs.Calling.{GivesOrFails};
ghost use Rattle.camp_importer.specs.Steps.{JoinsBy, JoinsParents};

use crate::Reason;
use crate::pulling::pull_each;
use crate::starting::start_branch;
use camp_base::Name;
use camp_repo::{Book, State};

/// Joins the patches of a commit's parents on a branch: copies the branch of the first parent, unless that is the
/// branch itself, and pulls all patches of the other parents' branches; a pull may bring nothing. Returns true if no
/// pull was blocked. After a fault the calls accepted so far stay in the book.
pub(crate) fn join_parents(
    book: &mut Book<State>,
    seat: u32,
    branch: &Name,
    first: &Name,
    others: &[Name],
) -> Result<bool, Reason>
    ensures exact { GivesOrFails (λ pulled. JoinsParents pulled first.now others.now branch.now) (JoinsBy first.now others.now branch.now) branch.now book.old result book.new }
{
    match start_branch(book, seat, first, branch) {
        Ok(()) => pull_each(book, seat, branch, others),
        Err(why) => Err(why),
    }
}
