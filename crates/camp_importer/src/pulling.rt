//! Pulling the patches of a commit's further parents.

ghost use Rattle.std.specs.Prelude.{◌≡◌, ◌&&◌, [], ◌∷◌};
ghost use Rattle.camp_importer.specs.Calling.{GivesOrFails, pull_outcome, refused_outcome};
ghost use Rattle.camp_importer.specs.Steps.{PullsEach, PullsFromOne, PullsUnlessBlocked};

use crate::Reason;
use crate::executing::execute;
use camp_base::Name;
use camp_repo::{Book, Call, Refusal, State};

/// Pulls all patches of other branches into a branch. Returns true if no pull was blocked; a blocked pull changes
/// nothing.
pub(crate) fn pull_each(
    book: &mut Book<State>,
    seat: u32,
    branch: &Name,
    others: &[Name],
) -> Result<bool, Reason>
    ensures { GivesOrFails (λ pulled. PullsEach pulled others.now branch.now) (PullsFromOne others.now branch.now) branch.now book.old result book.new }
{
    let mut pulled = true;
    for other in others {
        match pull_all(book, seat, other, branch) {
            Ok(one) => pulled = both(pulled, one),
            Err(why) => return Err(why),
        }
    }
    Ok(pulled)
}

fn both(one: bool, other: bool) -> bool
    ensures { result ≡ (one && other) }
{
    one && other
}

/// Pulls all patches of another branch into a branch; does nothing if it has them all. Returns false if the pull is
/// blocked.
fn pull_all(book: &mut Book<State>, seat: u32, other: &Name, branch: &Name) -> Result<bool, Reason>
    ensures { GivesOrFails (PullsUnlessBlocked other.now branch.now) (PullsFromOne (other.now ∷ []) branch.now) branch.now book.old result book.new }
{
    let call = Call::Pull {
        from: *other,
        to: *branch,
        names: None,
    };
    let answer = execute(book, seat, &call);
    pull_outcome(answer)
}

/// Returns true after a pull that was accepted or would bring nothing, and false after one that is blocked.
fn pull_outcome(answer: Result<(), Reason>) -> Result<bool, Reason>
    ensures { result ≡ pull_outcome answer }
{
    match answer {
        Ok(()) => Ok(true),
        Err(Reason::Refused(refusal)) => refused_outcome(refusal),
        Err(why) => Err(why),
    }
}

fn refused_outcome(refusal: Refusal) -> Result<bool, Reason>
    ensures { result ≡ refused_outcome refusal }
{
    match refusal {
        Refusal::NothingToDo => Ok(true),
        Refusal::Depends { .. } => Ok(false),
        Refusal::Diverged(_) => Ok(false),
        Refusal::NoMerge { .. } => Ok(false),
        _ => Err(Reason::Refused(refusal)),
    }
}
