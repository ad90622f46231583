//! The branch of a commit.

ghost use Rattle.std.specs.Prelude.{◌≡◌, None, true, false};
ghost use Rattle.camp_importer.specs.Calling.{OrFails, branch_in};
ghost use Rattle.camp_importer.specs.Parts.{FindsBranch, IsThere};
ghost use Rattle.camp_importer.specs.Steps.{CopiesFirst, StartsFrom};

use crate::Reason;
use crate::executing::execute;
use camp_base::Name;
use camp_repo::{Book, Call, State};

/// Makes a branch as a copy of another; does nothing if both names are that of one existing branch.
pub(crate) fn start_branch(
    book: &mut Book<State>,
    seat: u32,
    first: &Name,
    branch: &Name,
) -> Result<(), Reason>
    ensures { OrFails (StartsFrom first.now branch.now) (CopiesFirst first.now branch.now) branch.now book.old result book.new }
{
    if is_there_already(book, first, branch) {
        return Ok(());
    }
    let call = Call::Branch {
        new: *branch,
        from: *first,
    };
    execute(book, seat, &call)
}

/// True if two names are equal, and there is a branch of this name.
fn is_there_already(book: &Book<State>, first: &Name, branch: &Name) -> bool
    ensures there { result ≡ true → (first.now ≡ branch.now) × IsThere book.now branch.now }
    ensures missing { result ≡ false → first.now ≡ branch.now → branch_in book.now first.now ≡ None }
{
    if first == branch {
        return has_branch(book, first);
    }
    false
}

fn has_branch(book: &Book<State>, name: &Name) -> bool
    ensures { FindsBranch book.now name.now result }
{
    match book.state().branch(name) {
        Some(_) => true,
        None => false,
    }
}
