//! Callers of `camp_repo`.
ghost use Rattle.std.specs.Prelude.{◌≡◌, ◌-◌, ◌^◌, ◌<◌, List, None, Some, IfOk, MatchOption};
ghost use Rattle.camp_catch.specs.declared.catches.Catch.{Catch};
ghost use Rattle.camp_repo.specs.States.{catches_of, tree_of};
ghost use Rattle.camp_uses.specs.BookCalls.{Leaves};

use camp_base::{Name, Tree};
use camp_repo::{Book, Call, Decided, Fault, Reply, State, trees_are_answered};
use std::alloc::AllocError;

/// Asks a book at a seat. A call whose reply has a number is in the book under that number, after all others; any other
/// answer leaves the book unchanged.
pub fn ask(book: &mut Book<State>, seat: u32, call: &Call) -> Result<Reply, Fault>
    ensures leaves { Leaves seat book.old call.now result book.new }
{
    book.ask(seat, call)
}

/// Returns the tree of a branch, asked for by a call; if the branch exists, there is one.
pub fn tree(state: &State, branch: &Name) -> Result<Option<Tree>, AllocError>
    requires { state.now.count < 2 ^ 64 - 1 }
    ensures exact { IfOk result (λ found. MatchOption found
        (catches_of state.now.branches branch.now ≡ None)
        (λ tree. (catches : List Catch) × (catches_of state.now.branches branch.now ≡ Some catches) × (tree_of catches ≡ Some tree))) }
{
    trees_are_answered();
    let Some(_) = state.branch(branch) else {
        return Ok(None);
    };
    match state.decide(&Call::Tree(*branch))? {
        Decided::Answer(Reply::Tree(tree)) => Ok(Some(tree)),
        _ => unreachable!(),
    }
}
